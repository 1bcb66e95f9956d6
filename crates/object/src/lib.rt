// A shared object: the reading of the section that it has by a name, and its listing.
#![tactic(auto)]

ghost use Rattle.std.specs.Prelude.{◌≡◌, ◌≤◌, length};
ghost use Rattle.table.specs.Answers.{result_of};
ghost use Rattle.listing.specs.Listing.{most_listed, at_start};
ghost use Rattle.object.specs.Object.{object_reading, ExactObject, object_listing};

use table::{Counts, Refusal};

// The most bytes of a file whose section is listed.
pub const MOST_OBJECT: usize = 4194304;

// Finds the section of a file with a name, and reads it through a lent table. If there is none, the table is set to 0.
pub fn decode_object(file: &[u8], name: &[u8], table: &mut [u32]) -> Result<Counts, Refusal>
    ensures table_after { result_of result table.new ≡ object_reading file.now name.now table.old }
    ensures exact_object { ExactObject file.now name.now table.old (result_of result table.new) }
{
    match elf::place_section(file, name) {
        Ok(part) => section::decode_entities(part.of(file), table),
        Err(refusal) => table::refuse(table, refusal.number, refusal.place),
    }
}

// Puts the listing of the section of a file with a name at the start of out, as far as it fits, and answers its length.
pub fn object_listing(file: &[u8], name: &[u8], out: &mut [u8]) -> usize
    ensures value { result ≡ length (object_listing file.now name.now) }
    ensures out_after { out.new ≡ at_start (object_listing file.now name.now) out.old }
    ensures upper_bound { result ≤ most_listed }
{
    if MOST_OBJECT < file.len() {
        return listing::list_long(out);
    }
    match elf::place_section(file, name) {
        Ok(part) => listing::listing(part.of(file), out),
        Err(refusal) => listing::list_refusal(refusal, out),
    }
}
