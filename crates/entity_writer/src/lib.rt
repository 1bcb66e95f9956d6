// The writing of an entity, as one payload alone: its length, and its bytes.
#![tactic(auto)]

ghost use Rattle.std.specs.Prelude.{◌≡◌, length};
ghost use Rattle.layout.specs.Entities.{Entity};
ghost use Rattle.length.specs.Length.{length_of};
ghost use Rattle.writing.specs.Writing.{measured, write, length_in, written};
ghost use Rattle.writing.specs.Refusals.{alone, ExactLength, ExactWriting};

use table::Refusal;

// Measures an entity, as a payload, from its rows: its length in bytes, or a refusal of 14 to 16.
pub fn entity_len(rows: &[u32], text: &[u8]) -> Result<usize, Refusal>
    ensures result_value { length_of result ≡ length_in (measured Entity rows.now text.now) }
    ensures exact_length { ExactLength (alone Entity) rows.now text.now (length_of result) }
{
    writer::measured(rows, text, entity::entity)
}

// Writes an entity, as a payload, to the start of dest and answers its length; or answers a refusal of 14 to 17, with dest
// unchanged.
pub fn encode_entity(rows: &[u32], text: &[u8], dest: &mut [u8]) -> Result<usize, Refusal>
    ensures result_value { length_of result ≡ length_in (write Entity rows.now text.now (length dest.old)) }
    ensures dest_after { dest.new ≡ written (write Entity rows.now text.now (length dest.old)) dest.old }
    ensures exact_writing { ExactWriting (alone Entity) rows.now text.now dest.old (length_of result) dest.new }
{
    writer::encoded(rows, text, dest, entity::entity)
}
