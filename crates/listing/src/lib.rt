// The listing of a section: what its reading answers, as lines of text.
#![tactic(auto)]

ghost use Rattle.std.specs.Prelude.{[], ◌∷◌, ◌≡◌, ◌+◌, ◌*◌, ◌^◌, ◌≤◌, ◌<◌, length, take};
ghost use Rattle.layout.specs.Written.{row_width};
ghost use Rattle.layout.specs.Answers.{accepted, whole_rows};
ghost use Rattle.decimal.specs.Decimal.{decimal};
ghost use Rattle.listing.specs.Listing.{lent_rows, lent_table, line, long_line, refusal_line, lines, listing, most_listed, at_start};
ghost use Rattle.listing.specs.Private.{most_line, stored};

use decimal::{decimal, push_decimal};
use fixed_text::FixedText;
use layout::ROW_WIDTH;
use table::{Counts, Refusal};

// The most bytes of a section that is listed.
pub const MOST_BYTES: usize = 65536;

// The number of rows that are lent for its reading.
const LENT_ROWS: usize = 5461;

const LENT_NUMBERS: usize = ROW_WIDTH * LENT_ROWS;

// No line is longer.
const MOST_LINE: usize = 49;

// No listing is longer.
pub const MOST_LISTED: usize = MOST_LINE + 11 * LENT_NUMBERS;

// Puts the listing of the bytes of input at the start of out, as far as it fits, and answers its length.
pub fn listing(input: &[u8], out: &mut [u8]) -> usize
    ensures value { result ≡ length (listing input.now) }
    ensures out_after { out.new ≡ at_start (listing input.now) out.old }
    ensures upper_bound { result ≤ most_listed }
{
    if MOST_BYTES < input.len() {
        return list_long(out);
    }
    let mut table = lent_table();
    match section::decode_entities(input, &mut table) {
        Ok(counts) => list_rows(counts, &table, out),
        Err(refusal) => list_refusal(refusal, out),
    }
}

// The same with the line of an input that is too long.
pub fn list_long(out: &mut [u8]) -> usize
    ensures value { result ≡ length long_line }
    ensures out_after { out.new ≡ at_start long_line out.old }
    ensures upper_bound { result ≤ most_listed }
{
    put(out, 0, b"long\n")
}

// The same with the line of a refusal.
pub fn list_refusal(refusal: Refusal, out: &mut [u8]) -> usize
    ensures value { result ≡ length (refusal_line refusal.number refusal.place) }
    ensures out_after { out.new ≡ at_start (refusal_line refusal.number refusal.place) out.old }
    ensures upper_bound { result ≤ most_listed }
{
    let number = u64::from(refusal.number);
    let line = line(b"refuse", number, refusal.place as u64);
    put(out, 0, line.as_slice())
}

// The table before the reading.
fn lent_table() -> [u32; LENT_NUMBERS]
    ensures { (result ≡ lent_table) × (length result ≡ row_width * lent_rows) }
{
    [0u32; LENT_NUMBERS]
}

// The same with the lines of an acceptance: the one with the counts, then one for each of the rows that are counted.
fn list_rows(counts: Counts, table: &[u32], out: &mut [u8]) -> usize
    requires { (length table.now ≤ row_width * lent_rows) × (counts.rows ≤ whole_rows table.now) }
    ensures value { result ≡ length (lines (accepted counts.entities counts.rows) table.now) }
    ensures out_after { out.new ≡ at_start (lines (accepted counts.entities counts.rows) table.now) out.old }
    ensures upper_bound { result ≤ most_listed }
{
    let first = line(b"accept", counts.entities as u64, counts.rows as u64);
    let mut end = put(out, 0, first.as_slice());
    for index in 0..counts.rows {
        let row = table::row_at(table, index);
        let sort = decimal(u64::from(row.sort));
        let line = line(sort.as_slice(), u64::from(row.offset), u64::from(row.value));
        end = put(out, end, line.as_slice());
    }
    end
}

// A line: a word, then two numbers.
fn line(word: &[u8], a: u64, b: u64) -> FixedText<MOST_LINE>
    ensures { result ≡ take most_line (line (word.now ∷ decimal a ∷ decimal b ∷ [])) }
{
    let mut line = FixedText::new();
    line.extend_from_slice(word);
    line.push(b' ');
    push_decimal(&mut line, a);
    line.push(b' ');
    push_decimal(&mut line, b);
    line.push(b'\n');
    line
}

// Stores bytes from a place on, as far as there is room, and answers the place after all of them, which may be past the end of
// out.
fn put(out: &mut [u8], at: usize, bytes: &[u8]) -> usize
    requires { at + length bytes.now < 2 ^ 64 }
    ensures { (result ≡ at + length bytes.now) × (out.new ≡ stored at bytes.now out.old) }
{
    let start = at.min(out.len());
    let fitting = bytes.len().min(out.len() - start);
    let end = start + fitting;
    out[start..end].copy_from_slice(&bytes[..fitting]);
    at + bytes.len()
}
