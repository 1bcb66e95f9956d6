// The SQL text of a mapping: a part of the caller's bytes, or written to a lent buffer.
#![tactic(auto)]

ghost use Rattle.std.specs.Prelude.{◌≡◌, ◌+◌, ◌*◌, ◌≤◌, length, IfOk};
ghost use Rattle.layout.specs.Written.{row_width, value_at};
ghost use Rattle.numeric.specs.Numeric.{numeric_size, option_of};
ghost use Rattle.place.specs.Place.{number_in, place_in, bytes_told, number_told, place_told, told_as};
ghost use Rattle.sql_text.specs.SqlText.{number_if, sql_text, sql_part_of, filled, sql_answer, sql_answer_of};
ghost use Rattle.sql_text.specs.Private.{outcome_of, sized_for};

use layout::{LIMIT, ROW_WIDTH};
use leaf::Reader;
use numeric::NUMERIC_SQL_SIZE;
use pass::Pass;
use place::Part;
use table::{Refusal, RefusalKind};

// The rows of a Numeric mapping: its tag, has_precision, precision, has_scale and scale.
const NUMERIC_ROWS: usize = 5;

const HAS_PRECISION: usize = 1;

const HAS_SCALE: usize = 3;

// The size of an As mapping before its text: its tag and the text's length.
const AS_HEAD: usize = 5;

// Where the SQL text of a mapping is: in the section; or at the start of the buffer.
#[derive(Clone, Copy, Debug, PartialEq, Eq)]
pub enum SqlPlace {
    Section(Part),
    Buffer { len: usize },
}

// Fills the start of a lent buffer with the SQL text of the mapping at an offset, if the mapping is Numeric, and answers where
// the SQL text is.
pub fn place_sql_text(section: &[u8], offset: u32, buffer: &mut [u8]) -> Result<SqlPlace, Refusal>
    ensures result_value { sql_answer_of result ≡ sql_answer (sql_text section.now offset (length buffer.old)) }
    ensures buffer_after { buffer.new ≡ filled buffer.old (sql_text section.now offset (length buffer.old)) }
    ensures case { told_as result (sql_text section.now offset (length buffer.old)) }
{
    match find_sql_text(section, offset, buffer.len())? {
        Found::Stored(part) => Ok(SqlPlace::Section(part)),
        Found::Numeric(precision, scale) => {
            let sql = numeric::numeric_sql_string(precision, scale);
            let text = sql.as_slice();
            paste::paste(buffer, 0, text);
            Ok(SqlPlace::Buffer { len: text.len() })
        }
    }
}

// The same, with only the refusal.
pub fn fill_sql_text(section: &[u8], offset: u32, buffer: &mut [u8]) -> Result<(), Refusal>
    ensures buffer_after { buffer.new ≡ filled buffer.old (sql_text section.now offset (length buffer.old)) }
    ensures number_after { number_told result ≡ number_in (sql_text section.now offset (length buffer.old)) }
    ensures place_after { place_told result ≡ place_in (sql_text section.now offset (length buffer.old)) }
    ensures case { told_as result (sql_text section.now offset (length buffer.old)) }
{
    place_sql_text(section, offset, buffer)?;
    Ok(())
}

// The SQL text of the mapping at an offset: a part of the section, or of the buffer, which fill_sql_text has filled.
pub fn sql_text<'a>(section: &'a [u8], offset: u32, buffer: &'a [u8]) -> Result<&'a [u8], Refusal>
    ensures result_value { bytes_told result ≡ sql_part_of section.now buffer.now (sql_text section.now offset (length buffer.now)) }
    ensures number_after { number_told result ≡ number_in (sql_text section.now offset (length buffer.now)) }
    ensures place_after { place_told result ≡ place_in (sql_text section.now offset (length buffer.now)) }
    ensures case { told_as result (sql_text section.now offset (length buffer.now)) }
{
    match find_sql_text(section, offset, buffer.len())? {
        Found::Stored(part) => Ok(part.of(section)),
        Found::Numeric(precision, scale) => {
            let sql = numeric::numeric_sql_string(precision, scale);
            let len = sql.as_slice().len();
            Ok(&buffer[..len])
        }
    }
}

// What is found for an SQL text: a text stored in the section; or a Numeric mapping's precision and scale.
#[derive(Clone, Copy)]
enum Found {
    Stored(Part),
    Numeric(Option<u32>, Option<u32>),
}

// The mapping at an offset, read with a table of its own, for a buffer of a given size.
fn find_sql_text(section: &[u8], offset: u32, size: usize) -> Result<Found, Refusal>
    ensures value { outcome_of result ≡ sql_text section.now offset size }
    ensures room { IfOk result (λ found. size ≡ numeric_size) }
{
    if LIMIT < section.len() {
        return Err(Refusal::at(RefusalKind::InputTooLong, 0));
    }
    let at = offset as usize;
    let mut t = [0u32; NUMERIC_ROWS * ROW_WIDTH];
    let mut reader = Reader::new(section, &mut t);
    reader.seek(at);
    metadata::sql_mapping(&mut reader);
    if reader.refusal != 0 {
        return Err(Refusal {
            number: reader.refusal,
            place: reader.at,
        });
    }
    match reader.seen(at, 0) {
        layout::SQL_MAPPING_AS => {
            let start = at + AS_HEAD;
            let len = reader.at - start;
            sized(size, Found::Stored(Part { start, len }))
        }
        layout::SQL_MAPPING_NUMERIC => {
            let rows = &*reader.t;
            let precision = option_in(rows, HAS_PRECISION);
            let scale = option_in(rows, HAS_SCALE);
            sized(size, Found::Numeric(precision, scale))
        }
        _ => Err(Refusal::at(RefusalKind::NoSqlText, at)),
    }
}

// What was found, unless the buffer has another size.
fn sized(size: usize, found: Found) -> Result<Found, Refusal>
    ensures { result ≡ sized_for size found }
{
    if size != NUMERIC_SQL_SIZE {
        return Err(Refusal::at(RefusalKind::BadBufferSize, 0));
    }
    Ok(found)
}

// The number in the row after a flag's row, if the flag is 1.
fn option_in(t: &[u32], row: usize) -> Option<u32>
    requires { row_width * (row + 2) ≤ length t.now }
    ensures { option_of result ≡ number_if (value_at t.now row) (value_at t.now (row + 1)) }
{
    let flag = table::row_at(t, row);
    let number = table::row_at(t, row + 1);
    if flag.value == 1 {
        return Some(number.value);
    }
    None
}
