// Texts as parts of the caller's bytes: the text of a row, its kept name, and the SQL name of a declaration; and where in a declared
// name the SQL name starts, by a walk that may be done in parts.
#![tactic(auto)]

ghost use Rattle.std.specs.Prelude.{List, ◌++◌, ◌≡◌, ℕ, ◌+◌, ◌≤◌, length};
ghost use Rattle.place.specs.Place.{found_part, part_of, number_in, place_in, bytes_told, number_told, place_told, told_as};
ghost use Rattle.parts.specs.Parts.{row_text, kept_name, kept_name_in, ExactKeptName, sql_name, sql_name_in};
ghost use Rattle.parts.specs.Names.{name_start, ExactStart, unbegun, most_held, held, walked_over, StandsAfter, walk_answer, standing, start_of};
ghost use Rattle.parts.specs.Private.{Untested, end_after};

use layout::LIMIT;
use place::Part;
use table::{Refusal, RefusalKind, Row};
use text::State;

// Where a walk over a declared name stands: the state of the text check, whether a colon is open, where the SQL name starts so
// far, and how many bytes the walk has seen. Both numbers count from the start of the whole name.
#[derive(Clone, Copy, Debug, PartialEq, Eq)]
pub struct NameWalk {
    pub state: State,
    pub opened: bool,
    pub start: usize,
    pub seen: usize,
}

// Where the text of a row is.
pub fn place_row_text(section: &[u8], row: Row) -> Result<Part, Refusal>
    ensures { found_part result ≡ row_text section.now row }
{
    let part = place_row_bytes(section, row)?;
    if text::is_utf8(part.of(section)) {
        return Ok(part);
    }
    place::no_part(RefusalKind::BadTextRow as u32)
}

// The same, with nothing known of the bytes there.
fn place_row_bytes(section: &[u8], row: Row) -> Result<Part, Refusal>
    ensures { Untested section.now row (found_part result) }
{
    if LIMIT < section.len() {
        return place::no_part(RefusalKind::InputTooLong as u32);
    }
    let start = row.offset as usize;
    let len = row.value as usize;
    if row.sort != layout::SORT_TEXT || section.len() < start || section.len() - start < len {
        return place::no_part(RefusalKind::BadTextRow as u32);
    }
    Ok(Part { start, len })
}

// The text of a row, a part of the section.
pub fn row_text<'a>(section: &'a [u8], row: Row) -> Result<&'a [u8], Refusal>
    ensures result_value { bytes_told result ≡ part_of section.now (row_text section.now row) }
    ensures number_after { number_told result ≡ number_in (row_text section.now row) }
    ensures place_after { place_told result ≡ place_in (row_text section.now row) }
    ensures case { told_as result (row_text section.now row) }
{
    place::part_at(section, place_row_text(section, row))
}

// Where the kept name of a row is: as much of its text as the server keeps of a name. The whole text is tested.
pub fn place_kept_name(section: &[u8], row: Row) -> Result<Part, Refusal>
    ensures result_value { found_part result ≡ kept_name_in section.now (row_text section.now row) }
    ensures exact_kept_name { ExactKeptName section.now row (found_part result) }
{
    let part = place_row_bytes(section, row)?;
    let Some(len) = text::check_text(part.of(section)) else {
        return place::no_part(RefusalKind::BadTextRow as u32);
    };
    Ok(Part {
        start: part.start,
        len,
    })
}

// The kept name of a row, a part of the section.
pub fn kept_name<'a>(section: &'a [u8], row: Row) -> Result<&'a [u8], Refusal>
    ensures result_value { bytes_told result ≡ kept_name (part_of section.now (row_text section.now row)) }
    ensures number_after { number_told result ≡ number_in (row_text section.now row) }
    ensures place_after { place_told result ≡ place_in (row_text section.now row) }
    ensures case { told_as result (row_text section.now row) }
{
    place::part_at(section, place_kept_name(section, row))
}

// Where the SQL name of a declaration is, from the row of the declaration's name.
pub fn place_sql_name(section: &[u8], row: Row) -> Result<Part, Refusal>
    ensures { found_part result ≡ sql_name_in section.now (row_text section.now row) }
{
    let part = place_row_bytes(section, row)?;
    let Some(before) = name_start(part.of(section)) else {
        return place::no_part(RefusalKind::BadTextRow as u32);
    };
    Ok(Part {
        start: part.start + before,
        len: part.len - before,
    })
}

// The SQL name of a declaration, a part of the section, from the row of the declaration's name.
pub fn sql_name<'a>(section: &'a [u8], row: Row) -> Result<&'a [u8], Refusal>
    ensures result_value { bytes_told result ≡ sql_name (part_of section.now (row_text section.now row)) }
    ensures number_after { number_told result ≡ number_in (row_text section.now row) }
    ensures place_after { place_told result ≡ place_in (row_text section.now row) }
    ensures case { told_as result (row_text section.now row) }
{
    place::part_at(section, place_sql_name(section, row))
}

// Where the SQL name of a declared name starts, if the name is UTF-8, by one walk over the name.
pub fn name_start(name: &[u8]) -> Option<usize>
    ensures result_value { start_of result ≡ name_start name.now }
    ensures exact_start { ExactStart name.now (start_of result) }
{
    NameWalk::new().walk(name).answer()
}

impl NameWalk {
    // The walk before the first byte.
    pub fn new() -> NameWalk
        ensures { standing result ≡ unbegun }
    {
        NameWalk {
            state: State::Start,
            opened: false,
            start: 0,
            seen: 0,
        }
    }

    // The walk after these bytes, which follow those that it has seen. From any other state the first promise alone says what it
    // does.
    pub fn walk(self, bytes: &[u8]) -> NameWalk
        ensures result_value { standing result ≡ walked_over (standing self) bytes.now }
        ensures by_index { (l : List ℕ) → StandsAfter l (standing self) → StandsAfter (l ++ bytes.now) (standing result) }
    {
        let walked = text::walk_colons(self.state, self.opened, bytes);
        NameWalk {
            state: walked.state,
            opened: walked.opened,
            start: start_after(self.start, self.seen, walked.end),
            seen: self.seen.saturating_add(bytes.len()),
        }
    }

    // The answer, if no more bytes follow: where the SQL name starts, if the name is UTF-8.
    pub fn answer(self) -> Option<usize>
        ensures result_value { start_of result ≡ walk_answer (standing self) }
        ensures by_index { (l : List ℕ) → length l ≤ most_held → StandsAfter l (standing self) → ExactStart l (start_of result) }
    {
        (self.state == State::Start).then_some(self.start)
    }
}

// Where the SQL name starts after more bytes: after the last pair of colons, which ended at `end` of these bytes; or, if they have
// none, where it started before.
fn start_after(start: usize, seen: usize, end: usize) -> usize
    ensures { result ≡ held (end_after start seen end) }
{
    if end == 0 {
        return start;
    }
    seen.saturating_add(end)
}
