// The directory of a section: a record for each entity. And what holds a byte: the entity whose entry contains it.
#![tactic(auto)]

ghost use Rattle.std.specs.Prelude.{◌≡◌, ◌≤◌, length};
ghost use Rattle.layout.specs.Answers.{limit};
ghost use Rattle.layout.specs.Theorems.{Bytes};
ghost use Rattle.table.specs.Answers.{result_of};
ghost use Rattle.section.specs.Entry.{staged};
ghost use Rattle.reading.specs.State.{read_state, new_cursor};
ghost use Rattle.directory.specs.Directory.{directory_of, reading_for, directory, listed_of};
ghost use Rattle.directory.specs.Holder.{entity_at, holder_of};
ghost use Rattle.directory.specs.Exact.{ExactDirectory, ExactHolder};
ghost use Rattle.leaf.specs.Reader.{state_of};
ghost use Rattle.directory.specs.Private.{row_within, Guessed, RowsEnd, Between, After, Ready, records_put, entity_count, Looked, entry_read, seen_after, held_in};

use layout::LIMIT;
use leaf::Reader;
use pass::Pass;
use table::{Counts, Refusal, RefusalKind};

// The record of an entity: its kind; where its entry starts, which is where its length is, and how long the entry is, with
// the 4 bytes of that length; its first row, and how many rows it has. Rows are numbered from 0.
#[repr(C)]
#[derive(Clone, Copy, Default)]
pub struct Record {
    pub kind: u32,
    pub start: u32,
    pub length: u32,
    pub first_row: u32,
    pub row_count: u32,
}

// The reading with a directory: the plain reading, and a record for each entity at the start of the lent list. 21 comes after 13.
// After a refusal the list is unchanged.
pub fn decode_directory(
    section: &[u8],
    table: &mut [u32],
    records: &mut [Record],
) -> Result<Counts, Refusal>
    ensures records_after { listed_of result table.new records.new ≡ directory section.now table.old records.old }
    ensures exact_directory { ExactDirectory section.now table.old records.old (listed_of result table.new records.new) }
{
    let counts = read_for(section, table, records.len())?;
    fill(section, table, records, counts.entities);
    Ok(counts)
}

// The plain reading, but 21 if there is room for fewer records than entities. What it accepts can be filled in.
fn read_for(section: &[u8], table: &mut [u32], room: usize) -> Result<Counts, Refusal>
    ensures { (result_of result table.new ≡ reading_for section.now table.old room) × Ready section.now table.new (entity_count result) room }
{
    let counts = section::decode_entities(section, table)?;
    if room < counts.entities {
        return table::refuse(table, RefusalKind::ListTooSmall as u32, 0);
    }
    Ok(counts)
}

// Stores the first n records, one after the other.
fn fill(section: &[u8], table: &[u32], records: &mut [Record], n: usize)
    requires { Ready section.now table.now n (length records.old) }
    ensures { records.new ≡ records_put (directory_of section.now) n records.old }
{
    let mut r = Record::default();
    for i in 0..n {
        r = record_after(section, table, r);
        records[i] = r;
    }
}

// The record after another, from the section and its rows. The first row of an entity is its kind, whose offset is 4 bytes after
// the entry's start.
fn record_after(s: &[u8], t: &[u32], r: Record) -> Record
    requires { Between s.now t.now r }
    ensures { After s.now t.now r result }
{
    let first = r.first_row as usize + r.row_count as usize;
    let row = table::row_at(t, first);
    let start = row.offset - 4;
    let length = 4 + raw_bytes::number_at(s, start as usize);
    let guess = first + r.row_count as usize;
    let next = rows_end(t, guess, start, start + length);
    Record {
        kind: row.value,
        start,
        length,
        first_row: first as u32,
        row_count: (next - first) as u32,
    }
}

// The row after those of an entry, which are the rows whose offsets are past its start and not past its end. The search begins at
// a guess, goes on to a row that is not one of them, and then back to the last that is.
fn rows_end(t: &[u32], guess: usize, start: u32, end: u32) -> usize
    requires { Guessed t.now guess start end }
    ensures { RowsEnd t.now guess start end result }
{
    let mut row = guess;
    while is_within(t, row, start, end) {
        row += 1;
    }
    while !is_within(t, row - 1, start, end) {
        row -= 1;
    }
    row
}

// The offset of a row is past a start and not past an end.
fn is_within(t: &[u32], row: usize, start: u32, end: u32) -> bool
    ensures { result ≡ row_within t.now start end row }
{
    let offset = table::row_at(t, row).offset;
    start < offset && offset <= end
}

// The entity whose entry contains the byte at a position, by its index, if there is one; or the section's refusal of 1 to 12. As in
// `decode_entities`, the entries are read as they are found, here through a table without rows, and the framing after them is
// checked afterwards.
pub fn entity_at(section: &[u8], position: u64) -> Result<Option<usize>, Refusal>
    ensures result_value { holder_of result ≡ entity_at section.now position }
    ensures exact_holder { ExactHolder section.now position (holder_of result) }
{
    if LIMIT < section.len() {
        return Err(Refusal::at(RefusalKind::InputTooLong, 0));
    }
    let mut reader = Reader::new(section, &mut []);
    let look = look_at(&mut reader, position);
    framing::framing_from(section, look.at)?;
    holder_in(&reader, look.seen, position)
}

// A boundary between two entries, and how many entities are before it.
#[derive(Clone, Copy)]
struct Boundary {
    at: usize,
    entities: usize,
}

// Of the last entry that starts at or before a position: how many entities are before it, how many with it, and where it ends.
#[derive(Clone, Copy)]
struct Seen {
    index: usize,
    next: usize,
    end: usize,
}

// The boundary up to which entries were read, the number of entities with what was read there, and what was seen of the position.
#[derive(Drop)]
struct Look {
    at: usize,
    entities: usize,
    seen: Seen,
}

// Entry after entry, as long as there are whole ones, or up to the first refusal.
fn look_at(reader: &mut Reader, position: u64) -> Look
    requires start { state_of reader.old ≡ read_state new_cursor reader.old.t.now }
    requires small { length reader.old.s.now ≤ limit }
    requires bytes { Bytes reader.old.s.now }
    ensures { Looked reader.old.s.now position result.at (staged reader.new result.entities) result.seen }
{
    let mut seen = Seen {
        index: 0,
        next: 0,
        end: 0,
    };
    let mut before = Boundary { at: 0, entities: 0 };
    let mut entities = section::read_entry(reader, 0);
    while is_further(before, reader) {
        let after = Boundary {
            at: reader.at,
            entities,
        };
        seen = seen_after(seen, before, after, position);
        before = after;
        entities = section::read_entry(reader, entities);
    }
    Look {
        at: before.at,
        entities,
        seen,
    }
}

// Whether an entry was read from a boundary on.
fn is_further(before: Boundary, reader: &Reader) -> bool
    ensures { result ≡ entry_read before (state_of reader.now) }
{
    !reader.is_refused() && before.at < reader.at
}

// What is seen after the entry between two boundaries.
fn seen_after(seen: Seen, before: Boundary, after: Boundary, position: u64) -> Seen
    ensures { result ≡ seen_after seen before after position }
{
    if position < before.at as u64 {
        return seen;
    }
    Seen {
        index: before.entities,
        next: after.entities,
        end: after.at,
    }
}

// The answer at the end: the refusal; or the entity of the last entry that was seen, if it has one and contains the position.
fn holder_in(reader: &Reader, seen: Seen, position: u64) -> Result<Option<usize>, Refusal>
    ensures { holder_of result ≡ held_in (state_of reader.now) seen position }
{
    if reader.refusal != 0 {
        return Err(Refusal {
            number: reader.refusal,
            place: reader.at,
        });
    }
    if seen.next <= seen.index {
        return Ok(None);
    }
    if seen.end as u64 <= position {
        return Ok(None);
    }
    Ok(Some(seen.index))
}
