// The whole section: its framing, then its payloads one after the other, into a lent table.
#![tactic(auto)]

ghost use Rattle.std.specs.Prelude.{◌+◌, ◌≤◌, ◌≡◌, length};
ghost use Rattle.layout.specs.Answers.{limit};
ghost use Rattle.layout.specs.Theorems.{Bytes};
ghost use Rattle.raw_bytes.specs.Bytes.{number_or0};
ghost use Rattle.table.specs.Answers.{result_of};
ghost use Rattle.section.specs.Section.{reading};
ghost use Rattle.section.specs.Demand3.{Demand3};
ghost use Rattle.reading.specs.State.{read_state, new_cursor};
ghost use Rattle.leaf.specs.Reader.{lent_of, state_of};
ghost use Rattle.section.specs.Entry.{staged, past_entry, read_entry};
ghost use Rattle.section.specs.Private.{Walks};

use layout::LIMIT;
use leaf::Reader;
use pass::Pass;
use table::{Counts, Refusal, RefusalKind};

// The boundary up to which the framing is known to be good, and the number of entities before it.
#[derive(Clone, Copy)]
struct Walk {
    at: usize,
    entities: usize,
}

// One entry, at the reader's place, after a number of entities: the sentinel, which yields nothing, or an entity. Nothing is read
// after a refusal, if there is no whole entry, if there are too many bytes, or after too many entities.
pub fn read_entry(reader: &mut Reader, entities: usize) -> usize
    ensures lent { lent_of reader.new ≡ lent_of reader.old }
    ensures stage { staged reader.new result ≡ read_entry reader.old.s.now (staged reader.old entities) }
{
    if reader.is_refused() {
        return entities;
    }
    if LIMIT < reader.s.len() {
        return entities;
    }
    if LIMIT < entities {
        return entities;
    }
    let at = reader.at;
    let end = framing::entry_end(reader.s, at);
    if end <= at {
        return entities;
    }
    read_whole_entry(reader, at, end, entities)
}

// The same, if there is a whole entry, from the reader's place up to an end. An entity's reader sees no byte after the entry.
fn read_whole_entry(reader: &mut Reader, at: usize, end: usize, entities: usize) -> usize
    requires place { reader.old.at ≡ at }
    requires whole { end ≡ at + 4 + number_or0 reader.old.s.now at }
    requires inside { end ≤ length reader.old.s.now }
    requires small { length reader.old.s.now ≤ limit }
    requires few { entities ≤ limit }
    ensures lent { lent_of reader.new ≡ lent_of reader.old }
    ensures stage { staged reader.new result ≡ past_entry reader.old.s.now (staged reader.old entities) }
{
    let s = reader.s;
    let begin = at + 4;
    if framing::is_sentinel(&s[begin..end]) {
        reader.seek(end);
        return entities;
    }
    reader.seek(begin);
    reader.s = &s[..end];
    entity::entity(reader);
    reader.s = s;
    reader.finish(end);
    entities + 1
}

// Entry after entry, as long as there are whole ones, or up to the first refusal. The framing after that is not checked yet.
fn read_entries(reader: &mut Reader) -> Walk
    requires small { length reader.old.s.now ≤ limit }
    requires bytes { Bytes reader.old.s.now }
    requires start { state_of reader.old ≡ read_state new_cursor reader.old.t.now }
    ensures lent { lent_of reader.new ≡ lent_of reader.old }
    ensures stage { Walks reader.old.s.now reader.old.t.now result.at (staged reader.new result.entities) }
{
    let s = reader.s;
    let mut entities = 0;
    let mut at = 0;
    let mut end = framing::entry_end(s, at);
    while at < end {
        entities = read_whole_entry(reader, at, end, entities);
        if reader.refusal != 0 {
            return Walk { at: end, entities };
        }
        at = end;
        end = framing::entry_end(s, at);
    }
    Walk { at, entities }
}

// The whole reading. On acceptance the table has the rows, then only 0; after a refusal it is all 0. The format has the whole
// framing checked before any payload is read. Here, in one pass, the entries are read as they are found, and the framing after
// them is checked afterwards: if it is refused, that is the answer, whatever the entries gave. The answer is proved to be the
// same.
pub fn decode_entities(section: &[u8], table: &mut [u32]) -> Result<Counts, Refusal>
    ensures table_after { result_of result table.new ≡ reading section.now table.old }
    ensures demand3 { Demand3 section.now table.old (result_of result table.new) }
{
    if LIMIT < section.len() {
        return table::refuse(table, RefusalKind::InputTooLong as u32, 0);
    }
    let mut reader = Reader::new(section, table);
    let walk = read_entries(&mut reader);
    if let Err(refusal) = framing::framing_from(section, walk.at) {
        return table::refuse(reader.t, refusal.number, refusal.place);
    }
    reader.answer(walk.entities)
}
