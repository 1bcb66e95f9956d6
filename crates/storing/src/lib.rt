// The second pass over the rows of a writing, once nothing is refused: their bytes are stored, row after row, or as entries.
#![tactic(auto)]

ghost use Rattle.std.specs.Prelude.{◌≡◌, ◌<◌, ◌≤◌, length};
ghost use Rattle.layout.specs.Answers.{whole_rows};
ghost use Rattle.storing.specs.Storing.{Stores, StoresEntries};
ghost use Rattle.storing.specs.Private.{text_bytes, stored_bytes, stored_row, entity_end, stored_payload};
ghost use Rattle.storing.specs.Output.{spot_of};

use layout::ROW_WIDTH;
use table::Row;

// Stores the bytes of the rows from the start of dest on, row after row, those that fit. What it stores for rows that give no
// leaves is unspecified.
pub fn store(rows: &[u32], text: &[u8], dest: &mut [u8])
    ensures { Stores rows.now text.now dest.old dest.new }
{
    let mut out = Output { dest, at: 0 };
    for i in 0..rows.len() / ROW_WIDTH {
        out.push_row(rows, text, i);
    }
}

// Stores the bytes of the rows from the start of dest on as entries: a payload is the row of an entity's kind, and those after it
// up to the next kind; its length, which is known once it is stored, stands before it. What it stores for rows that do not give
// the leaves of entities is unspecified.
pub fn store_entries(rows: &[u32], text: &[u8], dest: &mut [u8])
    ensures { StoresEntries rows.now text.now dest.old dest.new }
{
    let mut out = Output { dest, at: 0 };
    let mut i = 0;
    while i < rows.len() / ROW_WIDTH {
        if out.dest.len() - out.at < 4 {
            return;
        }
        let begin = out.at;
        out.at += 4;
        i = out.push_payload(rows, text, i);
        let length = (out.at - begin - 4) % 4294967296;
        raw_bytes::put_number(out.dest, begin, length as u32);
    }
}

// Where storing goes on: a place in a destination.
#[derive(Drop)]
struct Output<'a> {
    dest: &'a mut [u8],
    at: usize,
}

impl Output<'_> {
    // Stores the row of a kind and those after it, up to the next kind, and answers where that is.
    fn push_payload(&mut self, rows: &[u32], text: &[u8], first: usize) -> usize
        requires { (first < whole_rows rows.now) × (self.old.at ≤ length self.old.dest.now) }
        ensures lent { self.new.dest.ghost_name ≡ self.old.dest.ghost_name }
        ensures end { result ≡ entity_end rows.now first }
        ensures within { (self.old.at ≤ self.new.at) × (self.new.at ≤ length self.new.dest.now) }
        ensures stored { spot_of self.new ≡ stored_payload rows.now text.now first (spot_of self.old) }
    {
        self.push_row(rows, text, first);
        for i in first + 1..rows.len() / ROW_WIDTH {
            if table::row_at(rows, i).sort == layout::SORT_KIND {
                return i;
            }
            self.push_row(rows, text, i);
        }
        rows.len() / ROW_WIDTH
    }

    // Stores a row if it fits.
    #[tactic(auto, unfolding(crate::specs::Private::row_bytes, table::specs::Table::row_of))]
    fn push_row(&mut self, rows: &[u32], text: &[u8], i: usize)
        requires { (i < whole_rows rows.now) × (self.old.at ≤ length self.old.dest.now) }
        ensures lent { self.new.dest.ghost_name ≡ self.old.dest.ghost_name }
        ensures stored { spot_of self.new ≡ stored_row rows.now text.now i (spot_of self.old) }
    {
        let row = table::row_at(rows, i);
        if row.sort <= layout::SORT_FLAG {
            self.push(&[(row.value % 256) as u8]);
        } else if row.sort <= layout::SORT_COUNT {
            self.push(&row.value.to_le_bytes());
        } else {
            self.push_text(text, row);
        }
    }

    // Stores a text after its length, unless it leaves the lent bytes.
    fn push_text(&mut self, text: &[u8], row: Row)
        requires { self.old.at ≤ length self.old.dest.now }
        ensures lent { self.new.dest.ghost_name ≡ self.old.dest.ghost_name }
        ensures stored { spot_of self.new ≡ stored_bytes (text_bytes text.now row.offset row.value) (spot_of self.old) }
    {
        let start = row.offset as usize;
        let Some(bytes) = text.get(start..start + row.value as usize) else {
            return;
        };
        let end = self.at + 4 + bytes.len();
        if end <= self.dest.len() {
            self.push(&row.value.to_le_bytes());
            paste::paste(self.dest, self.at, bytes);
            self.at = end;
        }
    }

    // Stores bytes if they fit.
    #[tactic(auto, unfolding(crate::specs::Private::stored_bytes, paste::specs::Pasted::pasted))]
    fn push(&mut self, bytes: &[u8])
        requires { self.old.at ≤ length self.old.dest.now }
        ensures lent { self.new.dest.ghost_name ≡ self.old.dest.ghost_name }
        ensures stored { spot_of self.new ≡ stored_bytes bytes.now (spot_of self.old) }
    {
        let end = self.at + bytes.len();
        if end <= self.dest.len() {
            self.dest[self.at..end].copy_from_slice(bytes);
            self.at = end;
        }
    }
}
