// The leaves: a reader of a payload that reads a flag, a number, a tag, a count or a text, and stores its row.
#![tactic(auto)]

ghost use Rattle.std.specs.Prelude.{[], ◌∷◌, ◌≡◌};
ghost use Rattle.layout.specs.Layout.{refusal_of};
ghost use Rattle.layout.specs.Reading.{byte_at, four_at};
ghost use Rattle.table.specs.Answers.{result_of};
ghost use Rattle.reading.specs.State.{read_state, new_cursor, seek, refused_once, finished_at, stop, put, guarded};
ghost use Rattle.leaf.specs.Reader.{cursor_kept, cursor_of, state_of, lent_of, reader_meaning};
ghost use Rattle.reading.specs.Answered.{answered, answered_alone};
ghost use Rattle.leaf.specs.Private.{put_number, Left};
ghost use Rattle.reading.proofs.Still.{run_refused, halt_refused};
ghost use Rattle.reading.proofs.Result.{reader_judges};

use layout::{LIMIT, ROW_WIDTH};
use pass::Pass;
use table::{Counts, Refusal, RefusalKind};

// Where a reading stands, apart from its bytes and its table: `at`, the next byte, or the place of the refusal; `rows`, the rows
// stored so far, or one more than the table has once a row did not fit; `refusal`, 0 or the number of the refusal; `value`, the
// value of the last leaf read. A reading can go on from a cursor that was kept.
#[derive(Clone, Copy, Debug, PartialEq, Eq)]
pub struct Cursor {
    pub at: usize,
    pub rows: usize,
    pub refusal: u32,
    pub value: u32,
}

impl Cursor {
    // A cursor at the first byte.
    pub fn new() -> Cursor
        ensures { cursor_kept result ≡ new_cursor }
    {
        Cursor {
            at: 0,
            rows: 0,
            refusal: 0,
            value: 0,
        }
    }

    // The same cursor, field by field.
    pub fn copy(self) -> Cursor
        ensures { result ≡ self }
    {
        Cursor {
            at: self.at,
            rows: self.rows,
            refusal: self.refusal,
            value: self.value,
        }
    }
}

// The state of a reading: the bytes; the table that it fills; `at`, the next byte, or the place of the refusal; `rows`, the rows
// stored so far, or one more than the table has once a row did not fit; `value`, the value of the last leaf read; `refusal`, 0 or
// the number of the refusal. A refused reader reads nothing more.
#[derive(Drop)]
pub struct Reader<'a> {
    pub s: &'a [u8],
    pub t: &'a mut [u32],
    pub at: usize,
    pub rows: usize,
    pub value: u32,
    pub refusal: u32,
}

impl<'a> Reader<'a> {
    // A reader at the first byte.
    pub fn new(s: &'a [u8], t: &'a mut [u32]) -> Reader<'a>
        ensures bytes { result.s.now ≡ s.now }
        ensures lent { result.t.ghost_name ≡ t.entry.ghost_name }
        ensures state { state_of result ≡ read_state new_cursor t.old }
    {
        let start = Cursor::new();
        Reader {
            s,
            t,
            at: start.at,
            rows: start.rows,
            value: start.value,
            refusal: start.refusal,
        }
    }

    // Where the reading stands.
    pub fn cursor(&self) -> Cursor
        ensures { cursor_kept result ≡ cursor_of self.now }
    {
        Cursor {
            at: self.at,
            rows: self.rows,
            refusal: self.refusal,
            value: self.value,
        }
    }

    // The reading goes on from a cursor.
    pub fn resume(&mut self, cursor: Cursor)
        ensures lent { lent_of self.new ≡ lent_of self.old }
        ensures state { state_of self.new ≡ read_state (cursor_kept cursor) self.old.t.now }
    {
        self.at = cursor.at;
        self.rows = cursor.rows;
        self.refusal = cursor.refusal;
        self.value = cursor.value;
    }

    // The reader goes to another place. For one that is refused, the place is that of its refusal.
    pub fn seek(&mut self, at: usize)
        ensures lent { lent_of self.new ≡ lent_of self.old }
        ensures state { state_of self.new ≡ read_state (seek at (cursor_of self.old)) self.old.t.now }
    {
        self.at = at;
    }

    // The reader is refused, whatever it read: its position is the place of the refusal.
    pub fn stop(&mut self, number: u32, place: usize)
        ensures lent { lent_of self.new ≡ lent_of self.old }
        ensures state { state_of self.new ≡ stop number place (state_of self.old) }
    {
        self.refusal = number;
        self.at = place;
    }

    // The same, unless it is refused already.
    pub fn refused(&mut self, number: u32, place: usize)
        ensures lent { lent_of self.new ≡ lent_of self.old }
        ensures state { state_of self.new ≡ read_state (refused_once number place (cursor_of self.old)) self.old.t.now }
    {
        if self.refusal == 0 {
            self.stop(number, place);
        }
    }

    // Whether the reading goes on, with that many bytes left. If not, the reader is refused: too many bytes, or too few left.
    fn left(&mut self, n: usize) -> bool
        ensures { Left result n self.old self.new }
    {
        if self.refusal != 0 {
            return false;
        }
        if LIMIT < self.s.len() {
            self.stop(RefusalKind::InputTooLong as u32, 0);
            return false;
        }
        if self.s.len() < self.at || self.s.len() - self.at < n {
            self.stop(RefusalKind::Truncated as u32, self.at);
            return false;
        }
        true
    }

    // A leaf was read: its row is stored if the table has room for it. Rows are counted up to one more than the table has.
    fn store(&mut self, sort: u32, offset: u32, value: u32, next: usize)
        ensures lent { lent_of self.new ≡ lent_of self.old }
        ensures state { state_of self.new ≡ put (sort ∷ offset ∷ value ∷ []) value next (state_of self.old) }
    {
        let whole = self.t.len() / ROW_WIDTH;
        if self.rows < whole {
            let i = ROW_WIDTH * self.rows;
            let t = &mut *self.t;
            t[i] = sort;
            t[i + 1] = offset;
            t[i + 2] = value;
        }
        self.at = next;
        self.rows = self.rows.min(whole) + 1;
        self.value = value;
    }

    // A byte, as a leaf of a sort.
    fn byte(&mut self, sort: u32)
        ensures lent { lent_of self.new ≡ lent_of self.old }
        ensures state { state_of self.new ≡ guarded self.old.s.now (put_number sort (byte_at self.old.s.now self.old.at) (state_of self.old)) (state_of self.old) }
    {
        if self.left(1) {
            let at = self.at;
            let b = raw_bytes::wide(self.s[at]);
            self.store(sort, at as u32, b, at + 1);
        }
    }

    // Four bytes, as a leaf of a sort.
    fn four(&mut self, sort: u32)
        ensures lent { lent_of self.new ≡ lent_of self.old }
        ensures state { state_of self.new ≡ guarded self.old.s.now (put_number sort (four_at self.old.s.now self.old.at) (state_of self.old)) (state_of self.old) }
    {
        if self.left(4) {
            let at = self.at;
            let n = raw_bytes::number_at(self.s, at);
            self.store(sort, at as u32, n, at + 4);
        }
    }

    // The end of a payload: 12, if bytes remain.
    pub fn finish(&mut self, end: usize)
        ensures lent { lent_of self.new ≡ lent_of self.old }
        ensures state { state_of self.new ≡ read_state (finished_at end (cursor_of self.old)) self.old.t.now }
    {
        if self.at < end {
            self.refused(RefusalKind::TrailingBytes as u32, self.at);
        }
    }

    // The answer at the end of a reading: its refusal; 13, if the table has too few rows; or the numbers of entities and rows.
    // The table then has the rows, and only 0 after them; after a refusal it is all 0. The reader stands where it stood.
    pub fn answer(&mut self, entities: usize) -> Result<Counts, Refusal>
        ensures lent { lent_of self.new ≡ lent_of self.old }
        ensures cursor { cursor_of self.new ≡ cursor_of self.old }
        ensures answer { result_of result self.new.t.now ≡ answered entities (state_of self.old) }
    {
        if self.refusal != 0 {
            return table::refuse(self.t, self.refusal, self.at);
        }
        let rows = self.rows;
        if self.t.len() / ROW_WIDTH < rows {
            return table::refuse(self.t, RefusalKind::TableTooSmall as u32, 0);
        }
        table::clear_from(self.t, ROW_WIDTH * rows);
        Ok(Counts { entities, rows })
    }

    // The answer at the end of a value that is read alone, from all the bytes given: also 1 and 12.
    pub fn answer_alone(&mut self, entities: usize) -> Result<Counts, Refusal>
        ensures lent { lent_of self.new ≡ lent_of self.old }
        ensures cursor { cursor_of self.new ≡ cursor_of self.old }
        ensures answer { result_of result self.new.t.now ≡ answered_alone entities self.old.s.now (state_of self.old) }
    {
        if LIMIT < self.s.len() {
            return table::refuse(self.t, RefusalKind::InputTooLong as u32, 0);
        }
        let cursor = self.cursor();
        self.finish(self.s.len());
        let answer = self.answer(entities);
        self.resume(cursor);
        answer
    }
}

impl<'a> Pass for Reader<'a> {
    ghost meaning = { reader_meaning };

    fn kind(&mut self) -> u32 {
        self.byte(layout::SORT_KIND);
        self.value
    }

    fn u8(&mut self) -> u32 {
        self.byte(layout::SORT_TAG);
        self.value
    }

    fn bool(&mut self) -> bool {
        if self.left(1) {
            let at = self.at;
            let b = raw_bytes::wide(self.s[at]);
            if 2 <= b {
                self.stop(RefusalKind::BadFlag as u32, at);
            } else {
                self.store(layout::SORT_FLAG, at as u32, b, at + 1);
            }
        }
        0 < self.value
    }

    fn u32(&mut self) {
        self.four(layout::SORT_NUMBER);
    }

    fn count(&mut self) -> u32 {
        self.four(layout::SORT_COUNT);
        self.value
    }

    // Its length, then that many bytes.
    fn str(&mut self) {
        if !self.left(4) {
            return;
        }
        let at = self.at;
        let len = raw_bytes::number_at(self.s, at);
        let start = at + 4;
        let size = len as usize;
        if self.s.len() - start < size {
            return self.stop(RefusalKind::Truncated as u32, start);
        }
        let end = start + size;
        if text::is_utf8(&self.s[start..end]) {
            return self.store(layout::SORT_TEXT, start as u32, len, end);
        }
        self.stop(RefusalKind::NotUtf8 as u32, start);
    }

    fn place(&self) -> usize {
        self.at
    }

    fn seen(&self, begin: usize, index: usize) -> u32 {
        if self.s.len() <= begin || self.s.len() - begin <= index {
            return 0;
        }
        raw_bytes::wide(self.s[begin + index])
    }

    fn refuse(&mut self, kind: RefusalKind, begin: usize) {
        self.refused(kind.number(), begin);
    }

    fn is_refused(&self) -> bool {
        self.refusal != 0
    }

    ghost stays = { record { over = λ x L st h. run_refused L x.0 st h; halted = λ x f begin st h. halt_refused (refusal_of f) begin.cursor.at st h } };

    ghost judges = { λ x st h. reader_judges x.0 st h };
}
