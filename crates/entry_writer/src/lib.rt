// The first pass over the rows of a writing: a writer that takes a kind, a tag, a flag, a number, a count or a text from the next
// row and adds up the length.
#![tactic(auto)]

ghost use Rattle.std.specs.Prelude.{◌≡◌, ◌+◌, ◌^◌, ◌<◌, leb, length};
ghost use Rattle.length.specs.Length.{length_of};
ghost use Rattle.writing.specs.Rows.{is_row};
ghost use Rattle.writing.specs.Writing.{fitting};
ghost use Rattle.writing.specs.State.{new_writer, stopped_once, grown, past, length_taken, spoiled, unless_refused};
ghost use Rattle.writing.specs.Run.{closing};
ghost use Rattle.writing.proofs.Still.{run_refused, halt_refused};
ghost use Rattle.writing.proofs.Result.{writer_judges};
ghost use Rattle.entry_writer.specs.EntryWriter.{state_of, lent_of, writer_meaning};
ghost use Rattle.entry_writer.specs.Private.{number_from, take_number};

use layout::{LIMIT, ROW_WIDTH};
use pass::Pass;
use table::{Refusal, RefusalKind};

// The state of a writing: the rows and the text bytes that it is lent; `row`, the next row; `pos`, the length so far, which stops
// just above the limit; `value`, the value of the row before; `refusal`, 0 or 14; `bad`, 1 if a text row was bad, else 0. A refused
// writer takes no more rows.
#[derive(Clone, Copy)]
pub struct EntryWriter<'a> {
    pub rows: &'a [u32],
    pub text: &'a [u8],
    pub row: usize,
    pub pos: usize,
    pub value: u32,
    pub refusal: u32,
    pub bad: usize,
}

impl<'a> EntryWriter<'a> {
    // A writer at the first row.
    pub fn new(rows: &'a [u32], text: &'a [u8]) -> EntryWriter<'a>
        ensures lent { lent_of result ≡ (rows.now, text.now) }
        ensures state { state_of result ≡ new_writer }
    {
        EntryWriter {
            rows,
            text,
            row: 0,
            pos: 0,
            value: 0,
            refusal: 0,
            bad: 0,
        }
    }

    // The same writer, field by field.
    pub fn copy(self) -> EntryWriter<'a>
        ensures { result ≡ self.entry }
    {
        EntryWriter {
            rows: self.rows,
            text: self.text,
            row: self.row,
            pos: self.pos,
            value: self.value,
            refusal: self.refusal,
            bad: self.bad,
        }
    }

    // The writer is refused, unless it is refused already.
    pub fn stop(&mut self)
        ensures lent { lent_of self.new ≡ lent_of self.old }
        ensures state { state_of self.new ≡ stopped_once (state_of self.old) }
    {
        if self.refusal == 0 {
            self.refusal = RefusalKind::BadRows as u32;
        }
    }

    // A row was taken; its value takes `size` bytes.
    fn past(&mut self, value: u32, size: usize)
        requires { self.old.row + 1 < 2 ^ 64 }
        ensures lent { lent_of self.new ≡ lent_of self.old }
        ensures state { state_of self.new ≡ past value size (state_of self.old) }
    {
        self.row += 1;
        self.pos = grown(self.pos, size);
        self.value = value;
    }

    // A bad text was taken.
    fn spoiled(&mut self)
        requires { self.old.row + 1 < 2 ^ 64 }
        ensures lent { lent_of self.new ≡ lent_of self.old }
        ensures state { state_of self.new ≡ spoiled (state_of self.old) }
    {
        self.row += 1;
        self.bad = 1;
    }

    // A row of a given sort with a value below a bound, which takes `size` bytes.
    fn number(&mut self, sort: u32, bound: usize, size: usize)
        ensures lent { lent_of self.new ≡ lent_of self.old }
        ensures state { state_of self.new ≡ unless_refused (take_number size (number_from self.old.rows.now sort bound self.old.row) (state_of self.old)) (state_of self.old) }
    {
        if self.refusal != 0 {
            return;
        }
        if !is_row(self.rows, self.row, sort) {
            return self.stop();
        }
        let row = table::row_at(self.rows, self.row);
        if bound <= row.value as usize {
            return self.stop();
        }
        self.past(row.value, size);
    }

    // The length of an entry: four bytes before its payload, which no row gives.
    pub fn entry_length(&mut self)
        ensures lent { lent_of self.new ≡ lent_of self.old }
        ensures state { state_of self.new ≡ length_taken (state_of self.old) }
    {
        self.pos = grown(self.pos, 4);
    }

    // The answer at the end: 14 unless all rows were taken; 15; 16; or the length.
    pub fn finish(&self) -> Result<usize, Refusal>
        ensures { length_of result ≡ closing (lent_of self.now).0 (state_of self.now) }
    {
        let numbers_left = self.rows.len() % ROW_WIDTH != 0;
        let rows_left = self.row != self.rows.len() / ROW_WIDTH;
        if self.refusal != 0 || numbers_left || rows_left {
            return Err(Refusal::at(RefusalKind::BadRows, 0));
        }
        if self.bad != 0 {
            return Err(Refusal::at(RefusalKind::BadTextRow, 0));
        }
        if LIMIT < self.pos {
            return Err(Refusal::at(RefusalKind::OutputTooLong, 0));
        }
        Ok(self.pos)
    }
}

impl<'a> Pass for EntryWriter<'a> {
    ghost meaning = { writer_meaning };

    fn kind(&mut self) -> u32 {
        self.number(layout::SORT_KIND, 256, 1);
        self.value
    }

    fn u8(&mut self) -> u32 {
        self.number(layout::SORT_TAG, 256, 1);
        self.value
    }

    fn bool(&mut self) -> bool {
        self.number(layout::SORT_FLAG, 2, 1);
        0 < self.value
    }

    fn u32(&mut self) {
        self.number(layout::SORT_NUMBER, 4294967296, 4);
    }

    fn count(&mut self) -> u32 {
        self.number(layout::SORT_COUNT, 4294967296, 4);
        self.value
    }

    // Its length, then its bytes.
    fn str(&mut self) {
        if self.refusal != 0 {
            return;
        }
        if !is_row(self.rows, self.row, layout::SORT_TEXT) {
            return self.stop();
        }
        let row = table::row_at(self.rows, self.row);
        let start = row.offset as usize;
        let size = row.value as usize;
        if !stays(self.text, start, size) {
            return self.spoiled();
        }
        if !text::is_utf8(&self.text[start..start + size]) {
            return self.spoiled();
        }
        self.past(row.value, 4 + size);
    }

    fn place(&self) -> usize {
        self.row
    }

    fn seen(&self, begin: usize, index: usize) -> u32 {
        table::row_at(self.rows, begin.saturating_add(index)).value
    }

    // With 14, whatever it is refused for.
    fn refuse(&mut self, kind: RefusalKind, begin: usize) {
        self.stop();
    }

    fn is_refused(&self) -> bool {
        self.refusal != 0
    }

    ghost stays = { record { over = λ x L st h. run_refused L x.0 x.1 st h; halted = λ x f begin st h. halt_refused st h } };

    ghost judges = { λ x st h. writer_judges x.0 x.1 st h };
}

// A length, or 17 if it is above the size of the destination.
pub fn fitting(length: Result<usize, Refusal>, size: usize) -> Result<usize, Refusal>
    ensures { length_of result ≡ fitting (length_of length) size }
{
    let count = length?;
    if size < count {
        return Err(Refusal::at(RefusalKind::BadBufferSize, 0));
    }
    Ok(count)
}

// A length increased by the bytes of a row; it stops just above the limit.
fn grown(pos: usize, size: usize) -> usize
    ensures { result ≡ grown pos size }
{
    pos.saturating_add(size).min(LIMIT + 1)
}

// Whether there is a row at an index, and it has a given sort.
fn is_row(rows: &[u32], i: usize, sort: u32) -> bool
    ensures { result ≡ is_row rows.now i sort }
{
    i < rows.len() / ROW_WIDTH && table::row_at(rows, i).sort == sort
}

// Whether a text is within the lent bytes.
pub fn stays(text: &[u8], start: usize, size: usize) -> bool
    ensures { result ≡ leb (start + size) (length text.now) }
{
    if text.len() < start {
        return false;
    }
    size <= text.len() - start
}
