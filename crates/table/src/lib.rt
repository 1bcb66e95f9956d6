// The lent table: its rows, clearing it, and the answers that come with it.
#![tactic(auto)]

ghost use Rattle.std.specs.Prelude.{◌≡◌, Some};
ghost use Rattle.layout.specs.Answers.{refusal};
ghost use Rattle.table.specs.Table.{row_of, cleared};
ghost use Rattle.table.specs.Answers.{number_of, refusal_text, result_of};

use layout::ROW_WIDTH;
use std::error::Error;
use std::fmt;

// A row: the sort of its leaf, an offset and a value.
#[derive(Clone, Copy, Debug, Default, PartialEq, Eq)]
pub struct Row {
    pub sort: u32,
    pub offset: u32,
    pub value: u32,
}

// What is refused, by the number in docs/FORMAT.md, Refusals.
#[derive(Clone, Copy, Debug, PartialEq, Eq)]
pub enum RefusalKind {
    InputTooLong = 1,
    PartialLength = 2,
    ZeroLength = 3,
    EntryTooLong = 4,
    Truncated = 5,
    BadFlag = 6,
    NotUtf8 = 7,
    UnknownKind = 8,
    UnknownTag = 9,
    NoSqlText = 10,
    DeclaredError = 11,
    TrailingBytes = 12,
    TableTooSmall = 13,
    BadRows = 14,
    BadTextRow = 15,
    OutputTooLong = 16,
    BadBufferSize = 17,
    NotElf64 = 18,
    BadSectionHeaders = 19,
    NoSuchSection = 20,
    ListTooSmall = 21,
}

impl RefusalKind {
    // The number of a refusal.
    pub fn number(self) -> u32
        ensures { result ≡ number_of self }
    {
        self as u32
    }
}

// A refusal: its number and place.
#[derive(Clone, Copy, Debug, PartialEq, Eq)]
pub struct Refusal {
    pub number: u32,
    pub place: usize,
}

impl Refusal {
    // A refusal at a place.
    pub fn at(kind: RefusalKind, place: usize) -> Refusal
        ensures { result ≡ record { number = number_of kind; place = place } }
    {
        Refusal {
            number: kind.number(),
            place,
        }
    }
}

impl fmt::Display for Refusal {
    ghost output = { λ r. Some (refusal_text r) };

    fn fmt<W: fmt::Write>(&self, f: &mut fmt::Formatter<W>) -> fmt::Result {
        write!(f, "refusal {} at {}", self.number, self.place)
    }
}

impl Error for Refusal {}

// What an accepted reading counts: its entities and rows.
#[derive(Clone, Copy, Debug, PartialEq, Eq)]
pub struct Counts {
    pub entities: usize,
    pub rows: usize,
}

// The row at an index; three times 0 if the table has no such row.
pub fn row_at(table: &[u32], index: usize) -> Row
    ensures { result ≡ row_of table.now index }
{
    if table.len() / ROW_WIDTH <= index {
        return Row::default();
    }
    let start = ROW_WIDTH * index;
    Row {
        sort: table[start],
        offset: table[start + 1],
        value: table[start + 2],
    }
}

// Sets the table to 0 from an index on.
pub fn clear_from(table: &mut [u32], from: usize)
    ensures { table.new ≡ cleared table.old from }
{
    if from < table.len() {
        table[from..].fill(0);
    }
}

// A refusal: the table is set to 0.
pub fn refuse(table: &mut [u32], number: u32, place: usize) -> Result<Counts, Refusal>
    ensures { result_of result table.new ≡ refusal number place table.old }
{
    clear_from(table, 0);
    Err(Refusal { number, place })
}
