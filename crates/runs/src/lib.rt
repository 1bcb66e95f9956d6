// Pairs of equal texts of one kind: the marks of the texts are sorted, and runs of equal ones are counted.
#![tactic(auto)]

ghost use Rattle.std.specs.Prelude.{ℕ, ◌≡◌, ◌+◌, ◌*◌, ◌/◌, ◌%◌, ◌≤◌, length, IfSome, MatchOption};
ghost use Rattle.std.specs.List.{count_by};
ghost use Rattle.layout.specs.Answers.{limit};
ghost use Rattle.raw_bytes.specs.Bytes.{same};
ghost use Rattle.runs.specs.Runs.{text_from, kind_and_text, kinds_and_texts, pairs, equal_pairs};
ghost use Rattle.runs.specs.Private.{kind_order};

use std::cmp::Ordering;
use std::marker::Model;

// How many kinds there can be.
pub const KINDS: u32 = 256;

// The kind of a text and the place where its length stands, in one number: KINDS times the place, plus the kind.
#[derive(Clone, Copy, Debug, PartialEq, Eq)]
pub struct Mark {
    number: u32,
}

impl Model for Mark {
    ghost Value = { ℕ };

    ghost view = { λ m. m.number };

    ghost inverse = { λ n. record { number = n } };
}

impl From<u32> for Mark {
    ghost from_gives = { λ n m. m ≡ n };

    fn from(number: u32) -> Mark {
        Mark { number }
    }
}

impl From<Mark> for u32 {
    ghost from_gives = { λ m n. n ≡ m };

    fn from(mark: Mark) -> u32 {
        mark.number
    }
}

impl Mark {
    // The mark of a kind and a place, if they fit into its number.
    pub fn new(kind: u8, place: usize) -> Option<Mark>
        ensures { MatchOption result (limit ≤ place) (λ m. m ≡ 256 * place + kind) }
    {
        if layout::LIMIT <= place {
            return None;
        }
        Some(Mark {
            number: KINDS * place as u32 + u32::from(kind),
        })
    }

    pub fn kind(self) -> u8
        ensures { result ≡ self % 256 }
    {
        (self.number % KINDS) as u8
    }

    pub fn place(self) -> usize
        ensures { result ≡ self / 256 }
    {
        (self.number / KINDS) as usize
    }
}

// The number of pairs of marks with one kind and the same text; 0 if there are more than `layout::LIMIT` marks. In which order the
// marks are left is free.
pub fn equal_pairs(s: &[u8], marks: &mut [u32]) -> u64
    ensures { result ≡ equal_pairs s.now marks.old }
{
    if layout::LIMIT < marks.len() {
        return 0;
    }
    marks.sort_unstable_by(|a, b| compare(s, Mark::from(*a), Mark::from(*b)));
    count_runs(s, marks).unwrap_or_else(|| count_one_by_one(s, marks))
}

// Whether two marks have one kind and the same text.
pub fn repeats(s: &[u8], a: Mark, b: Mark) -> bool
    ensures { result ≡ same (kind_and_text s.now a) (kind_and_text s.now b) }
{
    a.kind() == b.kind() && raw_bytes::same(text_of(s, a), text_of(s, b))
}

// The number of pairs, if the marks stand in order, as they do after the sorting. From the last mark to the first: one that equals
// the next makes a pair with each of the next one's run.
fn count_runs(s: &[u8], marks: &[u32]) -> Option<u64>
    requires { length marks.now ≤ limit }
    ensures { IfSome result (λ n. n ≡ pairs (kinds_and_texts s.now marks.now)) }
{
    let mut run: u64 = 1;
    let mut pairs: u64 = 0;
    for i in (1..marks.len()).rev() {
        match compare(s, Mark::from(marks[i - 1]), Mark::from(marks[i])) {
            Ordering::Less => run = 1,
            Ordering::Equal => {
                pairs += run;
                run += 1;
            }
            Ordering::Greater => return None,
        }
    }
    Some(pairs)
}

// Each mark makes a pair with every equal one after it.
fn count_one_by_one(s: &[u8], marks: &[u32]) -> u64
    requires { length marks.now ≤ limit }
    ensures { result ≡ pairs (kinds_and_texts s.now marks.now) }
{
    let mut count: u64 = 0;
    for (i, mark) in marks.iter().enumerate() {
        count += equals(s, Mark::from(*mark), &marks[i + 1..]);
    }
    count
}

// How many marks have the kind and the text of one.
fn equals(s: &[u8], mark: Mark, marks: &[u32]) -> u64
    ensures { result ≡ count_by (λ other. same (kind_and_text s.now mark) (kind_and_text s.now other)) marks.now }
{
    marks
        .iter()
        .filter(|other| repeats(s, mark, Mark::from(**other)))
        .count() as u64
}

// The order of two marks: by their kinds, then by the lengths of their texts, and then by the bytes.
#[tactic(auto, unfolding(crate::specs::Private::kind_order))]
fn compare(s: &[u8], a: Mark, b: Mark) -> Ordering
    ensures { result ≡ kind_order (kind_and_text s.now a) (kind_and_text s.now b) }
{
    a.kind().cmp(&b.kind()).then_with(|| {
        let (x, y) = (text_of(s, a), text_of(s, b));
        x.len().cmp(&y.len()).then_with(|| x.cmp(&y))
    })
}

// The text of a mark, as far as there are bytes.
#[tactic(auto, using(std::proofs::lemmas::List::take_min), unfolding(crate::specs::Runs::text_from))]
fn text_of(s: &[u8], mark: Mark) -> &[u8]
    ensures { result.now ≡ text_from s.now (mark / 256) }
{
    let at = mark.place();
    let size = raw_bytes::number_at(s, at) as usize;
    let rest = s.get(at + 4..).unwrap_or(&[]);
    &rest[..size.min(rest.len())]
}
