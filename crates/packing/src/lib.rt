// How an answer is packed into four numbers: a refusal's number and place, or 0 and 0; then what is answered, or 0 and 0.
#![tactic(auto)]

ghost use Rattle.std.specs.Prelude.{◌≡◌, [], ◌∷◌, MatchResult, MatchOption};
ghost use Rattle.text.specs.Kept.{text_answer};
ghost use Rattle.table.specs.Answers.{answer_of};
ghost use Rattle.directory.specs.Holder.{holder_of};
ghost use Rattle.place.specs.Place.{found_part};
ghost use Rattle.parts.specs.Names.{start_of};
ghost use Rattle.sql_text.specs.SqlText.{sql_answer_of};
ghost use Rattle.length.specs.Length.{length_of};
ghost use Rattle.paths.specs.Paths.{report_of};
ghost use Rattle.packing.specs.Numbers.{refusal_numbers, answer_numbers, holder_numbers, part_numbers, place_numbers, in_buffer, length_numbers, report_numbers, pairs_in, start_numbers, text_numbers};

use place::Part;
use sql_text::SqlPlace;
use table::{Counts, Refusal};

// What a reading answers, as numbers.
pub fn answer_numbers(answer: Result<Counts, Refusal>) -> [u64; 4]
    ensures { result ≡ answer_numbers (answer_of answer) }
{
    told(answer.map(|counts| (counts.entities as u64, counts.rows as u64)))
}

// Two numbers that are answered, or the refusal.
fn told(answer: Result<(u64, u64), Refusal>) -> [u64; 4]
    ensures { MatchResult answer (λ pair. result ≡ 0 ∷ 0 ∷ pair.0 ∷ pair.1 ∷ []) (λ refusal. result ≡ refusal_numbers refusal.number refusal.place) }
{
    match answer {
        Ok((first, second)) => [0, 0, first, second],
        Err(refusal) => refusal_numbers(refusal),
    }
}

// A refusal, as an answer.
pub fn refusal_numbers(refusal: Refusal) -> [u64; 4]
    ensures { result ≡ refusal_numbers refusal.number refusal.place }
{
    [refusal.number as u64, refusal.place as u64, 0, 0]
}

// What holds a byte, as an answer.
pub fn holder_numbers(holder: Result<Option<usize>, Refusal>) -> [u64; 4]
    ensures { result ≡ holder_numbers (holder_of holder) }
{
    told(holder.map(found))
}

// Whether a number is answered, and which.
fn found(number: Option<usize>) -> (u64, u64)
    ensures { MatchOption number (result ≡ (0, 0)) (λ k. result ≡ (1, k)) }
{
    match number {
        Some(number) => (1, number as u64),
        None => (0, 0),
    }
}

// A part of the bytes, as an answer.
pub fn part_numbers(place: Result<Part, Refusal>) -> [u64; 4]
    ensures { result ≡ part_numbers (found_part place) }
{
    told(place.map(start_and_len))
}

// Where a part starts, and its length.
fn start_and_len(part: Part) -> (u64, u64)
    ensures { result ≡ (part.start, part.len) }
{
    (part.start as u64, part.len as u64)
}

// Where an SQL text stands, as an answer.
pub fn place_numbers(place: Result<SqlPlace, Refusal>) -> [u64; 4]
    ensures { result ≡ place_numbers (sql_answer_of place) }
{
    told(place.map(|place| match place {
        SqlPlace::Section(part) => start_and_len(part),
        SqlPlace::Buffer { len } => (0, len as u64),
    }))
}

// Whether it stands in the buffer: 1 or 0.
pub fn in_buffer(place: Result<SqlPlace, Refusal>) -> u32
    ensures { result ≡ in_buffer (sql_answer_of place) }
{
    u32::from(matches!(place, Ok(SqlPlace::Buffer { .. })))
}

// A length, as an answer.
pub fn length_numbers(length: Result<usize, Refusal>) -> [u64; 4]
    ensures { result ≡ length_numbers (length_of length) }
{
    told(length.map(|count| (count as u64, 0)))
}

// A path report, as numbers.
pub fn report_numbers(report: Result<u64, Refusal>) -> [u64; 4]
    ensures { result ≡ report_numbers (report_of report) }
{
    told(report.map(|_| (0, 0)))
}

// The pairs of a path report, 0 after a refusal.
pub fn pairs_in(report: Result<u64, Refusal>) -> u64
    ensures { result ≡ pairs_in (report_of report) }
{
    report.unwrap_or(0)
}

// Where an SQL name starts, as an answer.
pub fn start_numbers(start: Option<usize>) -> [u64; 4]
    ensures { result ≡ start_numbers (start_of start) }
{
    told(Ok(found(start)))
}

// What the text check tells, as an answer.
pub fn text_numbers(checked: Option<usize>) -> [u64; 4]
    ensures { result ≡ text_numbers (text_answer checked) }
{
    told(Ok(found(checked)))
}
