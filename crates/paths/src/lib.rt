// The path report: how many pairs of entities repeat a path.
#![tactic(auto)]

ghost use Rattle.std.specs.Prelude.{[], ◌∷◌, ◌≡◌, ◌+◌, ◌*◌, ◌<◌, MatchOption};
ghost use Rattle.runs.specs.Runs.{kind_and_text};
ghost use Rattle.section.specs.Rest.{Rest};
ghost use Rattle.paths.specs.Paths.{report, report_of};
ghost use Rattle.paths.specs.Repeats.{ExactReport};
ghost use Rattle.paths.specs.Private.{T, N, after_fields, path_place, path_at, far, longest, PayloadIn, Counts, Equals, Gathered, NoneLeft, First};

use runs::Mark;
use table::{Refusal, RefusalKind};

// The number of unordered pairs of entities that repeat a path, or the section's refusal of 1 to 12. Two entities repeat a path if
// they are of one kind and their full_path bytes agree. The answer does not depend on `work`, and what `work` holds afterwards is
// free. The section is read through a table without rows, so that 13 only says that it is derived and has leaves.
pub fn path_repeats(section: &[u8], work: &mut [u32]) -> Result<u64, Refusal>
    ensures result_value { report_of result ≡ report section.now }
    ensures exact_report { ExactReport section.now (report_of result) }
{
    match section::decode_entities(section, &mut []) {
        Err(refusal) if refusal.number != RefusalKind::TableTooSmall as u32 => Err(refusal),
        _ => Ok(count_pairs(section, work)),
    }
}

// The pairs of a derived section: by sorting, if `work` has room for the mark of each full_path; else one by one.
fn count_pairs(s: &[u8], work: &mut [u32]) -> u64
    requires { Rest s.now 0 }
    ensures { Counts s.now 0 result }
{
    let found = find_paths(s, work);
    match work.get_mut(..found) {
        Some(marks) => runs::equal_pairs(s, marks),
        None => count_one_by_one(s),
    }
}

// How many entities of a derived section have a full_path. The mark of each is stored in `work`, as far as there is room.
fn find_paths(s: &[u8], work: &mut [u32]) -> usize
    requires { Rest s.now 0 }
    ensures { Gathered s.now work.new result }
{
    let mut marks = Marks { s, at: 0 };
    let mut found: usize = 0;
    while let Some(mark) = marks.next() {
        if found < work.len() {
            work[found] = u32::from(mark);
        }
        found += 1;
    }
    found
}

// The pairs of a derived section, one by one: each full_path with those after it.
fn count_one_by_one(s: &[u8]) -> u64
    requires { Rest s.now 0 }
    ensures { Counts s.now 0 result }
{
    let mut marks = Marks { s, at: 0 };
    let mut count: u64 = 0;
    while let Some(mark) = marks.next() {
        count += equals(mark, marks);
    }
    count
}

// How many of some marks have the kind and the text of one.
fn equals(mark: Mark, mut marks: Marks) -> u64
    requires { Rest marks.s.now marks.at }
    ensures { Equals marks.entry.s.now mark marks.entry.at result }
{
    let mut count: u64 = 0;
    while let Some(other) = marks.next() {
        count += u64::from(runs::repeats(marks.s, mark, other));
    }
    count
}

// The marks of the full_path texts of a derived section, from the boundary `at` on.
#[derive(Clone, Copy)]
struct Marks<'a> {
    s: &'a [u8],
    at: usize,
}

impl<'a> Marks<'a> {
    // The next mark, if one is left.
    fn next(&mut self) -> Option<Mark>
        requires { Rest self.old.s.now self.old.at }
        ensures same_section { self.new.s ≡ self.old.s }
        ensures first { MatchOption result (NoneLeft self.old.s.now self.old.at) (λ mark. First self.old.s.now self.old.at (kind_and_text self.old.s.now mark ∷ []) self.new.at) }
    {
        while let Some(payload) = self.next_payload() {
            if let Some(mark) = path_mark(self.s, payload) {
                return Some(mark);
            }
        }
        None
    }

    // Where the next payload begins, if there is one.
    fn next_payload(&mut self) -> Option<usize>
        requires { Rest self.old.s.now self.old.at }
        ensures same_section { self.new.s ≡ self.old.s }
        ensures first { MatchOption result (NoneLeft self.old.s.now self.old.at) (λ payload. PayloadIn self.old.s.now payload × First self.old.s.now self.old.at (path_at self.old.s.now payload) self.new.at) }
    {
        let size = raw_bytes::number_at(self.s, self.at) as usize;
        if size == 0 {
            return None;
        }
        let payload = self.at + 4;
        self.at = payload + size;
        Some(payload)
    }
}

// The mark of a payload's kind and full_path, if it has one.
fn path_mark(s: &[u8], payload: usize) -> Option<Mark>
    requires { PayloadIn s.now payload }
    ensures { MatchOption result (path_at s.now payload ≡ []) (λ mark. path_at s.now payload ≡ kind_and_text s.now mark ∷ []) }
{
    Mark::new(s[payload], full_path(s, payload)?)
}

// Where the length of a payload's full_path stands: a schema and the sentinel, which begins with 0, have none.
fn full_path(s: &[u8], payload: usize) -> Option<usize>
    requires { PayloadIn s.now payload }
    ensures { result ≡ path_place s.now payload }
{
    let at = payload + 1;
    match u32::from(s[payload]) {
        layout::ENTITY_CUSTOM_SQL => Some(after_two_texts(s, at)),
        layout::ENTITY_FUNCTION => Some(after_text(s, after_two_texts(s, at))),
        layout::ENTITY_TYPE | layout::ENTITY_ENUM => Some(after_text(
            s,
            after_name_file_line(s, at),
        )),
        layout::ENTITY_ORD | layout::ENTITY_HASH => Some(after_name_file_line(s, at)),
        layout::ENTITY_AGGREGATE => Some(at),
        layout::ENTITY_TRIGGER => Some(after_text(s, after_name_file_line(s, at))),
        _ => None,
    }
}

// Where a text ends that begins at a place with its length.
fn after_text(s: &[u8], at: usize) -> usize
    requires { at < far }
    ensures { (result ≡ after_fields s.now (T ∷ []) at) × (result < at + longest) }
{
    at + 4 + raw_bytes::number_at(s, at) as usize
}

// Where two texts end.
fn after_two_texts(s: &[u8], at: usize) -> usize
    requires { at + longest < far }
    ensures { (result ≡ after_fields s.now (T ∷ T ∷ []) at) × (result < at + 2 * longest) }
{
    after_text(s, after_text(s, at))
}

// Where name or function_name, file and line end.
fn after_name_file_line(s: &[u8], at: usize) -> usize
    requires { at + 2 * longest < far }
    ensures { (result ≡ after_fields s.now (T ∷ T ∷ N ∷ []) at) × (result < at + 3 * longest) }
{
    after_two_texts(s, at) + 4
}
