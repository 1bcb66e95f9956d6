// Runs cases of standard input and prints those that are answered otherwise than they say.
//
// Before each case stand its length, in five digits, and a blank. A case is a letter, its numbers, joined by commas, its bytes
// in hexadecimal, and the right answer, with a blank between each two. For no bytes stands -, for those of the case before =.
//
// - S is the reading of a section; P, M and G are those of one payload, one metadata record and one mapping alone. The number is
//   that of the table's rows. The answer is 0, 0, the numbers of entities and rows, and the rows; or a refusal's number and place.
// - f is the reading of the section .pgrxsc of a shared object, as S.
// - F is the section of a shared object with a name. The numbers are how many bytes the name has, and these. The answer is 0, 0, the
//   section's start and length, or a refusal's number and place; then number and place, and the part, of the call that returns it.
// - T is the text of a row, K its kept name, and N the SQL name from it. The numbers are the row. The answer is number, place and
//   the part.
// - Q is the SQL text of a mapping. The numbers are its offset and the buffer's size. The answer is number, place and the part,
//   then the buffer, and number and place of the call that filled it.
// - O is a section as objects. Its number is 0. The answer is `accept`, the number of entities, and the objects' fields one after
//   the other: a text as its bytes, any other field as a number of four bytes. Or it is `refuse`.
// - R is the path report. The number is that of the numbers lent as work. The answer is 0, 0 and how many pairs there are; or a
//   refusal's number and place.
// - H is what holds a byte of a section. The numbers are the position's: how many it is past a multiple of 4294967296, and which
//   multiple that is. The answer is 0, 0, 1 and the index of the entity; or four times 0, if there is none; or a refusal's number
//   and place.
// - W is the writing of a metadata record, and w that of one mapping. The numbers are the destination's size, how many numbers
//   the table has, and these; the bytes are the lent text. The answer is 0, 0 and the length, or a refusal's number and place;
//   then the whole destination.
// - V is the measuring of a metadata record, and v that of one mapping. They stand as W and w, with a destination of 0 bytes.
// - E and Y are the writing and the measuring of one entity as a payload, e and y those of entities as a section. They stand as W
//   and V.
// - U is the text check. Its number is 0. The answer is `yes` or `no`, whether the bytes are UTF-8; or `parts`, if some walk over
//   them in two parts tells otherwise.
// - C is the text check with its boundary. Its number is 0. The answer is `kept` and how many bytes of such a name the server keeps;
//   or `no`, if the bytes are not UTF-8.
// - X is the walk over a declared name. Its number is 0. The answer is `start` and where the SQL name starts; or `no`, if the bytes
//   are not UTF-8; or `parts`, if some walk over them in two parts, or byte by byte, tells otherwise.
//
// A case that differs is printed, and below it what was answered. At the end stand how many cases were run and how many differ,
// and the tally of the sections accepted and refused.
#![tactic(auto)]

ghost use Rattle.std.specs.Prelude.{◌≤◌, ◌<◌, length, IfSome};

use fixed_text::FixedText;
use layout::ROW_WIDTH;
use parts::NameWalk;
use std::io;
use std::io::Read;
use streams::read_full;
use table::{Counts, Refusal, Row};
use tally::{Tallied, Tally};
use text::State;

// More cases than a run takes.
const TOO_MANY: usize = 1000000;

// The most rows that a case may ask for, and the numbers of a table that has them and nearly one row more.
const MOST_ROWS: usize = 5461;

const MOST_NUMBERS: usize = MOST_ROWS * ROW_WIDTH + ROW_WIDTH - 1;

// The most numbers of a case: two, and those of a table.
const CASE_NUMBERS: usize = MOST_NUMBERS + 2;

// How many numbers there are of four bytes.
const NUMBERS: u64 = 4294967296;

// What each number that is lent is before the call.
const FILL: u32 = 4294967295;

// The most bytes of a buffer that is lent to be filled, and what each is before the call.
const MOST_BUFFER: usize = 1024;

const FILL_BYTE: u8 = 0xee;

// The space for a case, for its bytes, and for the text of its answer.
const OUT_SIZE: usize = 65536;

// The hexadecimal digits.
const HEX_DIGITS: [u8; 16] = *b"0123456789abcdef";

// The digits of the length before a case.
const LENGTH_DIGITS: usize = 5;

// The largest number of a case.
const LARGEST: u64 = 4294967295;

// The text of an answer. One that is too long is cut where the space ends, and is longer than any case then.
type Out = FixedText<OUT_SIZE>;

// What stands where the next case should.
#[derive(Clone, Copy, PartialEq, Eq)]
enum Next {
    Case { len: usize },
    End,
    Bad,
}

fn main(rt: HostRuntime) -> io::Result<()> {
    let mut line = [0; OUT_SIZE];
    let mut space = [0; OUT_SIZE];
    let tallies = run_all(&rt, &mut rt.stdin(), &mut line, &mut space)?;
    tallies.print(&rt)
}

// Reads one case after the other into line and runs it, with its bytes in space.
fn run_all(
    rt: &impl Print,
    input: &mut impl Read,
    line: &mut [u8],
    space: &mut [u8],
) -> io::Result<Tallies> {
    let mut tallies = Tallies::new();
    for number in 0..TOO_MANY {
        match read_case(input, line)? {
            Next::Case { len } if len <= line.len() => {
                tallies = run(rt, &line[..len], number, space, tallies)?;
            }
            Next::End => return Ok(tallies),
            _ => return bad_input(rt, tallies),
        }
    }
    bad_input(rt, tallies)
}

// What cannot be read as a case is a difference, and ends the run.
fn bad_input(rt: &impl Print, tallies: Tallies) -> io::Result<Tallies> {
    println!(rt; "bad input")?;
    Ok(tallies.differed())
}

// How many cases were run, how many differ, how many bytes the last one has, and the tally of the sections.
#[derive(Clone, Copy)]
struct Tallies {
    cases: usize,
    differ: usize,
    bytes: usize,
    sections: Tally,
}

impl Tallies {
    fn new() -> Tallies {
        Tallies {
            cases: 0,
            differ: 0,
            bytes: 0,
            sections: Tally::new(),
        }
    }

    // With one case more, which has that many bytes, and the tally after it.
    fn ran(self, bytes: usize, sections: Tally) -> Tallies {
        Tallies {
            cases: more(self.cases),
            bytes,
            sections,
            ..self
        }
    }

    // With one difference more.
    fn differed(self) -> Tallies {
        Tallies {
            differ: more(self.differ),
            ..self
        }
    }

    fn print(self, rt: &impl Print) -> io::Result<()> {
        let Tally { accepted, refused } = self.sections;
        println!(rt; "cases {}", self.cases)?;
        println!(rt; "differ {}", self.differ)?;
        println!(rt; "tally {accepted} {refused}")
    }
}

// One more, unless there are too many already.
fn more(n: usize) -> usize {
    if n < TOO_MANY { n + 1 } else { n }
}

// Reads the next case to the start of line, and the end of its line after it.
fn read_case(input: &mut impl Read, line: &mut [u8]) -> io::Result<Next> {
    let mut head = [0u8; LENGTH_DIGITS + 1];
    let n = read_full(input, &mut head)?;
    if n == 0 {
        return Ok(Next::End);
    }
    if n != LENGTH_DIGITS + 1 || head[LENGTH_DIGITS] != b' ' {
        return Ok(Next::Bad);
    }
    let mut size = [0u32; 1];
    if !parse_numbers(&head[..LENGTH_DIGITS], &mut size) {
        return Ok(Next::Bad);
    }
    read_line(input, line, size[0] as usize)
}

// Reads a line of len bytes and its end.
fn read_line(input: &mut impl Read, line: &mut [u8], len: usize) -> io::Result<Next> {
    if line.len() <= len {
        return Ok(Next::Bad);
    }
    let end = len + 1;
    let n = read_full(input, &mut line[..end])?;
    if n == end && line[len] == b'\n' {
        Ok(Next::Case { len })
    } else {
        Ok(Next::Bad)
    }
}

// Runs a case, the one with that number, and counts it.
fn run(
    rt: &impl Print,
    case: &[u8],
    number: usize,
    space: &mut [u8],
    tallies: Tallies,
) -> io::Result<Tallies> {
    let mut numbers = [0u32; CASE_NUMBERS];
    let n = parse(after(case), &mut numbers, space, tallies.bytes);
    run_parsed(rt, case, number, &numbers, space, n, tallies)
}

// Runs a case with its numbers, whose bytes are the first n of space, if it could be parsed.
fn run_parsed(
    rt: &impl Print,
    case: &[u8],
    number: usize,
    numbers: &[u32; CASE_NUMBERS],
    space: &[u8],
    n: Option<usize>,
    tallies: Tallies,
) -> io::Result<Tallies> {
    let Some(n) = n else {
        return judge(rt, case, b"", b"bad case", tallies);
    };
    let Some(s) = space.get(..n) else {
        return judge(rt, case, b"", b"bad case", tallies);
    };
    let mut out = Out::new();
    let sections = answer(first(case), numbers, number, s, &mut out, tallies.sections);
    let right = after(after(after(case)));
    judge(rt, case, right, out.as_slice(), tallies.ran(n, sections))
}

// Prints a case and its answer, unless that is the right one.
fn judge(
    rt: &impl Print,
    case: &[u8],
    right: &[u8],
    answer: &[u8],
    tallies: Tallies,
) -> io::Result<Tallies> {
    if answer == right {
        return Ok(tallies);
    }
    rt.write_all(case)?;
    rt.write_all(b"\n")?;
    rt.write_all(answer)?;
    rt.write_all(b"\n")?;
    Ok(tallies.differed())
}

// The letter of a case, or 0 where there is none.
fn first(case: &[u8]) -> u8 {
    case.first().copied().unwrap_or(0)
}

// The place of the first blank, or the length where there is none.
fn blank(s: &[u8]) -> usize
    ensures { result ≤ length s.now }
{
    for k in 0..s.len() {
        if s[k] == b' ' {
            return k;
        }
    }
    s.len()
}

// What stands before the first blank.
fn field<'a>(s: &'a [u8]) -> &'a [u8] {
    let k = blank(s);
    &s[..k]
}

// What stands after the first blank.
fn after<'a>(s: &'a [u8]) -> &'a [u8] {
    let k = blank(s);
    if k < s.len() {
        let next = k + 1;
        return &s[next..];
    }
    &s[k..]
}

// Parses the numbers and the bytes of a case, and answers how many bytes there are.
fn parse(
    s: &[u8],
    numbers: &mut [u32; CASE_NUMBERS],
    space: &mut [u8],
    before: usize,
) -> Option<usize> {
    if parse_numbers(field(s), numbers) {
        parse_bytes(field(after(s)), space, before)
    } else {
        None
    }
}

// Puts the numbers of a field into out, which holds only 0, and tells whether they are numbers and there is room for them.
fn parse_numbers(s: &[u8], out: &mut [u32]) -> bool {
    let mut i = 0;
    for c in s {
        i = parse_digit(out, i, *c);
    }
    i < out.len()
}

// Takes a digit of the number at i, or the comma after it, and answers the place of the number that goes on; the length of out
// where none can.
fn parse_digit(out: &mut [u32], i: usize, c: u8) -> usize {
    if out.len() <= i {
        return i;
    }
    if c == b',' {
        return i + 1;
    }
    let Some(d) = digit(c) else {
        return out.len();
    };
    let n = out[i] as u64 * 10 + d as u64;
    if 10 <= d || LARGEST < n {
        return out.len();
    }
    out[i] = n as u32;
    i
}

// Puts the bytes of a field into out, where those of the case before still stand, and answers their number.
fn parse_bytes(s: &[u8], out: &mut [u8], before: usize) -> Option<usize> {
    match s {
        b"-" => Some(0),
        b"=" => Some(before),
        _ => parse_pairs(s, out),
    }
}

// Puts the bytes that pairs of digits stand for into out, and answers their number.
fn parse_pairs(s: &[u8], out: &mut [u8]) -> Option<usize> {
    let n = s.len() / 2;
    if out.len() < n {
        return None;
    }
    for k in 0..n {
        let high = digit(s[k * 2])?;
        let low = digit(s[k * 2 + 1])?;
        out[k] = high * 16 + low;
    }
    if s.is_empty() || n * 2 < s.len() {
        return None;
    }
    Some(n)
}

// What a hexadecimal digit stands for.
fn digit(c: u8) -> Option<u8>
    ensures { IfSome result (λ d. d < 16) }
{
    match c {
        b'0'..=b'9' => Some(c - b'0'),
        b'a'..=b'f' => Some(c - b'a' + 10),
        _ => None,
    }
}

// Has the bytes s of a case answered, puts the text of the answer to out, and answers the tally after it.
fn answer(
    letter: u8,
    numbers: &[u32; CASE_NUMBERS],
    number: usize,
    s: &[u8],
    out: &mut Out,
    tally: Tally,
) -> Tally {
    match letter {
        b'S' | b'P' | b'M' | b'G' | b'f' => {
            return read(letter, numbers[0] as usize, number, s, out, tally);
        }
        b'F' => find_section(numbers, s, out),
        b'T' => put_part(out, parts::row_text(s, row(numbers))),
        b'K' => put_part(out, parts::kept_name(s, row(numbers))),
        b'N' => put_part(out, parts::sql_name(s, row(numbers))),
        b'Q' => sql_text(numbers, s, out),
        b'O' => objects(s, out),
        b'R' => path_repeats(numbers, s, out),
        b'H' => entity_at(numbers, s, out),
        b'W' | b'w' | b'V' | b'v' | b'E' | b'e' | b'Y' | b'y' => write(letter, numbers, s, out),
        b'U' => text_check(s, out),
        b'C' => kept_len(s, out),
        b'X' => name_start(s, out),
        _ => bad_case(out),
    }
    tally
}

// The answer where a case asks for what there is not.
fn bad_case(out: &mut Out) {
    out.extend_from_slice(b"bad case")
}

// A reading with a table of that many rows, and up to nearly one row more.
fn read(letter: u8, rows: usize, number: usize, s: &[u8], out: &mut Out, tally: Tally) -> Tally {
    if MOST_ROWS < rows {
        bad_case(out);
        return tally;
    }
    let mut table = [FILL; MOST_NUMBERS];
    let size = rows * ROW_WIDTH + number % ROW_WIDTH;
    read_with(letter, s, &mut table[..size], out, tally)
}

fn read_with(letter: u8, s: &[u8], t: &mut [u32], out: &mut Out, tally: Tally) -> Tally {
    let tallied = decode(letter, s, t, tally);
    spell(tallied.answer, t, out);
    tallied.tally
}

fn decode(letter: u8, s: &[u8], t: &mut [u32], tally: Tally) -> Tallied {
    let answer = match letter {
        b'S' => return tally::decode_entities_tallied(s, t, tally),
        b'P' => entity::decode_entity(s, t),
        b'M' => metadata::decode_function_metadata_type(s, t),
        b'f' => object::decode_object(s, b".pgrxsc", t),
        _ => metadata::decode_sql_mapping(s, t),
    };
    Tallied { answer, tally }
}

// Puts the text of an answer and its table.
fn spell(answer: Result<Counts, Refusal>, t: &[u32], out: &mut Out) {
    let used = used_numbers(answer, t);
    match answer {
        Ok(counts) => put_counts(out, counts.entities, counts.rows),
        Err(refusal) => put_refusal(out, refusal),
    }
    for n in &t[..used] {
        put_number(out, *n as u64);
    }
    if !t[used..].iter().all(|n| *n == 0) {
        out.extend_from_slice(b" and not cleared");
    }
}

// How many numbers of the table the rows of an answer take: all of them where the table has fewer rows.
fn used_numbers(answer: Result<Counts, Refusal>, t: &[u32]) -> usize
    ensures { result ≤ length t.now }
{
    match answer {
        Ok(counts) if counts.rows <= t.len() / ROW_WIDTH => counts.rows * ROW_WIDTH,
        Ok(_) => t.len(),
        Err(_) => 0,
    }
}

// A section as objects.
fn objects(s: &[u8], out: &mut Out) {
    let mut table = [FILL; MOST_NUMBERS];
    objects_with(s, &mut table, out)
}

fn objects_with(s: &[u8], t: &mut [u32], out: &mut Out) {
    let answer = section::decode_entities(s, t);
    let used = used_numbers(answer, t);
    match answer {
        Ok(counts) => spell_objects(counts.entities as u64, &t[..used], s, out),
        Err(_) => out.extend_from_slice(b"refuse"),
    }
}

fn spell_objects(entities: u64, t: &[u32], s: &[u8], out: &mut Out) {
    out.extend_from_slice(b"accept");
    put_number(out, entities);
    if t.is_empty() {
        return out.extend_from_slice(b" -");
    }
    put_blank(out);
    for i in 0..t.len() / ROW_WIDTH {
        put_field(out, table::row_at(t, i), s);
    }
}

// Puts the field of a row, without a blank before it.
fn put_field(out: &mut Out, row: Row, s: &[u8]) {
    if row.sort != layout::SORT_TEXT {
        return put_digits(out, &row.value.to_le_bytes());
    }
    if let Ok(text) = parts::row_text(s, row) {
        put_digits(out, text);
    }
}

// The path report, with as many numbers of work as the case asks for.
fn path_repeats(numbers: &[u32; CASE_NUMBERS], s: &[u8], out: &mut Out) {
    let size = numbers[0] as usize;
    if MOST_NUMBERS < size {
        return bad_case(out);
    }
    let mut work = [FILL; MOST_NUMBERS];
    match paths::path_repeats(s, &mut work[..size]) {
        Ok(pairs) => put_accepted(out, pairs),
        Err(refusal) => put_refusal(out, refusal),
    }
}

// What holds the byte at a position.
fn entity_at(numbers: &[u32; CASE_NUMBERS], s: &[u8], out: &mut Out) {
    let position = NUMBERS * numbers[1] as u64 + numbers[0] as u64;
    match directory::entity_at(s, position) {
        Ok(Some(index)) => put_counts(out, 1, index),
        Ok(None) => put_counts(out, 0, 0),
        Err(refusal) => put_refusal(out, refusal),
    }
}

// The section of a shared object: where it is, and the part.
fn find_section(numbers: &[u32; CASE_NUMBERS], s: &[u8], out: &mut Out) {
    let size = numbers[0] as usize;
    if MOST_BUFFER < size {
        return bad_case(out);
    }
    let name = bytes_of(numbers);
    find_section_with(s, &name[..size], out)
}

// The numbers after the first, as bytes.
fn bytes_of(numbers: &[u32; CASE_NUMBERS]) -> [u8; MOST_BUFFER] {
    let mut bytes = [0u8; MOST_BUFFER];
    for k in 0..MOST_BUFFER {
        bytes[k] = (numbers[k + 1] % 256) as u8;
    }
    bytes
}

fn find_section_with(s: &[u8], name: &[u8], out: &mut Out) {
    match elf::place_section(s, name) {
        Ok(part) => put_counts(out, part.start, part.len),
        Err(refusal) => put_refusal(out, refusal),
    }
    put_part(out, elf::find_section(s, name))
}

fn row(numbers: &[u32; CASE_NUMBERS]) -> Row {
    Row {
        sort: numbers[0],
        offset: numbers[1],
        value: numbers[2],
    }
}

fn sql_text(numbers: &[u32; CASE_NUMBERS], s: &[u8], out: &mut Out) {
    let size = numbers[1] as usize;
    if MOST_BUFFER < size {
        return bad_case(out);
    }
    let mut buffer = [FILL_BYTE; MOST_BUFFER];
    sql_text_with(s, numbers[0], &mut buffer[..size], out)
}

fn sql_text_with(s: &[u8], offset: u32, buffer: &mut [u8], out: &mut Out) {
    let filled = sql_text::fill_sql_text(s, offset, buffer);
    put_part(out, sql_text::sql_text(s, offset, buffer));
    put_bytes(out, buffer);
    match filled {
        Ok(()) => put_nothing_refused(out),
        Err(refusal) => put_refusal(out, refusal),
    }
}

// A writing or a measuring, with the bytes of a case as the lent text.
fn write(letter: u8, numbers: &[u32; CASE_NUMBERS], text: &[u8], out: &mut Out) {
    let size = numbers[0] as usize;
    let end = 2 + numbers[1] as usize;
    let all: &[u32] = numbers;
    if MOST_BUFFER < size || all.len() < end {
        return bad_case(out);
    }
    let mut dest = [FILL_BYTE; MOST_BUFFER];
    write_with(letter, &all[2..end], text, &mut dest[..size], out)
}

fn write_with(letter: u8, rows: &[u32], text: &[u8], dest: &mut [u8], out: &mut Out) {
    match encode(letter, rows, text, dest) {
        Ok(length) => put_accepted(out, length as u64),
        Err(refusal) => put_refusal(out, refusal),
    }
    put_bytes(out, dest)
}

fn encode(letter: u8, rows: &[u32], text: &[u8], dest: &mut [u8]) -> Result<usize, Refusal> {
    match letter {
        b'W' => writer::encode_function_metadata_type(rows, text, dest),
        b'w' => writer::encode_sql_mapping(rows, text, dest),
        b'E' => entity_writer::encode_entity(rows, text, dest),
        b'e' => section_writer::encode_entities(rows, text, dest),
        b'V' => writer::function_metadata_type_len(rows, text),
        b'v' => writer::sql_mapping_len(rows, text),
        b'Y' => entity_writer::entity_len(rows, text),
        _ => section_writer::entities_len(rows, text),
    }
}

fn text_check(s: &[u8], out: &mut Out) {
    let yes = text::is_utf8(s);
    let told: &[u8] = if !same_in_parts(s, yes) {
        b"parts"
    } else if yes {
        b"yes"
    } else {
        b"no"
    };
    out.extend_from_slice(told)
}

// Whether a walk over s in two parts, wherever they part, tells what the check told.
fn same_in_parts(s: &[u8], yes: bool) -> bool {
    for k in 0..=s.len() {
        let (first, second) = s.split_at(k);
        let end = text::walk(text::walk(State::Start, first), second);
        if (end == State::Start) != yes {
            return false;
        }
    }
    true
}

fn kept_len(s: &[u8], out: &mut Out) {
    match text::check_text(s) {
        Some(kept) => {
            out.extend_from_slice(b"kept");
            put_number(out, kept as u64)
        }
        None => out.extend_from_slice(b"no"),
    }
}

fn name_start(s: &[u8], out: &mut Out) {
    let answer = parts::name_start(s);
    if !same_start_in_parts(s, answer) {
        return out.extend_from_slice(b"parts");
    }
    match answer {
        Some(start) => {
            out.extend_from_slice(b"start");
            put_number(out, start as u64)
        }
        None => out.extend_from_slice(b"no"),
    }
}

// Whether a walk over s in two parts, wherever they part, and one byte by byte tell the same start.
fn same_start_in_parts(s: &[u8], start: Option<usize>) -> bool {
    let mut bytewise = NameWalk::new();
    for k in 0..s.len() {
        let (first, second) = s.split_at(k);
        if NameWalk::new().walk(first).walk(second).answer() != start {
            return false;
        }
        bytewise = bytewise.walk(&[s[k]]);
    }
    NameWalk::new().walk(s).walk(&[]).answer() == start && bytewise.answer() == start
}

// Each of these puts something to the end of out, as far as there is room. A blank is put between two of numbers and bytes.
fn put_blank(out: &mut Out) {
    if !out.as_slice().is_empty() {
        out.push(b' ');
    }
}

fn put_number(out: &mut Out, n: u64) {
    put_blank(out);
    out.extend_from_slice(decimal::decimal(n).as_slice())
}

// The two 0 of what is not refused.
fn put_nothing_refused(out: &mut Out) {
    put_number(out, 0);
    put_number(out, 0)
}

fn put_accepted(out: &mut Out, n: u64) {
    put_nothing_refused(out);
    put_number(out, n)
}

fn put_counts(out: &mut Out, first: usize, second: usize) {
    put_accepted(out, first as u64);
    put_number(out, second as u64)
}

fn put_refusal(out: &mut Out, refusal: Refusal) {
    put_number(out, refusal.number as u64);
    put_number(out, refusal.place as u64)
}

// A part with the number and place before it; after a refusal an empty one.
fn put_part(out: &mut Out, part: Result<&[u8], Refusal>) {
    match part {
        Ok(bytes) => {
            put_nothing_refused(out);
            put_bytes(out, bytes)
        }
        Err(refusal) => {
            put_refusal(out, refusal);
            put_bytes(out, &[])
        }
    }
}

fn put_bytes(out: &mut Out, s: &[u8]) {
    put_blank(out);
    if s.is_empty() {
        return out.push(b'-');
    }
    put_digits(out, s)
}

fn put_digits(out: &mut Out, s: &[u8]) {
    for x in s {
        out.push(HEX_DIGITS[(*x / 16) as usize]);
        out.push(HEX_DIGITS[(*x % 16) as usize]);
    }
}
