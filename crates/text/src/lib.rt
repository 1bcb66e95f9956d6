// Whether bytes are UTF-8, as RFC 3629 defines it: the check that Rust makes with std::str::from_utf8; and how much of such a name
// the server, PostgreSQL, keeps. And a walk that also finds the pairs of colons in a text.
#![tactic(auto)]

ghost use Rattle.std.specs.Prelude.{◌≡◌, ◌*◌, ◌%◌, ◌<◌, ◌≤◌, true, ◌↔◌, length};
ghost use Rattle.text.specs.Rfc3629.{tail, Utf8};
ghost use Rattle.text.specs.Walk.{within, step, wanted_after, utf8};
ghost use Rattle.text.specs.Kept.{kept_length, check_text, ExactCheck, text_answer};
ghost use Rattle.text.specs.States.{state_of};
ghost use Rattle.text.specs.Colons.{unwalked, colons_after};
ghost use Rattle.text.specs.Private.{code, Reaches, Decodes, Ascii, StaysClosed, Completes};

mod tables;

use tables::next_of;

// Where a walk stands: at the start of a character, one to three continuation bytes before its end, after one of the four lead
// bytes that narrow the second byte, or past a wrong byte. A walk holds the number of its state: the place of the state's six bits
// in a row of the table.
#[derive(Clone, Copy, Debug, PartialEq, Eq)]
pub enum State {
    Start = 0,
    One = 6,
    Two = 12,
    Three = 18,
    AfterE0 = 24,
    AfterED = 30,
    AfterF0 = 36,
    AfterF4 = 42,
    Wrong = 48,
}

// Where a walk stands that also finds the pairs of colons: its state; whether a pair is open, which the next byte closes if it is
// a colon; and where the last pair ended, in the bytes that were just walked, 0 if none ended there.
#[derive(Drop)]
pub struct ColonWalk {
    pub state: State,
    pub opened: bool,
    pub end: usize,
}

// How far a walk has come that has no pair open, and where the last pair ended.
#[derive(Drop)]
struct Passed {
    at: usize,
    end: usize,
}

// The state Start, as a walk holds it.
const START: u64 = State::Start as u64;

// How many bytes are tested for ASCII at a time.
const BLOCK: usize = 64;

// How many bytes of a name the server keeps at most.
const MOST_KEPT: usize = 63;

// Whether s is UTF-8.
pub fn is_utf8(s: &[u8]) -> bool
    ensures value { result ≡ utf8 s.now }
    ensures variant { (result ≡ true) ↔ Utf8 s.now }
{
    if s.len() < BLOCK {
        return is_ascii_short(s) || walk_bytes(s, START) == START;
    }
    let ascii = ascii_prefix(s);
    ascii == s.len() || walk_over(&s[ascii..], START) == START
}

// Whether s is UTF-8, and if so, how many bytes of it the server keeps as a name: up to the greatest character boundary at or below
// 63.
pub fn check_text(s: &[u8]) -> Option<usize>
    ensures result_value { text_answer result ≡ check_text s.now }
    ensures exact_check { ExactCheck s.now (text_answer result) }
{
    if !is_utf8(s) {
        return None;
    }
    Some(kept_len(s))
}

// How many bytes of s, which is UTF-8, the server keeps as a name. A place inside a character is where a byte continues one.
fn kept_len(s: &[u8]) -> usize
    requires { utf8 s.now ≡ true }
    ensures { result ≡ kept_length s.now }
{
    let n = s.len();
    if n <= MOST_KEPT {
        return n;
    }
    for k in (1..=MOST_KEPT).rev() {
        if !is_tail(s[k]) {
            return k;
        }
    }
    0
}

// Whether a byte continues a character.
fn is_tail(b: u8) -> bool
    ensures { result ≡ within tail b }
{
    0x80 <= b && b <= 0xBF
}

// Where a walk that stood at q stands after the bytes of s. A text may be walked in parts, each from the answer for the part
// before; it is UTF-8 if the last answer is Start.
pub fn walk(q: State, s: &[u8]) -> State
    ensures { state_of result ≡ wanted_after (state_of q) s.now }
{
    state_of(walk_over(s, u64::from(q)))
}

// The same walk, which also finds the pairs of colons, from the left without overlap. It begins with a pair open or not, and it
// goes from left to right once.
pub fn walk_colons(q: State, opened: bool, s: &[u8]) -> ColonWalk
    ensures state_value { state_of result.state ≡ wanted_after (state_of q) s.now }
    ensures opened_value { result.opened ≡ (colons_after (unwalked opened) s.now).opened }
    ensures end_value { result.end ≡ (colons_after (unwalked opened) s.now).end }
{
    if s.is_empty() {
        return ColonWalk {
            state: q,
            opened,
            end: 0,
        };
    }
    if opened && s[0] == b':' {
        return walk_pairs(after_colon(q), s, 1);
    }
    walk_pairs(q, s, 0)
}

// The state after a colon, which is a character by itself and part of no other.
fn after_colon(q: State) -> State
    ensures { state_of result ≡ step (state_of q) 0x3A }
{
    if q == State::Start { q } else { State::Wrong }
}

// The walk over s from a on. No pair is open there, and the last one ended there, or a is 0.
fn walk_pairs(q: State, s: &[u8], a: usize) -> ColonWalk
    requires { a ≤ length s.now }
    ensures { Completes s.now a a (state_of q) result }
{
    let n = s.len();
    if q != State::Start {
        return walk_pairs_from(q, s, Passed { at: a, end: a });
    }
    let p = ascii_pairs(s, a);
    let at = p.at;
    let end = p.end;
    if at == n {
        return ColonWalk {
            state: q,
            opened: false,
            end,
        };
    }
    if n - at == 1 && s[at] < 128 {
        return ColonWalk {
            state: q,
            opened: s[at] == b':',
            end,
        };
    }
    walk_pairs_from(q, s, p)
}

// As much of this walk as two bytes at a time show to be ASCII.
fn ascii_pairs(s: &[u8], a: usize) -> Passed
    requires { a ≤ length s.now }
    ensures a_le_at { (a ≤ result.at) × (result.at ≤ length s.now) }
    ensures ascii { Ascii s.now a result.at }
    ensures stays_closed { StaysClosed s.now a a result.at result.end }
{
    let n = s.len();
    let mut i = a;
    let mut end = a;
    while 1 < n - i {
        let j = i + 1;
        if 128 <= s[i] | s[j] {
            return Passed { at: i, end };
        }
        if s[j] != b':' {
            i += 2;
        } else if s[i] == b':' {
            end = i + 2;
            i = end;
        } else {
            i += 1;
        }
    }
    Passed { at: i, end }
}

// The rest of this walk. The loop begins where no pair is open, and needs no flag: after a colon it reads the next byte too.
fn walk_pairs_from(q: State, s: &[u8], p: Passed) -> ColonWalk
    requires { p.at ≤ length s.now }
    ensures { Completes s.now p.at p.end (state_of q) result }
{
    let n = s.len();
    let mut x = u64::from(q);
    let mut i = p.at;
    let mut end = p.end;
    while i < n {
        let c = s[i];
        x = next_of(x, c);
        i += 1;
        if c == b':' {
            if i == n {
                return ColonWalk {
                    state: state_of(x % 64),
                    opened: true,
                    end,
                };
            }
            let d = s[i];
            x = next_of(x, d);
            i += 1;
            if d == b':' {
                end = i;
            }
        }
    }
    ColonWalk {
        state: state_of(x % 64),
        opened: false,
        end,
    }
}

// The walk over s from the state held as q. A block of ASCII at the start of a character is skipped. The call is not inlined, so
// that a text of ASCII saves no registers for it.
#[inline(never)]
fn walk_over(s: &[u8], q: u64) -> u64
    ensures { Reaches s.now q result }
{
    let (blocks, rest) = s.as_chunks::<BLOCK>();
    let mut x = q;
    for block in blocks {
        if x != START || !is_ascii(block) {
            x = walk_bytes(block, x);
        }
    }
    walk_bytes(rest, x)
}

// The same walk, byte by byte.
fn walk_bytes(s: &[u8], q: u64) -> u64
    ensures { Reaches s.now q result }
{
    let mut x = q;
    for b in s {
        x = next_of(x, *b);
    }
    x % 64
}

// How many bytes at the start of s are ASCII, as far as whole blocks show: all of them if s is ASCII.
fn ascii_prefix(s: &[u8]) -> usize
    requires { 64 ≤ length s.now }
    ensures { (result ≤ length s.now) × Ascii s.now 0 result }
{
    let n = s.len();
    for k in 0..n / BLOCK {
        let at = k * BLOCK;
        if !is_ascii(&s[at..at + BLOCK]) {
            return at;
        }
    }
    if is_ascii(&s[n - BLOCK..]) {
        return n;
    }
    n - n % BLOCK
}

// Whether s, which is no longer than a block, is ASCII. No loop depends on its length.
fn is_ascii_short(s: &[u8]) -> bool
    requires { length s.now ≤ 64 }
    ensures { result ≡ true → Ascii s.now 0 (length s.now) }
{
    let n = s.len();
    if 32 <= n {
        return is_ascii_at_ends(s, 32);
    }
    if 16 <= n {
        return is_ascii_at_ends(s, 16);
    }
    if 8 <= n {
        return is_ascii_at_ends(s, 8);
    }
    if 4 <= n {
        return is_ascii_at_ends(s, 4);
    }
    is_ascii(s)
}

// Whether the first k and the last k bytes of s are ASCII. They are all of s.
#[inline(always)]
fn is_ascii_at_ends(s: &[u8], k: usize) -> bool
    requires k_le_length { k ≤ length s.now }
    requires length_le { length s.now ≤ 2 * k }
    requires words { k % 4 ≡ 0 }
    ensures { result ≡ true → Ascii s.now 0 (length s.now) }
{
    high_bits(&s[..k]) | high_bits(&s[s.len() - k..]) == 0
}

// The highest bits of the bytes of s, four bytes at a time: 0 only if they are ASCII.
#[inline(always)]
fn high_bits(s: &[u8]) -> u32
    requires { length s.now % 4 ≡ 0 }
    ensures { result ≡ 0 → Ascii s.now 0 (length s.now) }
{
    let (words, _) = s.as_chunks::<4>();
    let mut bits = 0;
    for word in words {
        bits |= u32::from_le_bytes(*word) & 0x8080_8080;
    }
    bits
}

// Whether s is ASCII. There is no early exit, so that the compiler can handle many bytes at a time.
fn is_ascii(s: &[u8]) -> bool
    ensures { result ≡ true → Ascii s.now 0 (length s.now) }
{
    let mut bits = 0;
    for b in s {
        bits |= *b;
    }
    bits < 128
}

impl From<State> for u64 {
    ghost from_gives = { λ q x. x ≡ code (state_of q) };

    fn from(q: State) -> u64 {
        q as u64
    }
}

// The state that a walk holds as x.
fn state_of(x: u64) -> State
    ensures { Decodes x (state_of result) }
{
    match x {
        0 => State::Start,
        6 => State::One,
        12 => State::Two,
        18 => State::Three,
        24 => State::AfterE0,
        30 => State::AfterED,
        36 => State::AfterF0,
        42 => State::AfterF4,
        _ => State::Wrong,
    }
}
