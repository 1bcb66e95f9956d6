// The framing of a section: entries of a length and a payload, then padding; and the sentinel, a payload that yields nothing.
#![tactic(auto)]

ghost use Rattle.std.specs.Prelude.{true, false, ◌↔◌, ◌≡◌};
ghost use Rattle.raw_bytes.specs.Bytes.{same};
ghost use Rattle.framing.specs.Framing.{all_zero, framing_from};
ghost use Rattle.framing.specs.Answers.{framing_of, end_of, entry_payloads, ExactFraming};
ghost use Rattle.framing.specs.Entries.{sentinel_bytes};
ghost use Rattle.framing.specs.Places.{entry_end, sentinel_at, past_sentinels};

use layout::LIMIT;
use table::{Refusal, RefusalKind};

// The sentinel's payload, 00 04 00 00 00 70 67 72 78: its first eight bytes, as a number, and its last.
const SENTINEL_HEAD: u64 = 0x7267_7000_0000_0400;

const SENTINEL_LAST: u8 = b'x';

// How many bytes are tested for zeros at a time.
const BLOCK: usize = 64;

// Whether there are only zeros. Whole blocks come first.
fn all_zero(s: &[u8]) -> bool
    ensures { result ≡ all_zero s.now }
{
    let (blocks, rest) = s.as_chunks::<BLOCK>();
    blocks.iter().all(|block| zeros(block)) && zeros(rest)
}

// The same, with no early exit, so that the compiler can handle many bytes at a time.
fn zeros(s: &[u8]) -> bool
    ensures { result ≡ all_zero s.now }
{
    s.iter().fold(0, |bits, byte| bits | *byte) == 0
}

// The framing alone, with the refusals 1 to 4.
pub fn entry_payloads(section: &[u8]) -> Result<usize, Refusal>
    ensures result_value { framing_of result ≡ entry_payloads section.now }
    ensures exact_framing { ExactFraming section.now (framing_of result) }
{
    if LIMIT < section.len() {
        return Err(Refusal::at(RefusalKind::InputTooLong, 0));
    }
    framing_from(section, 0)
}

// The framing from a boundary on, with the refusals 2 to 4. Its entries are walked by their lengths.
pub fn framing_from(s: &[u8], from: usize) -> Result<usize, Refusal>
    ensures { framing_of result ≡ end_of (framing_from s.now from) }
{
    let mut at = from;
    let mut end = entry_end(s, at);
    while at < end {
        at = end;
        end = entry_end(s, at);
    }
    framing_at(s, at)
}

// Where the entry at a place ends; the place itself, if there is no whole entry.
pub fn entry_end(s: &[u8], at: usize) -> usize
    ensures { result ≡ entry_end s.now at }
{
    let n = raw_bytes::number_at(s, at) as usize;
    if n == 0 {
        return at;
    }
    if s.len() - at - 4 < n {
        return at;
    }
    at + 4 + n
}

// The framing at a boundary where there is no whole entry. Only here are all bytes up to the end tested.
fn framing_at(s: &[u8], at: usize) -> Result<usize, Refusal>
    requires { entry_end s.now at ≡ at }
    ensures { framing_of result ≡ end_of (framing_from s.now at) }
{
    let Some(rest) = s.get(at..) else {
        return Ok(at);
    };
    if all_zero(rest) {
        return Ok(at);
    }
    if rest.len() < 4 {
        return Err(Refusal::at(RefusalKind::PartialLength, at));
    }
    if raw_bytes::number_at(s, at) == 0 {
        return Err(Refusal::at(RefusalKind::ZeroLength, at));
    }
    Err(Refusal::at(RefusalKind::EntryTooLong, at))
}

// Whether a payload is the sentinel. Most have another length.
#[tactic(auto, using(raw_bytes::proofs::Compared::same_not))]
pub fn is_sentinel(payload: &[u8]) -> bool
    ensures value { result ≡ same payload.now sentinel_bytes }
    ensures variant { (result ≡ true) ↔ (payload.now ≡ sentinel_bytes) }
{
    match payload.split_first_chunk() {
        Some((head, [last])) => u64::from_le_bytes(*head) == SENTINEL_HEAD
            && *last == SENTINEL_LAST,
        _ => false,
    }
}

// Whether the sentinel's entry is at a place.
pub fn sentinel_at(s: &[u8], at: usize) -> bool
    ensures { result ≡ sentinel_at s.now at }
{
    let end = entry_end(s, at);
    at < end && is_sentinel(&s[at + 4..end])
}

// Past the sentinels from a place on: where the entry of the next entity begins, if there is one.
pub fn past_sentinels(s: &[u8], from: usize) -> usize
    ensures value { result ≡ past_sentinels s.now from }
    ensures result_value { sentinel_at s.now result ≡ false }
{
    let mut at = from;
    while sentinel_at(s, at) {
        at = entry_end(s, at);
    }
    at
}
