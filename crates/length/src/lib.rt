// The lengths of values, before they are written. A length above the limit is refused, and no sum wraps.
#![tactic(auto)]

ghost use Rattle.std.specs.Prelude.{◌≡◌, ◌+◌, ◌≤◌, length};
ghost use Rattle.layout.specs.Layout.{Tag, Flag, Number, string};
ghost use Rattle.layout.specs.Written.{plain_bytes, leaf_bytes};
ghost use Rattle.layout.specs.Answers.{limit};
ghost use Rattle.length.specs.Length.{length_of, too_long, within_limit, bytes_length, len_of, option_length, list_length};

use layout::LIMIT;
use table::{Refusal, RefusalKind};

// The length of some bytes preceded by their length.
pub fn bytes_len(len: usize) -> Result<usize, Refusal>
    ensures { length_of result ≡ within_limit (bytes_length len) }
{
    sum_len(4, len)
}

// The length of a text.
pub fn str_len(value: &[u8]) -> Result<usize, Refusal>
    ensures { length_of result ≡ within_limit (length (leaf_bytes (string value.now))) }
{
    bytes_len(value.len())
}

// The length of a flag.
pub fn bool_len() -> usize
    ensures { result ≡ length (plain_bytes Flag 0) }
{
    u8_len()
}

// The length of a tag.
pub fn u8_len() -> usize
    ensures { result ≡ length (plain_bytes Tag 0) }
{
    1
}

// The length of a number.
pub fn u32_len() -> usize
    ensures { result ≡ length (plain_bytes Number 0) }
{
    4
}

// The length of an optional part with its flag.
pub fn opt_len(inner: Option<usize>) -> Result<usize, Refusal>
    ensures { length_of result ≡ within_limit (option_length (len_of inner)) }
{
    match inner {
        None => Ok(1),
        Some(len) => sum_len(1, len),
    }
}

// The length of a list, from the lengths of its items.
pub fn list_len(items: &[usize]) -> Result<usize, Refusal>
    ensures { length_of result ≡ within_limit (list_length items.now) }
{
    let mut total = 4;
    for item in items {
        total = sum_len(total, *item)?;
    }
    Ok(total)
}

// The sum of two lengths.
fn sum_len(head: usize, len: usize) -> Result<usize, Refusal>
    requires { head ≤ limit }
    ensures { length_of result ≡ within_limit (head + len) }
{
    if LIMIT - head < len {
        return too_long();
    }
    Ok(head + len)
}

// The refusal of a length above the limit.
fn too_long() -> Result<usize, Refusal>
    ensures { length_of result ≡ too_long }
{
    Err(Refusal::at(RefusalKind::OutputTooLong, 0))
}
