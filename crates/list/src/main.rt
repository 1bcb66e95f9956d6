// The listing program: it reads a section from standard input and prints what its reading answers.
#![tactic(auto)]

ghost use Rattle.std.specs.Prelude.{◌≡◌, ◌+◌, length};
ghost use Rattle.listing.specs.Listing.{most_bytes, most_listed};

use std::io;
use streams::read_full;

// One byte more than is listed, so that a longer input is noticed.
const INPUT_SPACE: usize = listing::MOST_BYTES + 1;

fn main(rt: HostRuntime) -> io::Result<()> {
    let mut input = input_space();
    let n = read_full(&mut rt.stdin(), &mut input)?;
    let mut out = output_space();
    let len = listing::listing(&input[..n], &mut out);
    rt.write_all(&out[..len])
}

fn input_space() -> [u8; INPUT_SPACE]
    ensures { length result ≡ most_bytes + 1 }
{
    [0; INPUT_SPACE]
}

// Space for the longest listing.
fn output_space() -> [u8; listing::MOST_LISTED]
    ensures { length result ≡ most_listed }
{
    [0; listing::MOST_LISTED]
}
