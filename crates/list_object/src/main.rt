// The listing program for shared objects: it reads one from standard input and prints what the reading of its schema section
// answers.
#![tactic(auto)]

ghost use Rattle.std.specs.Prelude.{◌≡◌, length};
ghost use Rattle.listing.specs.Listing.{most_listed};

use std::io;
use streams::read_full;

// One byte more than is listed, so that a longer input is noticed.
const INPUT_SPACE: usize = object::MOST_OBJECT + 1;

// The schema section of an extension is called .pgrxsc.
fn main(rt: HostRuntime) -> io::Result<()> {
    let mut input = input_space();
    let n = read_full(&mut rt.stdin(), &mut input)?;
    let mut out = output_space();
    let len = object::object_listing(&input[..n], b".pgrxsc", &mut out);
    rt.write_all(&out[..len])
}

// The check does not look into so many bytes.
fn input_space() -> [u8; INPUT_SPACE] {
    [0; INPUT_SPACE]
}

// Space for the longest listing.
fn output_space() -> [u8; listing::MOST_LISTED]
    ensures { length result ≡ most_listed }
{
    [0; listing::MOST_LISTED]
}
