// Parts of the caller's bytes: where one is, and the part itself. Nothing is copied.
#![tactic(auto)]

ghost use Rattle.std.specs.Prelude.{◌≡◌, ◌+◌};
ghost use Rattle.layout.specs.Reading.{refuse};
ghost use Rattle.place.specs.Place.{between, found_part, part_of, number_in, place_in, bytes_told, number_told, place_told, told_as};

use table::Refusal;

// Where a part of the bytes is: from a start on.
#[derive(Clone, Copy, Debug, PartialEq, Eq)]
pub struct Part {
    pub start: usize,
    pub len: usize,
}

impl Part {
    // The bytes from the start on, len of them, or as many as there are.
    pub fn of<'a>(self, bytes: &'a [u8]) -> &'a [u8]
        ensures { result.now ≡ between bytes.now self.start (self.start + self.len) }
    {
        let rest = &bytes[self.start.min(bytes.len())..];
        &rest[..self.len.min(rest.len())]
    }
}

// A refusal, with place 0.
pub fn no_part(number: u32) -> Result<Part, Refusal>
    ensures { found_part result ≡ refuse number 0 }
{
    Err(Refusal { number, place: 0 })
}

// The part that was found; or the refusal.
pub fn part_at<'a>(bytes: &'a [u8], found: Result<Part, Refusal>) -> Result<&'a [u8], Refusal>
    ensures result_value { bytes_told result ≡ part_of bytes.now (found_part found) }
    ensures number_after { number_told result ≡ number_in (found_part found) }
    ensures place_after { place_told result ≡ place_in (found_part found) }
    ensures case { told_as result (found_part found) }
{
    Ok(found?.of(bytes))
}
