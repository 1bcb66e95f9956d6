// The tally of whole-section readings.
#![tactic(auto)]

ghost use Rattle.std.specs.Prelude.{◌≡◌};
ghost use Rattle.table.specs.Answers.{answer_of, result_of};
ghost use Rattle.section.specs.Section.{reading};
ghost use Rattle.section.specs.Demand3.{Demand3};
ghost use Rattle.tally.specs.Tally.{no_readings, tallied};

use table::{Counts, Refusal};

// How many readings were accepted, and how many refused.
#[derive(Clone, Copy, Debug, Default, PartialEq, Eq)]
pub struct Tally {
    pub accepted: u32,
    pub refused: u32,
}

// An answer, and the tally after it.
#[derive(Clone, Copy, Debug, PartialEq, Eq)]
pub struct Tallied {
    pub answer: Result<Counts, Refusal>,
    pub tally: Tally,
}

impl Tally {
    // A tally of no readings.
    pub fn new() -> Tally
        ensures { result ≡ no_readings }
    {
        Tally::default()
    }

    // The tally with one more answer. A count stops at the greatest number.
    pub fn count(self, answer: Result<Counts, Refusal>) -> Tally
        ensures { result ≡ tallied self (answer_of answer) }
    {
        match answer {
            Ok(_) => Tally {
                accepted: self.accepted.saturating_add(1),
                ..self
            },
            Err(_) => Tally {
                refused: self.refused.saturating_add(1),
                ..self
            },
        }
    }
}

// Reads a section like `section::decode_entities`, and adds the answer to the tally.
pub fn decode_entities_tallied(section: &[u8], table: &mut [u32], tally: Tally) -> Tallied
    ensures table_after { result_of result.answer table.new ≡ reading section.now table.old }
    ensures demand3 { Demand3 section.now table.old (result_of result.answer table.new) }
    ensures tally_value { result.tally ≡ tallied tally (reading section.now table.old).answer }
{
    let answer = section::decode_entities(section, table);
    Tallied {
        answer,
        tally: tally.count(answer),
    }
}
