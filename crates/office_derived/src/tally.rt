//! What becomes of the rows of a batch, counted.
ghost use Rattle.std.specs.Prelude.{◌≡◌};
ghost use Rattle.office_derived.specs.Tallies.{changes, tally_outcome};

use record_form::Outcome;

/// How many rows of a batch became what.
#[derive(Clone, Copy, PartialEq, Eq)]
pub struct BatchTally {
    pub new: u32,
    pub newer: u32,
    pub repeated: u32,
    pub superseded: u32,
}

impl BatchTally {
    /// The outcome of the batch.
    pub fn sampled(self, entry: Option<u32>) -> Outcome
        ensures { result ≡ tally_outcome self entry }
    {
        Outcome::Sampled {
            entry,
            new: self.new,
            newer: self.newer,
            repeated: self.repeated,
            superseded: self.superseded,
        }
    }

    /// Whether a row is new or newer.
    pub fn changes(self) -> bool
        ensures { result ≡ changes self }
    {
        self.new != 0 || self.newer != 0
    }
}
