//! A counter that keeps a tally.
ghost use Rattle.std.specs.Prelude.{◌≡◌, false};
ghost use Rattle.generate_command.specs.Tallies.{no_tally};

use crate::tally::{SessionTally, is_lack};
use office_counter::Counter;
use record_form::{Outcome, Request};
use std::alloc::Global;

/// Asks a counter, and tallies what the requests come to.
#[derive(Drop)]
pub struct Tallying<T: Counter + Drop> {
    pub(crate) counter: T,
    pub(crate) tally: SessionTally,
    /// Whether one of the outcomes came for want of memory, or by a failure of the disk.
    pub(crate) lacks: bool,
}

impl<T: Counter + Drop> Tallying<T> {
    /// A counter of which nothing was asked yet.
    pub(crate) fn new(counter: T) -> Tallying<T>
        ensures counter { result.counter ≡ counter }
        ensures tally { result.tally ≡ no_tally }
        ensures lacks { result.lacks ≡ false }
    {
        Tallying {
            counter,
            tally: SessionTally::new(),
            lacks: false,
        }
    }
}

impl<T: Counter + Drop> Counter for Tallying<T> {
    ghost use Rattle.generate_command.specs.Tallying.{TallyAsks};

    ghost asks = { TallyAsks T.asks };

    ghost standing = { λ c. T.standing c.counter };

    fn ask(&mut self, alloc: Global, reading: u32, request: &Request) -> Outcome {
        let outcome = self.counter.ask(alloc, reading, request);
        self.tally.note(&outcome);
        self.lacks = self.lacks || is_lack(&outcome);
        outcome
    }

    ghost steps = { λ old reading request outcome new asked.
        T.steps old.counter reading request outcome new.counter asked.asked };
}
