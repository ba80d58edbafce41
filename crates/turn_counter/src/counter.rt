//! A counter over an office that others share.
ghost use Rattle.std.specs.Prelude.{◌≡◌, ◌≤◌};
ghost use Rattle.slo_limits.specs.declared.TheConstants.{MAX_MINUTE};
ghost use Rattle.office_counter.specs.Steps.{HasRevisionsIn};

use crate::asking::Asking;
use crate::desk_office::DeskOffice;
use office_counter::Counter;
use office_outside::Disk;
use record_form::{Outcome, Request, laws};
use std::alloc::Global;
use std::marker::Model;
use std::sync::Wait;
use turn_desk::{Desk, Pass};

/// Answers requests over an office at a desk, each in a turn of its own. It is seen as its pass:
/// the history that the pass has seen, and the places of its own entries. No asking is refused: a
/// turn takes no memory.
#[derive(Drop)]
pub struct TurnCounter<'a, D: Disk + Drop, R: Wait> {
    rt: &'a R,
    desk: &'a Desk<DeskOffice<D>>,
    pass: Pass<DeskOffice<D>>,
}

impl<'a, D: Disk + Drop, R: Wait> Model for TurnCounter<'a, D, R> {
    ghost use Rattle.std.specs.Prelude.{◌≡◌};
    ghost use Rattle.turn_desk.specs.Passes.{PassState};

    ghost Value = { PassState };

    ghost view = { λ c. c.pass };

    ghost invariant = { λ c. c.pass.desk ≡ c.desk.now };
}

impl<'a, D: Disk + Drop, R: Wait> TurnCounter<'a, D, R> {
    /// A counter that asks by this pass, and waits by this handle.
    pub fn new(
        rt: &'a R,
        desk: &'a Desk<DeskOffice<D>>,
        pass: Pass<DeskOffice<D>>,
    ) -> TurnCounter<'a, D, R>
        requires { pass.desk ≡ desk.now }
        ensures { result ≡ pass }
    {
        TurnCounter { rt, desk, pass }
    }

    /// The pass.
    pub fn into_pass(self) -> Pass<DeskOffice<D>>
        ensures { result ≡ self.entry }
    {
        self.pass
    }
}

impl<D: Disk + Drop, R: Wait> Counter for TurnCounter<'_, D, R> {
    ghost use Rattle.turn_counter.specs.Seen.{standing_of};
    ghost use Rattle.turn_counter.specs.Turns.{TurnAsks};
    ghost use Rattle.turn_counter.specs.Stepping.{turn_steps};

    ghost asks = { TurnAsks D.senses };

    ghost standing = { standing_of };

    fn ask(&mut self, alloc: Global, reading: u32, request: &Request) -> Outcome {
        let mut call = Asking::new(alloc, reading, request);
        laws::an_entry_is_read_back();
        let (outcome, _place) = self.desk.with_turn(self.rt, &mut self.pass, &mut call);
        outcome
    }

    ghost steps = { turn_steps D.senses };
}
