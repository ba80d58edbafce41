//! Where visits come from, one after another.
ghost use Rattle.std.specs.Prelude.{◌≡◌, ◌≤◌, ℕ, Option, None, IfOk, IfSome, OnErr};
ghost use Rattle.office_outside.specs.Faults.{HasCause};
ghost use Rattle.office_doors.specs.Books.{Book, Moves, WhereTold, HandsOut, FindsNone};
ghost use Rattle.office_doors.specs.Books.{FailsToHand};
ghost use Rattle.office_doors.specs.Books.{TakesBack, HasAllBack, HasOneOut, IsWithin};

use crate::Visit;
use office_outside::{Clock, Failed, Sink, Source};

/// Where visits come from, one after another.
pub trait Door {
    ghost use Rattle.office_doors.specs.declared.visit.Visit.{Visit};

    type In: Source + Send;

    type Out: Sink + Send;

    type Time: Clock + Send;

    /// The visits that it handed out, got back and has left, where it tells.
    ghost told: { Self → Option (Book (Visit Self.In Self.Out Self.Time)) };

    /// How often it failed.
    ghost faults: { Self → ℕ };

    /// The next visit, for which it may wait; None where there are no more. Who asks for it has
    /// given each visit back that he took before.
    fn next(&mut self) -> Result<Option<Visit<Self::In, Self::Out, Self::Time>>, Failed>
        requires back { WhereTold HasAllBack (told self.old) }
        ensures some { IfOk result (λ next. IfSome next
            (λ visit. Moves (HandsOut visit) (told self.old) (told self.new))) }
        ensures none { IfOk result (λ next. next ≡ None
            → Moves FindsNone (told self.old) (told self.new)) }
        ensures failed { OnErr result (Moves FailsToHand (told self.old) (told self.new)) }
        ensures cause { HasCause (faults self.old) (faults self.new) result };

    /// Takes a visit back and ends it. It never fails.
    fn end(&mut self, visit: Visit<Self::In, Self::Out, Self::Time>)
        requires out { WhereTold HasOneOut (told self.old) }
        ensures back { Moves (TakesBack visit) (told self.old) (told self.new) }
        ensures faults { faults self.new ≡ faults self.old };

    /// Never more visits came back than were handed out.
    ghost within: { (door : Self) → WhereTold IsWithin (told door) };
}
