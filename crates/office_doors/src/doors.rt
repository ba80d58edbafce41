//! Where doors come from, and where they go.
ghost use Rattle.std.specs.Prelude.{◌≡◌, ◌≤◌, ◌++◌, ◌∷◌, [], ℕ, List, Option, Err, length, All};
ghost use Rattle.std.specs.Prelude.{IfOk, OnErr, is_some, true};
ghost use Rattle.office_outside.specs.Faults.{Rose};
ghost use Rattle.office_doors.specs.Books.{IsFresh, Moves, WhereTold};
ghost use Rattle.office_doors.specs.Entrances.{Entrance, Opens, HasOneOpen, Closes, Stays};
ghost use Rattle.office_doors.specs.Entrances.{IsClosedWithin, joined_count};

use crate::Door;

/// Why doors couldn't be opened.
#[derive(Clone, Copy, Debug, Drop, PartialEq, Eq)]
pub enum DoorsFault {
    /// The doors' count of faults rose.
    Failed,
    NoMemory,
}

/// Where doors come from, and where they go. Each worker owns its door, with a count of its own.
pub trait Doors {
    ghost use Rattle.office_doors.specs.declared.visit.Visit.{Visit};
    ghost use Rattle.office_doors.specs.declared.doors.DoorsFault.TheVariants.{Failed};

    type One: Door + Drop + Send;

    /// The visits that aren't shared out yet, and the doors that were opened and closed, where it
    /// tells.
    ghost told: { Self → Option (Entrance Self.One
        (Visit Self.One.In Self.One.Out Self.One.Time)) };

    /// The ports that doors were asked for at, one for each call of `open`, in order.
    ghost ports: { Self → List ℕ };

    /// How often it failed, and how often the doors did that were closed.
    ghost faults: { Self → ℕ };

    /// Opens so many doors, for visits at this port where there are ports. All visits that it
    /// holds are shared out among them, unless there is no door.
    fn open(&mut self, port: u16, workers: usize) -> Result<Vec<Self::One>, DoorsFault>
        ensures count { IfOk result (λ doors. length doors.items ≡ workers) }
        ensures quiet { IfOk result (λ doors. All (λ d. Self.One.faults d ≡ 0) doors.items) }
        ensures fresh { IfOk result (λ doors. All (λ d. WhereTold IsFresh (Self.One.told d))
            doors.items) }
        ensures tells { IfOk result (λ doors. WhereTold
            (λ _. All (λ d. is_some (Self.One.told d) ≡ true) doors.items) (told self.old)) }
        ensures shared { IfOk result (λ doors. Moves (Opens (λ d. Self.One.told d) doors.items)
            (told self.old) (told self.new)) }
        ensures kept { OnErr result (Moves Stays (told self.old) (told self.new)) }
        ensures port { ports self.new ≡ ports self.old ++ port ∷ [] }
        ensures later { faults self.old ≤ faults self.new }
        ensures cause { result ≡ Err Failed → Rose (faults self.old) (faults self.new) };

    /// Closes a door and adds its count. It never fails.
    fn close(&mut self, door: Self::One)
        requires open { WhereTold HasOneOpen (told self.old) }
        ensures closed { Moves (Closes door) (told self.old) (told self.new) }
        ensures ports { ports self.new ≡ ports self.old }
        ensures faults { faults self.new ≡ joined_count (faults self.old) (Self.One.faults door) };

    /// Never more doors were closed than were opened.
    ghost within: { (doors : Self) → WhereTold IsClosedWithin (told doors) };
}
