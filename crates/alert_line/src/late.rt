//! A window that is brought to a minute when it is asked for.
ghost use Rattle.std.specs.Prelude.{◌≡◌, ℕ, ◌+◌, ◌-◌, ◌*◌, ◌<◌, ◌≤◌};
ghost use Rattle.slo_limits.specs.declared.TheConstants.{MAX_LOOKBACK};
ghost use Rattle.window_sums.specs.Slices.{leaf_at, width_of};
ghost use Rattle.alert_line.specs.Cursor.{IsLate, IsOver};

use crate::window::{Advance, NO_LEAF, Window};
use std::sync::ledger::Ledger;
use sum_pages::Steps;
use window_sums::WindowSums;

/// Over how many minutes a window that is late is moved on, by two reads a minute. A sum anew takes
/// no more reads than so many minutes.
const MOST_LATE: u32 = 300;

/// A window, and the minute where it stands, which may be long before the one that is looked at.
#[derive(Clone, Copy)]
pub(crate) struct LateWindow {
    pub(crate) minute: u32,
    pub(crate) window: Window,
}

impl LateWindow {
    /// The window before the first minute of all, in which nothing lies. No read.
    pub(crate) fn new(sums: &WindowSums) -> LateWindow
        ensures { (length minute : ℕ)
            → IsLate (width_of sums.now.method) (leaf_at sums.now) length minute result }
    {
        sums.width();
        LateWindow {
            minute: 0,
            window: Window {
                first: 0,
                end: 0,
                sum: NO_LEAF,
            },
        }
    }

    /// Brings the window of `length` minutes to a later minute: at most 600 reads, and at most two
    /// for each minute that it was late.
    pub(crate) fn bring<L: Ledger>(
        &mut self,
        length: u32,
        minute: u32,
        sums: &WindowSums,
        steps: &mut Steps<L>,
    )
        requires length { length ≤ MAX_LOOKBACK }
        requires late { IsLate (width_of sums.now.method) (leaf_at sums.now) length minute
            self.old }
        ensures minute { self.new.minute ≡ minute }
        ensures value { IsOver (width_of sums.now.method) (leaf_at sums.now) length minute
            self.new.window }
        ensures steps { steps.new ≤ steps.old + 600 }
        ensures paid { steps.new ≤ steps.old + 2 * (minute - self.old.minute) }
    {
        if minute - self.minute <= MOST_LATE {
            self.move_to(length, minute, sums, steps);
        } else {
            self.window = Window::new(length, minute, sums, steps);
            self.minute = minute;
        }
    }

    /// Moves on to a later minute, slice by slice.
    fn move_to<L: Ledger>(
        &mut self,
        length: u32,
        minute: u32,
        sums: &WindowSums,
        steps: &mut Steps<L>,
    )
        requires late { IsLate (width_of sums.now.method) (leaf_at sums.now) length minute
            self.old }
        ensures minute { self.new.minute ≡ minute }
        ensures value { IsOver (width_of sums.now.method) (leaf_at sums.now) length minute
            self.new.window }
        ensures steps { steps.new ≤ steps.old + 2 * (minute - self.old.minute) }
    {
        for at in self.minute..minute {
            let advance = Advance::new(at, sums, steps);
            self.window.next(length, &advance, sums, steps);
        }
        self.minute = minute;
    }
}
