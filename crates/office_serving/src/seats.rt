//! The passes of a desk, as counters of those who work there.
ghost use Rattle.std.specs.Prelude.{◌≡◌, ◌≤◌, [], All, length, vec_capacity};

use office_outside::Disk;
use std::sync::Wait;
use turn_counter::{DeskOffice, TurnCounter};
use turn_desk::{Desk, Pass};

/// A counter for each pass, in their order. The list of counters has room for them.
pub(crate) fn take_seats<'a, R: Wait, D: Disk + Drop>(
    rt: &'a R,
    desk: &'a Desk<DeskOffice<D>>,
    passes: &mut Vec<Pass<DeskOffice<D>>>,
    counters: &mut Vec<TurnCounter<'a, D, R>>,
)
    requires desk { All (λ p. p.desk ≡ desk.now) passes.old.items }
    requires empty { counters.old.items ≡ [] }
    requires room { length passes.old.items ≤ vec_capacity counters.old }
    ensures counters { counters.new.items ≡ passes.old.items }
    ensures none_left { passes.new.items ≡ [] }
    ensures room { vec_capacity passes.new ≡ vec_capacity passes.old }
{
    let count = passes.len();
    for _ in 0..count {
        let pass = passes.remove(0);
        let counter = TurnCounter::new(rt, desk, pass);
        let _ = counters.push(counter);
    }
}

/// The passes of the counters, in their order. The list of passes has room for them.
pub(crate) fn leave_seats<R: Wait, D: Disk + Drop>(
    counters: Vec<TurnCounter<'_, D, R>>,
    passes: &mut Vec<Pass<DeskOffice<D>>>,
)
    requires empty { passes.old.items ≡ [] }
    requires room { length counters.items ≤ vec_capacity passes.old }
    ensures { passes.new.items ≡ counters.entry.items }
{
    for counter in counters {
        let pass = counter.into_pass();
        let _ = passes.push(pass);
    }
}
