//! Whether the slots of a range have no event, looked up from its end.
ghost use Rattle.std.specs.Prelude.{◌≡◌, ◌+◌, ◌-◌, ◌*◌, ◌/◌, ◌<◌, ◌≤◌, ◌==◌};
ghost use Rattle.slo_terms.specs.Sums.{leaves_over};
ghost use Rattle.sum_pages.specs.Pages.{leaf_at};
ghost use Rattle.window_sums.specs.Ranges.{slots_of};

use crate::range::{HOURS_A_DAY, Unit, read};
use std::sync::ledger::Ledger;
use sum_pages::{Steps, SumPages};

/// Whether no slot from `from` up to `to` has an event. First the totals of all days that the range
/// touches are looked at, which tells it of a range without data in few reads; a range whose last
/// slots have events is told after two.
pub(crate) fn is_empty<L: Ledger>(
    pages: &SumPages,
    from: u32,
    to: u32,
    steps: &mut Steps<L>,
) -> bool
    ensures value { result ≡ ((leaves_over (leaf_at pages.now) from (to - from)).den == 0) }
    ensures bounded { to - from ≤ 30 * (24 * pages.now.per_hour) → steps.new ≤ steps.old + 600 }
{
    let slots = HOURS_A_DAY * pages.per_hour();
    are_empty(pages, Unit::Day, from / slots, to.div_ceil(slots), steps)
        || slots_are_empty(pages, from, to, steps)
}

/// The same by the slots behind the last whole hour, the hours, and the slots up to a whole hour.
fn slots_are_empty<L: Ledger>(pages: &SumPages, from: u32, to: u32, steps: &mut Steps<L>) -> bool
    ensures value { result ≡ ((leaves_over (leaf_at pages.now) from (to - from)).den == 0) }
    ensures bounded { to - from ≤ 400 * (24 * pages.now.per_hour) → steps.new ≤ steps.old + 564 }
{
    let per_hour = pages.per_hour();
    let first = from.div_ceil(per_hour);
    let end = to / per_hour;
    if end <= first {
        return are_empty(pages, Unit::Slot, from, to, steps);
    }
    if !are_empty(pages, Unit::Slot, end * per_hour, to, steps) {
        return false;
    }
    if !hours_are_empty(pages, first, end, steps) {
        return false;
    }
    are_empty(pages, Unit::Slot, from, first * per_hour, steps)
}

/// The same of hours: those behind the last whole day, the days, and those up to a whole day.
fn hours_are_empty<L: Ledger>(pages: &SumPages, from: u32, to: u32, steps: &mut Steps<L>) -> bool
    ensures value { result ≡ ((leaves_over (leaf_at pages.now) (from * pages.now.per_hour)
        ((to - from) * pages.now.per_hour)).den == 0) }
    ensures bounded { steps.new ≤ steps.old + (46 + (to - from) / 24) }
{
    let first = from.div_ceil(HOURS_A_DAY);
    let end = to / HOURS_A_DAY;
    if end <= first {
        return are_empty(pages, Unit::Hour, from, to, steps);
    }
    if !are_empty(pages, Unit::Hour, end * HOURS_A_DAY, to, steps) {
        return false;
    }
    if !are_empty(pages, Unit::Day, first, end, steps) {
        return false;
    }
    are_empty(pages, Unit::Hour, from, first * HOURS_A_DAY, steps)
}

/// The same of units, each read by itself, up to the last that has an event.
fn are_empty<L: Ledger>(
    pages: &SumPages,
    unit: Unit,
    from: u32,
    to: u32,
    steps: &mut Steps<L>,
) -> bool
    ensures value { result ≡ ((leaves_over (leaf_at pages.now)
        (from * slots_of unit pages.now.per_hour)
        ((to - from) * slots_of unit pages.now.per_hour)).den == 0) }
    ensures cost { steps.new ≤ steps.old + (to - from) }
{
    for at in (from..to).rev() {
        if read(pages, unit, at, steps).den != 0 {
            return false;
        }
    }
    true
}
