//! The leaves of a range of slots, added up in few reads.
ghost use Rattle.std.specs.Prelude.{◌≡◌, ◌+◌, ◌-◌, ◌*◌, ◌/◌, ◌<◌, ◌≤◌, ◌^◌};
ghost use Rattle.slo_terms.specs.Sums.{leaves_over, most_events};
ghost use Rattle.sum_pages.specs.Pages.{leaf_at};
ghost use Rattle.window_sums.specs.Ranges.{plus, slots_of};

use exact_fraction::Leaf;
use std::sync::ledger::Ledger;
use sum_pages::{Steps, SumPages};

/// The hours of a day.
pub(crate) const HOURS_A_DAY: u32 = 24;

/// What is read in one step.
#[derive(Clone, Copy)]
pub(crate) enum Unit {
    Slot,
    Hour,
    Day,
}

/// The leaves of the slots from `from` up to `to`: slots up to a whole hour, then hours, and slots
/// behind the last whole hour.
pub(crate) fn sum_slots<L: Ledger>(
    pages: &SumPages,
    from: u32,
    to: u32,
    steps: &mut Steps<L>,
) -> Leaf
    ensures value { result ≡ leaves_over (leaf_at pages.now) from (to - from) }
    ensures short { steps.new ≤ steps.old + (to - from) }
    ensures bounded { to - from ≤ 400 * (24 * pages.now.per_hour) → steps.new ≤ steps.old + 600 }
{
    let per_hour = pages.per_hour();
    let first = from.div_ceil(per_hour);
    let end = to / per_hour;
    if end < first {
        return sum_within_hour(pages, from, to, steps);
    }
    let before = pages.read_leaves(from, first * per_hour, steps);
    let hours = sum_hours(pages, first, end, steps);
    let after = pages.read_leaves(end * per_hour, to, steps);
    pages.sound();
    joined(before, hours, after)
}

/// The leaves of the slots from `from` up to `to`, of one hour.
fn sum_within_hour<L: Ledger>(pages: &SumPages, from: u32, to: u32, steps: &mut Steps<L>) -> Leaf
    requires { to ≤ (from / pages.now.per_hour + 1) * pages.now.per_hour }
    ensures value { result ≡ leaves_over (leaf_at pages.now) from (to - from) }
    ensures cost { steps.new ≤ steps.old + (to - from) }
{
    if to <= from {
        return Leaf { num: 0, den: 0 };
    }
    pages.read_leaves(from, to, steps)
}

/// The leaves of the hours from `from` up to `to`: hours up to a whole day, then days, and hours
/// behind the last whole day.
fn sum_hours<L: Ledger>(pages: &SumPages, from: u32, to: u32, steps: &mut Steps<L>) -> Leaf
    ensures value { result ≡ leaves_over (leaf_at pages.now) (from * pages.now.per_hour)
        ((to - from) * pages.now.per_hour) }
    ensures short { steps.new ≤ steps.old + (to - from) }
    ensures bounded { steps.new ≤ steps.old + (46 + (to - from) / 24) }
{
    let first = from.div_ceil(HOURS_A_DAY);
    let end = to / HOURS_A_DAY;
    if end <= first {
        return sum_units(pages, Unit::Hour, from, to, steps);
    }
    let before = sum_units(pages, Unit::Hour, from, first * HOURS_A_DAY, steps);
    let days = sum_units(pages, Unit::Day, first, end, steps);
    let after = sum_units(pages, Unit::Hour, end * HOURS_A_DAY, to, steps);
    pages.sound();
    joined(before, days, after)
}

/// The leaves of the units from `from` up to `to`, each read by itself.
fn sum_units<L: Ledger>(
    pages: &SumPages,
    unit: Unit,
    from: u32,
    to: u32,
    steps: &mut Steps<L>,
) -> Leaf
    ensures value { result ≡ leaves_over (leaf_at pages.now)
        (from * slots_of unit pages.now.per_hour) ((to - from) * slots_of unit pages.now.per_hour) }
    ensures cost { steps.new ≤ steps.old + (to - from) }
{
    pages.sound();
    let mut sum = Leaf { num: 0, den: 0 };
    for at in from..to {
        sum = plus(sum, read(pages, unit, at, steps));
    }
    sum
}

/// The leaves of a unit, in one step.
pub(crate) fn read<L: Ledger>(pages: &SumPages, unit: Unit, at: u32, steps: &mut Steps<L>) -> Leaf
    ensures value { result ≡ leaves_over (leaf_at pages.now) (at * slots_of unit pages.now.per_hour)
        (slots_of unit pages.now.per_hour) }
    ensures cost { steps.new ≡ steps.old + 1 }
{
    match unit {
        Unit::Slot => pages.read_leaf(at, steps),
        Unit::Hour => pages.read_hour(at, steps),
        Unit::Day => pages.read_day(at, steps),
    }
}

/// Three sums side by side.
fn joined(before: Leaf, middle: Leaf, after: Leaf) -> Leaf
    requires part { before.num + middle.num + after.num ≤ before.den + middle.den + after.den }
    requires few { before.den + middle.den + after.den ≤ most_events }
    ensures { result ≡ plus (plus before middle) after }
{
    Leaf {
        num: before.num + middle.num + after.num,
        den: before.den + middle.den + after.den,
    }
}

/// The sum of two leaves.
fn plus(a: Leaf, b: Leaf) -> Leaf
    requires part { a.num + b.num ≤ a.den + b.den }
    requires few { a.den + b.den ≤ most_events }
    ensures { result ≡ plus a b }
{
    Leaf {
        num: a.num + b.num,
        den: a.den + b.den,
    }
}
