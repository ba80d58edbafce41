//! Leaves of slots with the totals of their hours and days, which were worked out by hand.
ghost use Rattle.std.specs.Prelude.{◌≡◌, ◌+◌, ◌<◌, ◌≤◌};
ghost use Rattle.std.specs.Int.{◌∣◌};
ghost use Rattle.slo_terms.specs.Sums.{most_events};
ghost use Rattle.sum_pages.specs.Pages.{HasAtMost};

use crate::expectations::expect;
use exact_fraction::Leaf;
use std::alloc::Global;
use std::marker::Brand;
use std::process::Abort;
use std::sync::ledger::{Blank, Ledger};
use sum_pages::{Steps, SumPages};

fn start(alloc: Global, per_hour: u32) -> SumPages
    requires { per_hour ∣ 60 }
    ensures { HasAtMost result 0 }
{
    SumPages::new(alloc, per_hour)
}

/// Makes the day of a slot ready and puts a leaf. The caller says what all leaves add up to at
/// most.
fn put<R: Abort>(rt: &R, pages: &mut SumPages, slot: u32, num: u64, den: u64, most: u64)
    requires part { num ≤ den }
    requires small { most + den ≤ most_events }
    requires few { HasAtMost pages.old most }
    ensures { HasAtMost pages.new (most + den) }
{
    let slots = 24 * pages.per_hour();
    pages.reserve_day(slot / slots).expect(rt, "a page");
    pages.set(slot, Leaf { num, den });
}

/// The leaf of a slot, its hour's total and its day's.
fn read_by<L: Ledger>(pages: &SumPages, slot: u32, blank: Blank) -> [(u64, u64); 3]
    requires blank { (blank.name ≡ L.name) × (blank.parts ≡ L.parts) × (0 < L.parts) }
{
    let mut steps = Steps::<L>::new(blank);
    let per_hour = pages.per_hour();
    let leaf = pages.read_leaf(slot, &mut steps);
    let hour = pages.read_hour(slot / per_hour, &mut steps);
    let day = pages.read_day(slot / per_hour / 24, &mut steps);
    [
        (leaf.num, leaf.den),
        (hour.num, hour.den),
        (day.num, day.den),
    ]
}

fn read(pages: &SumPages, slot: u32) -> [(u64, u64); 3] {
    read_by::<Brand>(pages, slot, Blank::new(1))
}

#[test]
fn a_minute_is_in_its_hour_and_day(rt: HostRuntime) {
    let mut pages = start(rt.alloc(), 60);
    put(&rt, &mut pages, 61, 1, 2, 0);
    let rows = [
        (61, [(1, 2), (1, 2), (1, 2)]),
        (59, [(0, 0), (0, 0), (1, 2)]),
        (1_501, [(0, 0), (0, 0), (0, 0)]),
    ];
    for (slot, want) in rows {
        expect(&rt, read(&pages, slot) == want, "leaf, hour and day");
    }
}

#[test]
fn totals_follow_a_leaf_that_is_put_again(rt: HostRuntime) {
    let mut pages = start(rt.alloc(), 12);
    put(&rt, &mut pages, 300, 3, 4, 0);
    put(&rt, &mut pages, 311, 0, 1, 4);
    put(&rt, &mut pages, 312, 0, 7, 5);
    put(&rt, &mut pages, 300, 1, 1, 12);
    let rows = [
        (300, [(1, 1), (1, 2), (1, 9)]),
        (312, [(0, 7), (0, 7), (1, 9)]),
        (287, [(0, 0), (0, 0), (0, 0)]),
    ];
    for (slot, want) in rows {
        expect(&rt, read(&pages, slot) == want, "leaf, hour and day");
    }
}
