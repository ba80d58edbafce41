//! Sums to which tests add the events of minutes, with a bound on all events that were added.
ghost use Rattle.std.specs.Prelude.{◌≡◌, ◌≢◌, ℕ, ◌+◌, ◌*◌, ◌<◌, ◌≤◌};
ghost use Rattle.std.specs.Int.{◌∣◌};
ghost use Rattle.slo_terms.specs.Sums.{most_events};
ghost use Rattle.window_sums.specs.Slices.{HasAtMost, IsPart, counts_of, new_counts, no_counts};
ghost use Rattle.window_sums.specs.Slices.{slice_of, width_of};

use crate::row_words::number;
use exact_fraction::Decimal;
use slice_method::{Counts, Method};
use std::alloc::Global;
use std::process::Abort;
use window_sums::WindowSums;

pub(crate) const NOTHING: Counts = Counts { good: 0, total: 0 };

pub(crate) fn counts(good: u64, total: u64) -> Counts
    ensures { result ≡ record { good = good; total = total } }
{
    Counts { good, total }
}

/// Ratios of slices, or slices that reach a target in billionths, or the events where the width is
/// no divisor of an hour.
pub(crate) fn method_of(width: u32, target: Option<u64>) -> Method
    ensures { width_of result ∣ 60 }
{
    if width == 0 || 60 % width != 0 {
        return Method::Occurrences;
    }
    match target {
        Some(billionths) => Method::Timeslices {
            width,
            target: Decimal::of_billionths(billionths.min(1_000_000_000)),
        },
        None => Method::RatioTimeslices { width },
    }
}

/// Sums without events.
pub(crate) fn start(alloc: Global, method: Method) -> WindowSums
    requires { width_of method ∣ 60 }
    ensures method { result.method ≡ method }
    ensures counts { (slice : ℕ) → counts_of result slice ≡ no_counts }
    ensures few { HasAtMost result.method (counts_of result) 0 }
{
    WindowSums::new(alloc, method)
}

/// Makes room for a minute and changes its counts. The caller says how many events there are at
/// most.
pub(crate) fn put<R: Abort>(
    rt: &R,
    sums: &mut WindowSums,
    minute: u32,
    before: Counts,
    after: Counts,
    most: u64,
)
    requires few { HasAtMost sums.old.method (counts_of sums.old) most }
    requires most { most + (after.total + 1000000000) ≤ most_events }
    requires good { before.good ≤ (counts_of sums.old (slice_of sums.old.method minute)).good }
    requires total { before.total ≤ (counts_of sums.old (slice_of sums.old.method minute)).total }
    requires part { IsPart (new_counts (counts_of sums.old (slice_of sums.old.method minute)) before
        after) }
    ensures method { sums.new.method ≡ sums.old.method }
    ensures few { HasAtMost sums.new.method (counts_of sums.new)
        (most + (after.total + 1000000000)) }
    ensures here { counts_of sums.new (slice_of sums.old.method minute)
        ≡ new_counts (counts_of sums.old (slice_of sums.old.method minute)) before after }
    ensures others { (slice : ℕ) → slice ≢ slice_of sums.old.method minute
        → counts_of sums.new slice ≡ counts_of sums.old slice }
{
    sums.reserve(minute).expect(rt, "a day");
    sums.change(minute, before, after);
}

/// Adds the events of a minute, after so many others.
pub(crate) fn add<R: Abort>(
    rt: &R,
    sums: &mut WindowSums,
    minute: u32,
    good: u64,
    total: u64,
    others: u64,
)
    requires part { good ≤ total }
    requires small { total ≤ 1000000000 }
    requires some { others < 1000000 }
    requires few { HasAtMost sums.old.method (counts_of sums.old) (others * 2000000000) }
    ensures method { sums.new.method ≡ sums.old.method }
    ensures few { HasAtMost sums.new.method (counts_of sums.new) ((others + 1) * 2000000000) }
{
    put(
        rt,
        sums,
        minute,
        NOTHING,
        counts(good, total),
        others * 2_000_000_000,
    );
}

/// Sums of the events of a row, which has of each minute its number, the good events and all.
pub(crate) fn filled<R: Abort>(rt: &R, alloc: Global, method: Method, row: &str) -> WindowSums
    requires { width_of method ∣ 60 }
{
    let mut words = row.split_whitespace();
    let mut sums = start(alloc, method);
    for place in 0..100 {
        let minute = words.next();
        if minute.is_none() {
            break;
        }
        let minute = number(rt, minute, 2_100_000) as u32;
        let good = number(rt, words.next(), 1_000_000_000);
        let total = number(rt, words.next(), 1_000_000_000);
        assert!(rt; good <= total);
        add(rt, &mut sums, minute, good, total, place);
    }
    sums
}
