//! Sums over ranges of time, by every method and width, against sums that were worked out.
ghost use Rattle.std.specs.Prelude.{◌≡◌, ◌<◌, ◌≤◌};

use crate::added_events::{NOTHING, add, counts, filled, method_of, put, start};
use crate::expectations::expect;
use crate::row_words::number;
use exact_fraction::{Leaf, read_number};
use std::marker::Brand;
use std::process::Abort;
use std::sync::ledger::{Blank, Ledger};
use sum_pages::Steps;
use window_sums::WindowSums;

fn sum_by<L: Ledger>(sums: &WindowSums, from: u32, to: u32, blank: Blank) -> Leaf
    requires range { from ≤ to }
    requires blank { (blank.name ≡ L.name) × (blank.parts ≡ L.parts) × (0 < L.parts) }
{
    let mut steps = Steps::<L>::new(blank);
    sums.sum(from, to, &mut steps)
}

/// The sum for a caller that counts no steps; (0, 0) where the range ends before it begins.
fn sum(sums: &WindowSums, from: u32, to: u32) -> Leaf {
    sum_by::<Brand>(sums, from, to.max(from), Blank::new(1))
}

/// Events of ten minutes, on four days.
const EVENTS: &str = "\
0 3 4  4 1 1  5 0 2  59 9 10  60 1 3  61 2 3  1439 7 7  1440 1 2  2879 0 1  100000 1 1";

/// One sum has to be this: a range has its first minute, the minute behind it, the good part and
/// the whole.
fn expect_sum<R: Abort>(rt: &R, sums: &WindowSums, range: &str) {
    let mut words = range.split_whitespace();
    let from = number(rt, words.next(), 2_100_000) as u32;
    let to = number(rt, words.next(), 2_100_000) as u32;
    let num = number(rt, words.next(), 10_000_000_000);
    let den = number(rt, words.next(), 10_000_000_000);
    expect(rt, sum(sums, from, to) == Leaf { num, den }, range);
}

fn expect_sums<R: Abort>(rt: &R, sums: &WindowSums, ranges: &str) {
    for range in ranges.split("; ") {
        expect_sum(rt, sums, range);
    }
}

/// A row has a method, by its width and its target in billionths, where it has one, and what sums
/// over the ten minutes have to be.
fn expect_rows(rt: &(impl AllocGlobal + Abort), rows: &str) {
    for row in rows.lines() {
        let (method, ranges) = row.split_once(": ").expect(rt, "ranges");
        let (width, target) = method.split_once(" ").expect(rt, "a target");
        let width = number(rt, Some(width), 60) as u32;
        let target = read_number(target.as_bytes(), 1_000_000_000);
        let sums = filled(rt, rt.alloc(), method_of(width, target), EVENTS);
        expect_sums(rt, &sums, ranges);
    }
}

#[test]
fn sums_of_every_method(rt: HostRuntime) {
    let rows = "\
0 none: 0 1 3 4; 1 61 11 16; 0 1440 23 30; 59 2880 20 26; 61 2881 10 13; 0 100001 25 34
1 500000000: 0 1 1 1; 1 61 2 4; 0 1440 5 7; 59 2880 4 6; 61 2881 3 4; 0 100001 7 10
5 500000000: 0 1 0 0; 1 61 1 2; 0 1440 4 5; 59 2880 3 4; 61 2881 2 3; 0 100001 5 7
60 900000000: 0 1 0 0; 1 61 0 0; 0 1440 1 3; 59 2880 1 4; 61 2881 1 3; 0 100001 1 5";
    expect_rows(&rt, rows);
}

#[test]
fn ratios_of_every_width(rt: HostRuntime) {
    let rows = "\
1 none: 1 61 2233333333 4000000000; 0 1440 4649999999 7000000000; \
59 2880 3399999999 6000000000; 0 100001 6149999999 10000000000
5 none: 1 61 900000000 2000000000; 0 1440 3200000000 5000000000; \
59 2880 2000000000 4000000000; 0 100001 3700000000 7000000000
60 none: 1 61 0 0; 0 1440 2264705882 3000000000; \
59 2880 2000000000 4000000000; 0 100001 2764705882 5000000000";
    expect_rows(&rt, rows);
}

#[test]
fn four_hundred_days(rt: HostRuntime) {
    let mut sums = start(rt.alloc(), method_of(0, None));
    for minute in 0..576_000 {
        add(&rt, &mut sums, minute, 1, 1, u64::from(minute));
    }
    let all = sum(&sums, 59, 575_941);
    expect(
        &rt,
        (all.num, all.den) == (575_882, 575_882),
        "the sum of all days",
    );
}

#[test]
fn slices_of_five_minutes(rt: HostRuntime) {
    let mut sums = start(rt.alloc(), method_of(5, Some(500_000_000)));
    put(&rt, &mut sums, 101, NOTHING, counts(0, 2), 0);
    expect_sum(&rt, &sums, "0 105 0 1");
    put(
        &rt,
        &mut sums,
        101,
        counts(0, 2),
        counts(1, 2),
        1_000_000_002,
    );
    expect_sums(&rt, &sums, "0 103 0 0; 0 105 1 1; 101 110 0 0");
}

#[test]
fn ratios_are_rounded_slice_by_slice(rt: HostRuntime) {
    let sums = filled(&rt, rt.alloc(), method_of(1, None), "7 1 3  1440 2 3");
    expect_sum(&rt, &sums, "0 2000 999999999 2000000000");
}
