//! What amounts count by their reading, and the leaves of slices, against worked values.
ghost use Rattle.std.specs.Prelude.{◌≡◌, ◌≤◌, ◌*◌, ◌^◌};

use crate::added_events::counts;
use crate::expectations::expect;
use exact_fraction::{Decimal, Leaf, Op};
use slice_method::{Amount, Method, Reading, counts_of, leaf_of};

const HALF: u64 = 500_000_000;

fn parts(part: u32, total: u32) -> Amount
    ensures { result ≡ Amount.Counts part total }
{
    Amount::Counts { part, total }
}

fn decimal(billionths: u64) -> Decimal
    requires { billionths ≤ 10 ^ 18 }
    ensures { result ≡ billionths }
{
    Decimal::of_billionths(billionths)
}

fn value(billionths: u64) -> Amount
    requires { billionths ≤ 10 ^ 18 }
    ensures { result ≡ Amount.Value billionths }
{
    Amount::Value(decimal(billionths))
}

/// The leaf of slices that are good from one half on.
fn slice_leaf(good: u64, total: u64) -> Leaf
    requires part { good ≤ total }
    requires few { total ≤ 4 * 10 ^ 15 }
{
    let target = decimal(HALF);
    leaf_of(Method::Timeslices { width: 5, target }, counts(good, total))
}

fn ratio_leaf(good: u64, total: u64) -> Leaf
    requires part { good ≤ total }
    requires few { total ≤ 4 * 10 ^ 15 }
{
    leaf_of(Method::RatioTimeslices { width: 1 }, counts(good, total))
}

fn leaf(num: u64, den: u64) -> Leaf {
    Leaf { num, den }
}

#[test]
fn amounts_count_by_their_reading(rt: HostRuntime) {
    let half = decimal(HALF);
    expect(
        &rt,
        counts_of(Reading::Good, Op::Lte, half, parts(3, 10)) == counts(3, 10),
        "Good Lte",
    );
    expect(
        &rt,
        counts_of(Reading::Bad, Op::Lte, half, parts(3, 10)) == counts(7, 10),
        "Bad Lte",
    );
    expect(
        &rt,
        counts_of(Reading::Threshold, Op::Lte, half, value(HALF)) == counts(1, 1),
        "Threshold Lte",
    );
    expect(
        &rt,
        counts_of(Reading::Threshold, Op::Lt, half, value(HALF)) == counts(0, 1),
        "Threshold Lt",
    );
    let quarter = counts(250_000_000, 1_000_000_000);
    expect(
        &rt,
        counts_of(Reading::RawSuccess, Op::Lte, half, value(250_000_000)) == quarter,
        "RawSuccess Lte",
    );
    let rest = counts(750_000_000, 1_000_000_000);
    expect(
        &rt,
        counts_of(Reading::RawFailure, Op::Lte, half, value(250_000_000)) == rest,
        "RawFailure Lte",
    );
}

#[test]
fn withdrawn_rows_count_for_nothing(rt: HostRuntime) {
    let half = decimal(HALF);
    let good = counts_of(Reading::Good, Op::Lte, half, Amount::Withdrawn);
    expect(&rt, good == counts(0, 0), "good");
    let bad = counts_of(Reading::Bad, Op::Lte, half, Amount::Withdrawn);
    expect(&rt, bad == counts(0, 0), "bad");
    let threshold = counts_of(Reading::Threshold, Op::Lte, half, Amount::Withdrawn);
    expect(&rt, threshold == counts(0, 0), "threshold");
    let success = counts_of(Reading::RawSuccess, Op::Lte, half, Amount::Withdrawn);
    expect(&rt, success == counts(0, 0), "success");
    let failure = counts_of(Reading::RawFailure, Op::Lte, half, Amount::Withdrawn);
    expect(&rt, failure == counts(0, 0), "failure");
}

#[test]
fn leaves_follow_the_method(rt: HostRuntime) {
    expect(
        &rt,
        leaf_of(Method::Occurrences, counts(2, 3)) == leaf(2, 3),
        "leaf_of(Method::Occurrences, counts(2, 3))",
    );
    expect(&rt, slice_leaf(1, 2) == leaf(1, 1), "slice_leaf(1, 2)");
    expect(&rt, slice_leaf(1, 3) == leaf(0, 1), "slice_leaf(1, 3)");
    expect(&rt, slice_leaf(0, 0) == leaf(0, 0), "slice_leaf(0, 0)");
    expect(
        &rt,
        ratio_leaf(1, 3) == leaf(333_333_333, 1_000_000_000),
        "ratio_leaf(1, 3)",
    );
    expect(
        &rt,
        ratio_leaf(2, 3) == leaf(666_666_666, 1_000_000_000),
        "ratio_leaf(2, 3)",
    );
}
