//! Burn rates against thresholds, and the three figures of a budget, by worked rows.
use crate::expectations::expect;
use burn_core::{above, burn, error_rate, remaining};
use exact_fraction::{Decimal, Fraction, Leaf, Op};
use slo_limits::MAX_SUM;

/// By each of the four comparisons, against a threshold in billionths.
#[test]
fn burn_rates_against_a_threshold(rt: HostRuntime) {
    let rows = [
        // 72/5 against 14.4: lte and gte hold, lt and gt don't.
        (98_560, 100_000, 14_400_000_000, [true, true, false, false]),
        // 1441/100 against 14.4
        (98_559, 100_000, 14_400_000_000, [false, true, false, true]),
        // 24/5 against 6
        (99_520, 100_000, 6_000_000_000, [true, false, true, false]),
        // no burn rate
        (0, 0, 0, [false, false, false, false]),
    ];
    let target = Decimal::of_billionths(999_000_000);
    for (num, den, threshold, want) in rows {
        let sum = Leaf { num, den };
        assert!(rt; sum.num <= sum.den && sum.den <= MAX_SUM && threshold <= 10_000_000_000_000);
        let threshold = Decimal::of_billionths(threshold);
        let got = [Op::Lte, Op::Gte, Op::Lt, Op::Gt].map(|op| above(sum, target, op, threshold));
        expect(&rt, got == want, "lte, gte, lt, gt");
    }
}

/// Two slices whose ratios of 1/3 and 2/3 were rounded down to billionths, against a target of 0.9.
#[test]
fn budgets_of_rounded_ratios(rt: HostRuntime) {
    let sum = Leaf {
        num: 999_999_999,
        den: 2_000_000_000,
    };
    let target = Decimal::of_billionths(900_000_000);
    assert!(rt; error_rate(sum) == Some(Fraction::of(1_000_000_001, 2_000_000_000)));
    assert!(rt; burn(sum, target) == Some(Fraction::of(1_000_000_001, 200_000_000)));
    assert!(rt; remaining(sum, target) == Some(Fraction::of(-800_000_001, 200_000_000)));
}
