//! The three figures of an error budget (Site Reliability Workbook, 'Alerting on SLOs').
ghost use Rattle.std.specs.Prelude.{◌≡◌, ◌<◌, ◌≤◌, ◌-◌, ◌*◌, ◌^◌, ◌≤ℤ◌, pos, unsigned_abs, IfSome};
ghost use Rattle.slo_limits.specs.declared.TheConstants.{MAX_THRESHOLD};
ghost use Rattle.slo_terms.specs.Budget.{error_rate_of, burn_of, remaining_of, above_of};

use exact_fraction::{Decimal, Fraction, Leaf, Op, holds};
use slo_limits::{MAX_SUM, WHOLE};

/// Thresholds and targets both count billionths.
const WHOLE_SQUARED: u128 = 1_000_000_000_000_000_000;

/// The part of the events that weren't good: (den - num) / den. None exactly where no event was
/// counted.
pub fn error_rate(sum: Leaf) -> Option<Fraction>
    requires part { sum.num ≤ sum.den }
    requires few { sum.den ≤ MAX_SUM }
    ensures value { result ≡ error_rate_of sum }
    ensures small { IfSome result (λ error. (unsigned_abs error.num ≤ sum.den)
        × (error.den ≤ sum.den)) }
    ensures not_negative { IfSome result (λ error. pos 0 ≤ℤ error.num) }
{
    if sum.den == 0 {
        return None;
    }
    Some(Fraction::of(
        i128::from(sum.den) - i128::from(sum.num),
        u128::from(sum.den),
    ))
}

/// The error rate divided by what the target allows, 1 - target. None exactly where no event was
/// counted.
pub fn burn(sum: Leaf, target: Decimal) -> Option<Fraction>
    requires part { sum.num ≤ sum.den }
    requires few { sum.den ≤ MAX_SUM }
    requires below_one { target < WHOLE }
    ensures value { result ≡ burn_of sum target }
    ensures not_negative { IfSome result (λ burn. pos 0 ≤ℤ burn.num) }
{
    let error = error_rate(sum)?;
    let allowed = WHOLE - target.billionths();
    Some(Fraction::of(
        error.num() * i128::from(WHOLE),
        error.den() * u128::from(allowed),
    ))
}

/// What is left of the error budget: 1 - burn, below 0 where it is overspent. None exactly where no
/// event was counted.
pub fn remaining(sum: Leaf, target: Decimal) -> Option<Fraction>
    requires part { sum.num ≤ sum.den }
    requires few { sum.den ≤ MAX_SUM }
    requires below_one { target < WHOLE }
    ensures { result ≡ remaining_of sum target }
{
    let burn = burn(sum, target)?;
    Some(Fraction::of(burn.den() as i128 - burn.num(), burn.den()))
}

/// Whether the burn rate stands in `op` to the threshold, which is at most 10,000. False where no
/// event was counted, since there is no burn rate then.
pub fn above(sum: Leaf, target: Decimal, op: Op, threshold: Decimal) -> bool
    requires part { sum.num ≤ sum.den }
    requires few { sum.den ≤ MAX_SUM }
    requires below_one { target < WHOLE }
    requires threshold { threshold ≤ MAX_THRESHOLD }
    ensures { result ≡ above_of sum target op threshold }
{
    if sum.den == 0 {
        return false;
    }
    // No fraction is made: both sides are multiplied by the denominators, which takes no division.
    let errors = u128::from(sum.den - sum.num) * WHOLE_SQUARED;
    let limit = u128::from(threshold.billionths()) * allowed_errors(sum.den, target);
    holds(op, errors.cmp(&limit))
}

/// How many of so many events may be errors, in billionths.
fn allowed_errors(events: u64, target: Decimal) -> u128
    requires few { events ≤ MAX_SUM }
    requires below_one { target < WHOLE }
    ensures value { result ≡ events * (WHOLE - target) }
    ensures few { result ≤ 4 * 10 ^ 24 }
{
    u128::from(events) * u128::from(WHOLE - target.billionths())
}
