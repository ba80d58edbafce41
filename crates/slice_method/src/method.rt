//! How the counts of a slice of time become a leaf of a sum.
ghost use Rattle.std.specs.Prelude.{◌≡◌, ◌<◌, ◌≤◌};
ghost use Rattle.slo_limits.specs.declared.TheConstants.{MAX_SUM};
ghost use Rattle.slice_method.specs.Leaves.{billionths_of, is_at_least, leaf};

use crate::amount::Counts;
use exact_fraction::{Decimal, Leaf};
use slo_limits::WHOLE;

/// How an objective's budget is counted (OpenSLO v1, `budgetingMethod`).
#[derive(Clone, Copy, Debug, PartialEq, Eq)]
pub enum Method {
    /// Events.
    Occurrences,
    /// Slices of `width` minutes, good where the ratio of good events is at least `target`.
    Timeslices { width: u32, target: Decimal },
    /// The average of the ratios of slices of `width` minutes.
    RatioTimeslices { width: u32 },
}

/// What a slice with these counts of events adds to a sum (OpenSLO v1, `budgetingMethod`): the good
/// and all events; or 1 of 1 where it is good and 0 of 1 where not; or the billionths of its ratio,
/// rounded down, of a thousand million. A slice without events adds nothing.
pub fn leaf_of(method: Method, sum: Counts) -> Leaf
    requires part { sum.good ≤ sum.total }
    requires few { sum.total ≤ MAX_SUM }
    ensures leaf { result ≡ leaf method sum }
    ensures part { result.num ≤ result.den }
{
    if sum.total == 0 {
        return Leaf { num: 0, den: 0 };
    }
    match method {
        Method::Occurrences => Leaf {
            num: sum.good,
            den: sum.total,
        },
        Method::Timeslices { target, .. } => Leaf {
            num: u64::from(is_at_least(sum, target)),
            den: 1,
        },
        Method::RatioTimeslices { .. } => Leaf {
            num: billionths_of(sum),
            den: WHOLE,
        },
    }
}

/// Whether the ratio of good events is at least the target, multiplied out.
fn is_at_least(sum: Counts, target: Decimal) -> bool
    ensures { result ≡ is_at_least sum target }
{
    u128::from(target.billionths()) * u128::from(sum.total)
        <= u128::from(WHOLE) * u128::from(sum.good)
}

/// The ratio of good events, rounded down to billionths.
fn billionths_of(sum: Counts) -> u64
    requires some { 0 < sum.total }
    requires part { sum.good ≤ sum.total }
    ensures value { result ≡ billionths_of sum }
    ensures part { result ≤ WHOLE }
{
    (u128::from(WHOLE) * u128::from(sum.good) / u128::from(sum.total)) as u64
}
