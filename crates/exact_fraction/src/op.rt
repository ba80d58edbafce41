//! Comparing a fraction with a threshold.
ghost use Rattle.std.specs.Prelude.{◌≡◌, ◌≤◌, ◌^◌};
ghost use Rattle.exact_fraction.specs.Op.{holds_of, order_with};

use crate::decimal::Decimal;
use crate::fraction::Fraction;
use slo_limits::{MAX_THRESHOLD, WHOLE};
use std::cmp::Ordering;

/// How a value is compared with a threshold, by the words of OpenSLO v1.
#[derive(Clone, Copy, Debug, PartialEq, Eq)]
pub enum Op {
    /// At most the threshold.
    Lte,
    /// At least the threshold.
    Gte,
    /// Below the threshold.
    Lt,
    /// Above the threshold.
    Gt,
}

/// Whether `op` holds of two values that are in this order.
pub fn holds(op: Op, order: Ordering) -> bool
    ensures { result ≡ holds_of op order }
{
    match op {
        Op::Lte => order.is_le(),
        Op::Gte => order.is_ge(),
        Op::Lt => order.is_lt(),
        Op::Gt => order.is_gt(),
    }
}

/// The exact order of a fraction and a decimal of at most 10,000, so that both cross products fit
/// 128 bits.
pub fn compare(a: &Fraction, b: Decimal) -> Ordering
    requires { b ≤ MAX_THRESHOLD }
    ensures { result ≡ order_with a.now b }
{
    let left = a.num() * WHOLE as i128;
    let right = (u128::from(b.billionths()) * a.den()) as i128;
    left.cmp(&right)
}
