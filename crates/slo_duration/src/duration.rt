//! A duration and its rolling minutes.
ghost use Rattle.std.specs.Prelude.{◌≡◌, ◌≤◌, ◌*◌};
ghost use Rattle.slo_duration.specs.Unit.{unit_minutes};

use crate::Unit;

/// The greatest number of rolling minutes, since they are told in 32 bits.
pub(crate) const MOST_MINUTES: u64 = 4_294_967_295;

/// A count of units, whose rolling minutes fit 32 bits.
#[derive(Clone, Copy, Debug, PartialEq, Eq)]
pub struct Duration {
    pub count: u32,
    pub unit: Unit,
    pub ghost fits: { count * unit_minutes unit ≤ 4_294_967_295 },
}

/// The duration's minutes in a rolling window or a lookback, where a month has 30 days, a quarter
/// 90 and a year 365.
pub fn rolling_minutes(value: Duration) -> u32
    ensures { result ≡ value.count * unit_minutes value.unit }
{
    (u64::from(value.count) * value.unit.minutes()) as u32
}
