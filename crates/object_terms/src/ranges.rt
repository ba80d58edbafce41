//! Values of documents whose range is a fact of their type.
ghost use Rattle.std.specs.Prelude.{◌<◌, ◌≤◌};
ghost use Rattle.std.specs.Int.{◌∣◌};
ghost use Rattle.slo_duration.specs.Minutes.{minutes_of};
ghost use Rattle.slo_limits.specs.declared.TheConstants.{MAX_LOOKBACK, MAX_THRESHOLD, MAX_WINDOW};
ghost use Rattle.slo_limits.specs.declared.TheConstants.{WHOLE};

use exact_fraction::Decimal;
use slo_duration::Duration;

/// The target of an objective: a ratio below one.
#[derive(Clone, Copy, Debug)]
pub struct Target {
    pub ratio: Decimal,
    pub ghost below_one: { ratio < WHOLE },
}

/// The ratio from which on a slice is good: above zero and at most one.
#[derive(Clone, Copy, Debug)]
pub struct SliceTarget {
    pub ratio: Decimal,
    pub ghost some: { 0 < ratio },
    pub ghost within_one: { ratio ≤ WHOLE },
}

/// The width of a slice: at least a minute, and an hour has a whole number of them.
#[derive(Clone, Copy, Debug)]
pub struct SliceWidth {
    pub minutes: u32,
    pub ghost some: { 0 < minutes },
    pub ghost divides: { minutes ∣ 60 },
}

/// The threshold of a condition: a burn rate of at most 10,000.
#[derive(Clone, Copy, Debug)]
pub struct Threshold {
    pub rate: Decimal,
    pub ghost fits: { rate ≤ MAX_THRESHOLD },
}

/// A lookback: at least a minute and at most 30 days.
#[derive(Clone, Copy, Debug)]
pub struct Lookback {
    pub span: Duration,
    pub ghost some: { 0 < minutes_of span },
    pub ghost short: { minutes_of span ≤ MAX_LOOKBACK },
}

/// How long a condition has to hold before an alert is told: at most 30 days.
#[derive(Clone, Copy, Debug)]
pub struct AlertAfter {
    pub span: Duration,
    pub ghost short: { minutes_of span ≤ MAX_LOOKBACK },
}

/// How long a window lasts: at least a minute and at most 366 days.
#[derive(Clone, Copy, Debug)]
pub struct WindowLength {
    pub span: Duration,
    pub ghost some: { 0 < minutes_of span },
    pub ghost short: { minutes_of span ≤ MAX_WINDOW },
}
