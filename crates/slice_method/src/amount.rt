//! What a row says of its minute, and what it counts for.

use exact_fraction::Decimal;

/// Good and total events.
#[derive(Clone, Copy, Debug, PartialEq, Eq)]
pub struct Counts {
    pub good: u64,
    pub total: u64,
}

/// What the amounts of an indicator mean (OpenSLO v1, `ratioMetric` and `thresholdMetric`).
#[derive(Clone, Copy, Debug, PartialEq, Eq)]
pub enum Reading {
    /// A part of the events, which are good.
    Good,
    /// A part of the events, which are bad.
    Bad,
    /// A value to compare with the objective's own.
    Threshold,
    /// The share of the events that are good.
    RawSuccess,
    /// The share of the events that are bad.
    RawFailure,
}

/// The amount of a row.
#[derive(Clone, Copy, Debug, PartialEq, Eq)]
pub enum Amount {
    /// `part` of `total` events.
    Counts { part: u32, total: u32 },
    /// A measured value, or a share of all events.
    Value(Decimal),
    /// Nothing: the source takes back what it said of the minute.
    Withdrawn,
}
