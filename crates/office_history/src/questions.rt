//! How much a question may ask for.

/// The most minutes over which sums are asked for: 400 days, so that a year fits with the month
/// before it.
pub const MAX_SUMS_MINUTES: u32 = 576_000;

/// The most sums of an answer: more than a chart has points.
pub const MAX_SUMS: u32 = 2_000;

/// The most windows of an answer: those of a year of days.
pub const MAX_WINDOWS: usize = 400;
