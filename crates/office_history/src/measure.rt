//! What an objective counts.

use exact_fraction::{Decimal, Label, Op};
use slice_method::{Method, Reading};

/// What an objective of an SLO counts, and what it aims at.
#[derive(Clone, Copy, PartialEq, Eq)]
pub struct Measure {
    /// The SLO, whose exclusions hold.
    pub slo: Label,
    /// The indicator, whose rows count.
    pub sli: Label,
    pub reading: Reading,
    /// How a value stands to the objective's own in a good event.
    pub op: Op,
    pub value: Decimal,
    pub method: Method,
    /// Below 1.
    pub target: Decimal,
}
