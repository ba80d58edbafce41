//! Alert conditions.

use crate::ranges::{AlertAfter, Lookback, Threshold};
use exact_fraction::{Op, Text};

/// A condition under which an alert is told.
#[derive(Debug, Drop)]
pub struct AlertCondition {
    pub description: Option<Text>,
    pub severity: Text,
    pub condition: Condition,
}

/// What has to hold, and for how long.
#[derive(Debug, Drop)]
pub struct Condition {
    /// Omitted is `burnrate`.
    pub kind: Option<ConditionKind>,
    /// Omitted is `gte`.
    pub op: Option<Op>,
    pub threshold: Threshold,
    pub lookback_window: Lookback,
    /// Omitted is `0m`.
    pub alert_after: Option<AlertAfter>,
}

/// What a condition is about.
#[derive(Clone, Copy, Debug, PartialEq, Eq)]
pub enum ConditionKind {
    Burnrate,
}
