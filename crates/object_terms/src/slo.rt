//! Objectives over time.

use crate::names::Names;
use crate::objective::Objectives;
use crate::window::TimeWindow;
use exact_fraction::{Label, Text};

/// A service level objective.
#[derive(Debug, Drop)]
pub struct Slo {
    pub description: Option<Text>,
    /// The name of a Service.
    pub service: Label,
    /// The name of an SLI: that of `indicatorRef`, or of the indicator that stood inline.
    pub indicator: Label,
    pub time_window: TimeWindow,
    pub budgeting_method: BudgetingMethod,
    pub objectives: Objectives,
    /// The names of AlertPolicies, each once.
    pub alert_policies: Option<Names>,
}

/// How a budget is counted.
#[derive(Clone, Copy, Debug, PartialEq, Eq)]
pub enum BudgetingMethod {
    Occurrences,
    Timeslices,
    RatioTimeslices,
}
