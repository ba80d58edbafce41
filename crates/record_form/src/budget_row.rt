//! The budget of an objective as it is told.

use crate::listed::Listed;
use exact_fraction::Fraction;

/// The error budget of one objective over its window. Burn, error and remaining are none exactly
/// where `den` is 0.
#[derive(Clone, Copy, PartialEq, Eq)]
pub struct BudgetRow {
    /// The error rate over the rate that the target allows.
    pub burn: Option<Fraction>,
    /// What was counted in the window.
    pub den: u64,
    /// The part that wasn't good.
    pub error: Option<Fraction>,
    /// The first minute of the window, since 1970-01-01T00:00Z.
    pub from: u32,
    /// What was good.
    pub num: u64,
    /// The objective's number in its SLO, from 0.
    pub objective: u32,
    /// What is left of the budget: 1 - burn.
    pub remaining: Option<Fraction>,
}

/// The budgets of an SLO's objectives, by their numbers.
pub type BudgetRows = Listed<BudgetRow>;
