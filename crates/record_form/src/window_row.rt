//! A window of an SLO's calendar as it is told.

use crate::budget_row::BudgetRows;
use crate::listed::Listed;

/// The budgets of an SLO's objectives over one window of its calendar. Minutes are counted since
/// 1970-01-01T00:00Z.
#[derive(Drop)]
pub struct WindowRow {
    pub budgets: BudgetRows,
    /// Where the window begins.
    pub from: u32,
    /// Where the next window begins, none where the calendar has no later one.
    pub to: Option<u32>,
}

/// Windows in order.
pub type WindowRows = Listed<WindowRow>;
