//! Counts of a row by the reading of its indicator, and leaves of a slice by the budgeting method.
//! Stands on `exact_fraction` and `slo_limits`.
//! Promises the counts of the reading table, and exact leaves, ratios rounded down to billionths.
#![tactic(auto)]

mod amount;
mod method;
mod reading;

pub use amount::{Amount, Counts, Reading};
pub use method::{Method, leaf_of};
pub use reading::counts_of;
