//! The sums of a catalog's objectives, shared by those that count the same, kept while rows,
//! exclusions and definitions come.
//! Stands on `window_sums` for sums, `sample_book` for rows, `office_history` for what is measured.
//! Promises that the counts of each slice stay those of the rows that are current, and that
//! following them takes no memory.
#![tactic(auto)]

mod apply_plan;
mod batch;
mod by_hint;
mod counting;
mod exchange;
mod follow;
mod from_rows;
mod kept;
pub mod laws;
mod new_sums;
mod plan;
mod pool_again;
mod range;
mod same;

pub use counting::{NO_COUNTS, changes_counts, excludes_minute, row_at, row_counts};
pub use kept::{KeptSums, ObjectiveSums};
pub use plan::{ListPlan, SumsPlan, is_wanted};
pub use same::{has_same_key, is_same_measure};
