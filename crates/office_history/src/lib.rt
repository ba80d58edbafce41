//! What a history of accepted entries means: the catalog, rows, exclusions, states and notices that
//! it leaves, what a text defines over it, what becomes of a command, and what a query answers.
//! Stands on the crates whose words it joins; all else of the office is proved against it.
//! Promises nothing by itself but the laws of its definitions.
#![tactic(auto)]

mod judgement;
mod measure;
mod questions;
mod readings;

pub use judgement::Judgement;
pub use measure::Measure;
pub use questions::{MAX_SUMS, MAX_SUMS_MINUTES, MAX_WINDOWS};
pub use readings::reading_of;
