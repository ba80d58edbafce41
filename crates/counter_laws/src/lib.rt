//! What the samples of a counter are, once its differences are sent to an office.
//! Stands on `counters_command`, and on what a history's rows count for. It has no code.
//! Promises that they are the differences from scratch, and that each minute counts for their sum.
#![tactic(auto)]

mod counting;
pub mod laws;

pub use counting::{
    the_counts_are_the_sums_of_the_differences, what_counters_wrote_counts_for_the_differences,
};
