//! Who answers requests: the trait of all that share or own an office's history.
//! Stands on the machine's definitions alone.
//! Promises that each asking is one step of a legal history, which extends what was seen.
#![tactic(auto)]

mod counter;
pub mod laws;

pub use counter::Counter;
