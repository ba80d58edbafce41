//! Error rate, burn rate and remaining error budget of a sum of events, as exact fractions.
//! Stands on `exact_fraction`, and on `slo_terms` for the formulas.
//! Promises each answer to be the formula's value, and none exactly where no event was counted.
#![tactic(auto)]

mod alert;
mod budget;
pub mod laws;

pub use alert::{AlertRule, Flags, State, WindowPair, page_pairs, ticket_pairs};
pub use budget::{above, burn, error_rate, remaining};
