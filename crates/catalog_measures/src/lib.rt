//! What a catalog's SLOs count, the rules of its alert policies, and the ranges of both.
//! Stands on the definitions over a history, and on what ties the fields of objects.
//! Promises of each name what the definitions find under it, as an objective of the catalog, in the
//! ranges that sums, burn rates, alert lines and calendars ask of their arguments.
#![tactic(auto)]

mod bodies;
pub mod laws;
mod measures;
mod names;
mod rules;

pub use bodies::{reading_named, slo_named};
pub use measures::{measure_at, measures_named};
pub use names::slo_names;
pub use rules::{flags_named, rule_named};
