//! Sums over the slices of a range of time, kept as counts of slices and pages of their leaves.
//! Stands on `sum_pages` for leaves, on `slice_method`, `slo_terms`, `indexmap`.
//! Promises that a sum adds the leaves of whole slices, in at most 600 reads over 400 days.
#![tactic(auto)]

mod counts;
mod day;
mod emptiness;
pub mod laws;
mod range;
mod widths;
mod window_sums;

pub use widths::width_of;
pub use window_sums::WindowSums;
