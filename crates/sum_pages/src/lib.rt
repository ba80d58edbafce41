//! Leaves of slots of time in pages of a day, with the total of each hour and of the day.
//! Stands on `slo_terms` for the sums, and on `indexmap`.
//! Promises that a leaf, an hour or a day is read in one step, and that totals follow each change.
#![tactic(auto)]

mod days;
mod page;
mod slots;
mod steps;
mod sum_pages;

pub use days::value_on;
pub use steps::Steps;
pub use sum_pages::SumPages;
