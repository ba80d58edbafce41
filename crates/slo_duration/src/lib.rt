//! Durations in OpenSLO's shorthand, as `30d`.
//! Stands on the readers of digits of `exact_fraction`.
//! Promises which texts are durations, their rolling minutes, and that what is written reads back.
#![tactic(auto)]

mod duration;
mod read;
mod unit;
mod write;

pub use duration::{Duration, rolling_minutes};
pub use read::{DurationFault, read_duration};
pub use unit::Unit;
pub use write::write_duration;
