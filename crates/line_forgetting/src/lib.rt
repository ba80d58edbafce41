//! What the lines of alerts forget before the sums of their objective change.
//! Stands on `alert_line` for lines, and on `kept_sums` for the slices that rows touch.
//! Promises that a line agrees with the new sums, and that it forgets nothing else.
#![tactic(auto)]

mod batch;
mod exclusion;
pub mod laws;
mod moves;
mod right_lines;
mod run;
mod whole;

pub use batch::{earliest_minute, forget_near_batch};
pub use exclusion::forget_near_exclusion;
pub use moves::{IndicatorMoves, MovedMinutes};
pub use right_lines::{
    lines_stay_right_over_batches, lines_stay_right_over_exclusions,
    lines_stay_right_where_minutes_are_alike, right_lines_agree,
};
