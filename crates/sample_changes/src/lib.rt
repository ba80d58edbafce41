//! Samples, exclusions, their liftings and the upgrade, as changes of an office.
//! Stands on what is kept beside the history, on the book of samples and the limit of days.
//! Promises the judgement that the history says, and that what is kept stays what it says.
#![tactic(auto)]

mod exclusions;
mod faults;
pub mod laws;
mod samples;
mod tally;
mod upgrade;

pub use exclusions::{apply_exclude, apply_lift, judge_exclude, judge_lift, room_for_exclude};
pub use samples::{apply_samples, judge_samples, room_for_samples};
pub use upgrade::{apply_upgrade, judge_upgrade};
