//! Workers that serve the visits of doors, each by a counter of its own in a thread of its own.
//! Stands on doors and their visits, on sessions, and on who answers requests.
//! Promises that each visit is a session's, and that what each counter knows only goes on.
#![tactic(auto)]

mod kits;
mod visits;
mod workers;

pub use kits::take_kits;
pub use visits::{WorkEnd, work};
pub use workers::{Worker, run_workers};
