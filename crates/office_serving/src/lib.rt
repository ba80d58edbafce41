//! The serving of an office to many visitors at once, by workers that take turns at its desk.
//! Stands on workers and their doors, and on the counter that takes turns.
//! Promises that each visit is a session's, over one history that no worker forks.
#![tactic(auto)]

mod ready;
mod seats;
mod serving;

pub use serving::{ServeEnd, WORKERS, serve};
