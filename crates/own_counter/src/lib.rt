//! A counter over an office of its own, with the places of its own entries.
//! Stands on the office that keeps its history on a disk, and on sessions over counters.
//! Promises what a stop in the course of a session leaves: its history so far, or one entry more.
#![tactic(auto)]

mod counter;
pub mod laws;

pub use counter::OwnCounter;
