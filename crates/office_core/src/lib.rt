//! The machine of an office: its history, and what is derived from it.
//! Stands on the crates that judge and do each group of commands, and on the records of entries.
//! Promises that each verdict, entry and answer is the one that its definition gives over the whole
//! history.
#![tactic(auto)]

mod commands;
mod lines;
mod machine;

pub use machine::{Core, Prepared};
