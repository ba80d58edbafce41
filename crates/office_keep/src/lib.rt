//! The office that keeps its history in a journal.
//! Stands on the machine, the journal and disks of the outside.
//! Promises that a stop at any moment leaves a file that opens to every acknowledged change.
#![tactic(auto)]

mod adopting;
mod fault;
pub mod laws;
mod office;
mod opening;
mod steps;

pub use adopting::Adopted;
pub use fault::{KeepFailed, KeepFault};
pub use office::{Office, let_go};
