//! The commands of the program, and the top call.
//! Stands on `command_words`, and on the crates of the single commands.
//! Promises by `run`: what a command prints and leaves is the definition's answer.
#![tactic(auto)]

mod answer;
mod counters;
mod ending;
mod export;
mod faults_sink;
mod follow;
mod generate;
mod init;
mod input;
pub mod laws;
mod migrate;
mod pipe;
mod report;
mod running;
mod serve;
mod unopened;

pub use ending::DISK_FAULT;
pub use faults_sink::run_out_of_memory;
pub use generate::GenerateEnd;
pub use running::{RunEnd, run};
