//! The words of the program: which command they ask for, and with what.
//! Stands on `clap`, which parts the words of a command, and on the readers of numbers.
//! Promises that a command is asked for exactly where the words are of its form.
#![tactic(auto)]

mod forms;
mod invocation;
mod reading;

pub use invocation::{CountersOrder, InputCommand, Invocation};
pub use reading::{MAX_PARTS, WordsFault, only_reads, read_words};
