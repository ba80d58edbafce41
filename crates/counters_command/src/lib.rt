//! `counters SLI`: the sample rows of a list of counters' readings, which is CSV records.
//! Stands on `event_fields` and `counter_book`. The input is held, the rows aren't.
//! Promises that its rows, and where they end, are the definition's answer on the input's bytes.
#![tactic(auto)]

mod fault;
mod input;
pub mod laws;
mod rows;
mod running;
mod taking;

pub use fault::{CountersEnd, CountersFault, ReadingFault, counters_words};
pub use running::write_rows;

/// The most bytes of an input: those of as many readings as a book has, at 33 bytes each.
pub const MAX_INPUT_BYTES: usize = 67_108_864;
