//! `generate N`: a session of the sample stream of a number, over an office in memory.
//! Stands on the stream, on sessions over counters and on the office that keeps its history.
//! Promises the summary of the session that the definitions give for the stream.
#![tactic(auto)]

mod generating;
mod playing;
mod summary;
mod tally;
mod tallying;

pub use generating::generated_summary;
