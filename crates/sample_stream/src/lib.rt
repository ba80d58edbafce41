//! A stream of sample requests of any size: definitions, samples, corrections and a question.
//! Stands on the heads of requests, and on the sinks of the outside.
//! Promises the very bytes that the definition gives for its number, and takes no memory.
#![tactic(auto)]

mod batch;
mod documents;
mod stream;

pub use documents::{ALERT_TARGETS, SHOP};
pub use stream::{MAX_NUMBER, generate};
