//! The messages in a stream of bytes: their heads, and how much of the stream is their bodies.
//! It stands on `httparse`, whose grammar of a request's head is RFC 9112's.
//! What is heard in a prefix of the stream is proved to be its definition, refusals too.
#![tactic(auto)]

mod fields;
mod first_refused;
pub mod laws;
mod message;
mod reading;
mod start;
mod target;

pub use message::{Heard, Hearing, Message};
pub use reading::{MAX_MESSAGE_BYTES, hear, read_request};
pub use target::target_of;
