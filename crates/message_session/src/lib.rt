//! A session: the messages of a source, each answered in its order into a sink.
//! It stands on the messages' heads and on the traits of the outside, and on no grammar of answers.
//! The trace of its turns, its end and its answers' bytes are proved to be their definition.
#![tactic(auto)]

mod buffer;
mod handler;
mod hearing;
mod serving;

pub use buffer::Buffer;
pub use handler::Handler;
pub use serving::{SessionEnd, session, session_with};
