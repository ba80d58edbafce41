//! A session of the office over a stream: each request is asked of a counter, and answered.
//! Stands on sessions over messages, on routes, on counters and on the spelling of answers.
//! Promises that each answer is that of its message's request, which is asked once, in order.
#![tactic(auto)]

mod clerk;
mod kit;
pub mod laws;
mod serving;

pub use kit::SessionKit;
pub use serving::{session, session_with};
