//! The answers of the office as bytes: their bodies in JSON, and the heads of HTTP around them.
//! Stands on what a request comes to, on JSON's own text and on the sinks of the outside.
//! Promises the exact bytes of each answer, and that the short ones are made without memory.
#![tactic(auto)]

mod bodies;
mod fullness;
mod immediate;
mod in_json;
mod inline_bytes;
pub mod laws;
mod refusals;
mod rendering;
mod reply;
mod small;
mod writing;

pub use immediate::{bad_message, immediate_reply};
pub use inline_bytes::InlineBytes;
pub use rendering::render;
pub use reply::{Form, Reply, SmallBody};
pub use writing::write_reply;
