//! Events read off plain lines, each byte looked at once.
//! Stands on `event_fields` for what an event is, and on `plain_fields` for what a line is.
//! Promises the event of the record that a reader of records would find there.
#![tactic(auto)]

mod line;
mod number;

pub use line::{EventLine, read_event_line};
