//! What makes an office anew, as requests: a thousand of them at a time, written to a sink.
//! Stands on the machine, on the requests in words, and on their texts.
//! Promises the very bytes of the requests, or the first object that is too large for one.
#![tactic(auto)]

mod bodies;
mod exporting;
mod listing;
mod requests;
mod sizes;
mod step;

pub use exporting::{ExportFault, export};
