//! The entries of a history, kept as their records.
//! Stands on the records and the limits.
//! Promises the record at each place, and the feed from each position on.
#![tactic(auto)]

mod entry_records;
mod feed;
pub mod laws;
mod limits;
mod places;

pub use crate::entry_records::EntryRecords;
pub use limits::{MAX_FEED_BYTES, MAX_FEEDS_BYTES};
