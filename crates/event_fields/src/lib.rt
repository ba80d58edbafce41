//! The five fields `source,minute,revision,good,total` of a CSV record, as events of a minute.
//! Stands on `csv_records`, `exact_fraction` and `plain_fields`.
//! Promises the event of a record, or the first rule that it breaks.
#![tactic(auto)]

mod event;
mod sources;

pub use event::{Event, EventFault, event_words, read_event, read_fields};
pub use sources::Sources;
