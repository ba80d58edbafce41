//! The records of a text of comma-separated values, one by one, and where such a text may be cut.
//! Stands on `csv`, a reader of RFC 4180.
//! Promises that what is read is exactly `csv_records` of the text, also where it comes in parts.
#![tactic(auto)]

mod csv_record;
mod places;
mod reader;
mod waiting_text;

pub use csv_record::Record;
pub use places::Place;
pub use reader::RecordReader;
pub use waiting_text::WaitingText;
