//! The fields of lines without quotes, read where they stand, and the numbers that fields are.
//! Stands on `csv_records`, whose records such lines are, and on `exact_fraction`.
//! Promises that a line read so is the record that a reader of records would find there.
#![tactic(auto)]

mod ends;
mod line;
mod number;
mod places;

pub use line::{LineOfFive, LineOfSix, read_five, read_six};
pub use number::{MAX_NUMBER, read_field_number};
pub use places::{begins_as_line, rest_at, text_behind};
