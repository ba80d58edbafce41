//! What is asked of an office, what it answers, and its entries as bytes.
//! Stands on the types of samples, objects and notices below.
//! Promises the record of each entry, which is read back whatever follows, and no other bytes are.
#![tactic(auto)]

mod budget_row;
mod command;
mod cursor;
mod entry;
mod fields;
pub mod laws;
mod limit_name;
mod listed;
mod outcome;
mod query;
mod reading;
mod refusal;
mod status;
mod window_row;
mod writing;
mod yaml_word;

pub use budget_row::{BudgetRow, BudgetRows};
pub use command::{Command, Rows};
pub use entry::Entry;
pub use fields::MAX_EXCLUDED_MINUTE;
pub use limit_name::LimitName;
pub use listed::Listed;
pub use outcome::{ExclusionRows, Intervals, NoticeRows, ObjectNames, Outcome, SumList, ZoneNames};
pub use query::{Query, Request};
pub use reading::read_record;
pub use refusal::Refusal;
pub use status::{OfficeStatus, Used};
pub use window_row::{WindowRow, WindowRows};
pub use writing::{write_command, write_record};
pub use yaml_word::YamlWord;
