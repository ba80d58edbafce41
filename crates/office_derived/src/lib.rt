//! What is derived from a history and kept beside it, and what is found out about a command.
//! Stands on the definitions over the history, and on the crates whose values it keeps.
//! Promises nothing of changes: their crates prove that what is kept reflects the history.
#![tactic(auto)]

mod accepting;
mod derived;
mod tally;
mod verdict;
mod versions;
mod work;
mod zone_names;
mod zones;

pub use accepting::accepted;
pub use derived::Derived;
pub use tally::BatchTally;
pub use verdict::Verdict;
pub use versions::{cell_limit, row_limit};
pub use work::Work;
pub use zone_names::names_in_order;
pub use zones::Zones;
