//! How many pairs there are of an objective and a day that has rows, and whether they pass their
//! limit.
//! Stands on the book of samples and the catalog, and on the definition over a history.
//! Promises the count's test exactly, at a look-up for each SLO and each day that rows bring.
#![tactic(auto)]

mod count;
mod days;
mod limit;

pub use count::count_days;
pub use limit::passes_days_limit;
