//! What a query answers over a history.
//! Stands on what is kept beside the history, and on the sums and states of objectives.
//! Promises each answer to be the history's, for all queries, or that memory ran out.
#![tactic(auto)]

mod answering;
mod asked;
mod budget_list;
mod burn_rate;
mod calendar_starts;
mod current_row;
mod entries;
mod exclusion_list;
pub mod laws;
mod notice_list;
mod object_list;
mod status;
mod sum_list;
mod sums;
mod timeline;
mod window_list;
mod window_start;
mod zone_list;

pub use answering::answer;
pub use timeline::state_of;
