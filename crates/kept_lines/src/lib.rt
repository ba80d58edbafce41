//! The lines of a catalog's alerts, what its bindings watch, and the sums of its objectives.
//! Stands on the sums that are kept beside a history, and on what lines have to forget.
//! Promises of each slice the leaf that the history gives it, and of each binding its state.
#![tactic(auto)]

mod apply_plan;
mod binding_walk;
mod carried;
mod forget;
mod kept;
mod line_answers;
mod plan;
mod same;
mod states;
mod sums;
mod watch;

pub use kept::{KeptLines, WatchLine};
pub use plan::{LinesPlan, plan_lines};
pub use states::states_over;
pub use sums::objective_sums;
pub use watch::{Watch, same_binding, watch_of, watched};
