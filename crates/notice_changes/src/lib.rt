//! Ticks, which tell how alerts have changed, and the taking of their notices.
//! Stands on what is kept beside the history, and on the states of its bindings.
//! Promises of each tick and taking the judgement that the history gives, and what it leaves.
#![tactic(auto)]

mod changes;
pub mod laws;
mod notices;
mod take;
mod tick;

pub use take::{apply_take, judge_take};
pub use tick::{apply_tick, judge_tick, room_for_tick};
