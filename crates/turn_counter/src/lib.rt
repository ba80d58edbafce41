//! A counter that takes turns with others at an office: what each asks is one turn at a desk.
//! Stands on the desk, on the office that keeps its history, and on sessions over counters.
//! Promises that each asking is a step, and that the pass stays at its desk.
#![tactic(auto)]

mod asking;
mod counter;
mod desk_office;
pub mod laws;

pub use asking::Asking;
pub use counter::TurnCounter;
pub use desk_office::{DeskOffice, close_desk, open_desk};
