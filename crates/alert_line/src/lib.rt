//! The condition of an alert, remembered minute by minute, and when the alert is active.
//! Stands on `burn_core` for rules and conditions and on `window_sums` for the sums they are of.
//! Promises each answer to be the condition's, whatever was known, and no step for what was known.
#![tactic(auto)]

mod bits;
mod cursor;
mod late;
pub mod laws;
mod line;
mod minutes;
mod spans;
mod summed;
mod window;

pub use line::AlertLine;
pub use spans::Spans;
pub use summed::SummedWindows;
