//! `check`: whether the OpenSLO documents of an input can be defined together, and how many there
//! are.
//! Stands on `definition_verdict`: they are judged as a definition in an office that keeps nothing.
//! Promises that its lines, or why the input is refused, are the definition's answer on its bytes.
#![tactic(auto)]

mod answer;
mod fault;
pub mod laws;

pub use answer::{answer_check, too_large_text};
pub use fault::{CheckError, check_words};
