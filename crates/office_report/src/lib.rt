//! The report of an office: its SLOs with their budgets and the states of their alerts.
//! Stands on the machine over a history, which answers for budgets and states.
//! Promises the one text that the definition of a report gives over the history at a minute.
#![tactic(auto)]

mod budgets;
pub mod laws;
mod lines;
mod reporting;
mod states;

pub use reporting::report;
