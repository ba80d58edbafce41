//! `budget TARGET FROM TO`: the error budget of the samples of an input, which is CSV records.
//! Stands on `event_fields`, `csv_records`, `sample_book`, `burn_core`. The text isn't held.
//! Promises that its lines, or why the input is refused, are the definition's answer on its bytes.
#![tactic(auto)]

mod answer;
mod drafts;
mod fault;
mod input;
mod judging;
pub mod laws;
mod order;
mod row;
mod table;
mod text;

pub use answer::answer_budget;
pub use fault::{BudgetError, BudgetFault, RecordFault, budget_words};
pub use order::{BudgetOrder, read_budget, read_order};

/// The most bytes of an input: those of as many rows as there may be cells, at 33 bytes each.
pub const MAX_INPUT_BYTES: usize = 67_108_864;
