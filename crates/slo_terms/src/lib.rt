//! The words that many crates cite: current rows, sums over slices, error budgets.
//! Stands on `exact_fraction`; there is no code here, `specs/` is the crate.
//! Promises nothing by itself: the clauses of the crates above are stated in these words.
#![tactic(auto)]
