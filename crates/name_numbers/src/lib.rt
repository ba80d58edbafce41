//! Names that are numbered in the order in which they came.
//! Stands on `exact_fraction`, for what a name is, and on `indexmap`.
//! Promises that each name keeps its number, and that no other name has it.
#![tactic(auto)]

mod name_table;

pub use name_table::NameTable;
