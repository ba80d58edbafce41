//! Laws of following.
//! Stands on the words of following, on legal histories and on records.
//! Promises that feeds of one history lead to it, and that an input has one end.
#![tactic(auto)]

pub mod laws;
