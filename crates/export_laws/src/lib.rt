//! Laws of an export: what its requests make of an empty office, and what an equal office answers.
//! Stands on the requests in words, on the definitions over a history, and on its laws.
//! Promises that the requests are accepted each, and make an equal office with a legal history.
#![tactic(auto)]

pub mod laws;
