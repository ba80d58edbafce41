//! Laws of legal histories: their rows stay read, their days stay few, and each change acts once.
//! Stands on the definitions over a history, and on the laws of the crates that judge its changes.
//! Promises that a change which a legal history has already leaves all as it is the next time.
#![tactic(auto)]

pub mod laws;
