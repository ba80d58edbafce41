//! The answers that a message gets before the office is asked, as of a wrong route or body.
//! Stands on nothing; the reading of routes gives them, the writing of replies spells them.
//! Promises nothing by itself.
#![tactic(auto)]

mod no_request;

pub use no_request::{Allow, NoRequest};
