//! How an object is written, and how many bytes its text has.
//! Stands on the words of objects and their laws, and on the writing of nodes.
//! Promises the canonical text of each object of a document.
#![tactic(auto)]

mod writing;

pub use writing::{object_length, write_object};
