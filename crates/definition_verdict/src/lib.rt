//! Whether the objects of a text can be defined in an office, judged in one place.
//! Stands on the words of a history, on the readers of documents and objects, and on the catalog.
//! Promises the first refusal in the order text, documents, catalog, zones, samples, limits, and
//! one verdict a text.
#![tactic(auto)]

mod catalog_refusal;
mod definition;
mod documents;
pub mod laws;
mod readings;
mod starts;
mod zones;

pub use definition::{Definition, VerdictError, judge_definition};
