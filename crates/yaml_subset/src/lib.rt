//! The YAML profile of OpenSLO documents: block text read as nodes.
//! Stands on the words of documents, `yaml_terms`, and on their lines, `yaml_lines`.
//! Promises to read exactly the profile, and to name the first fault.
#![tactic(auto)]

mod entries;
mod frame;
pub mod laws;
mod open;
mod read;
mod reader;

pub use read::read_documents;
