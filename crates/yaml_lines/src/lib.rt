//! The lines of OpenSLO's documents: what each says by itself, and its fault.
//! Stands on the words of documents, `yaml_terms`.
//! Promises to read each line as its definition, and one-line lists in YAML's own words.
#![tactic(auto)]

mod block;
mod bytes;
mod flow;
mod inline;
pub mod laws;
mod line;
mod mark;
mod quoted;
mod scalar;

pub use block::Block;
pub use bytes::{byte_at, from};
pub use line::line_of;
pub use mark::{Line, Mark};
pub use scalar::{raw_fault, scalar_with, takes};
