//! The canonical writing of nodes, its length, and copies of nodes.
//! Stands on the words of documents, `yaml_terms`.
//! Promises the very text that is defined, and that it reads back as the node alone.
#![tactic(auto)]

mod copy;
pub mod laws;
mod length;
mod spelling;
mod write;

pub use copy::copy_node;
pub use length::written_length;
pub use spelling::spelled;
pub use write::{write_node, write_spelling};
