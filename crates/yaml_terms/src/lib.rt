//! The words of OpenSLO's documents: nodes and their spellings, and which text stands for which.
//! Stands on the limits of the office.
//! Promises, with each definition, what the crates above read and write.
#![tactic(auto)]

mod node;
mod part;
mod profile_fault;
mod scalar;
mod short_text;
mod spelling;
mod style;
mod text;
mod yaml_fault;

pub use node::{MAX_DEPTH, Node, Nodes, Pairs, is_scalar};
pub use part::Part;
pub use profile_fault::{ProfileFault, earlier};
pub use scalar::Scalar;
pub use spelling::{FieldKey, Spelling};
pub use style::{Chomping, Style};
pub use text::ScalarText;
pub use yaml_fault::YamlFault;
