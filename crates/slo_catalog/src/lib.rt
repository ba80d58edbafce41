//! The catalog of objects that is kept: what the definitions and removals of a history leave.
//! Stands on the words of catalogs, on the writing of objects and on their laws.
//! Promises of each kind and name the object defined last, and that each reference names a member.
#![tactic(auto)]

mod bindings;
mod bodies;
mod catalog;
mod definition;
mod duplicate;
mod key;
pub mod laws;
mod limits;
mod member;
mod member_list;
mod members;
mod needs_op;
mod proposal;
mod reference;
mod removal;
mod same;

pub use bodies::{condition_in, policy_in, sli_in, slo_in};
pub use catalog::Catalog;
pub use definition::{define, propose};
pub use member::Member;
pub use proposal::Proposal;
pub use removal::remove;
