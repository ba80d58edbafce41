//! Catalogs in words: what definitions and removals make of one, and why they are refused.
//! Stands on the words of objects.
//! Promises nothing by itself: the catalog that is kept is stated by these words.
#![tactic(auto)]

mod binding;
mod fault;
mod needs_op;
mod reference;

pub use binding::Binding;
pub use fault::{CatalogFault, CatalogLimit, DefineError, RemoveError, RemoveFault};
pub use needs_op::NeedsOp;
pub use reference::Reference;
