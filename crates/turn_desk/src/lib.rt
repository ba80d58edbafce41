//! A desk at which threads take turns with one value, so that its changes have one history.
//! It stands on `atomic_table`, and on no other crate of this repository.
//! It promises passes one history, in which each new entry is one of theirs, and of no two.
#![tactic(auto)]

mod bell;
mod desk;
mod ledgered;
mod numbers;
mod pass;
mod rule;
#[cfg(test)]
mod tests;
mod turn;
mod view;

pub use desk::{Desk, DeskFailed};
pub use ledgered::{Call, Ledgered};
pub use numbers::{Add, Numbers, Read};
pub use pass::Pass;
pub use view::{Doubt, Opening};
