//! An office that follows the feeds of another one.
//! Stands on the office that keeps its history, and on what following comes to.
//! Promises exactly that, and that a stop at any moment leaves what was followed so far.
#![tactic(auto)]

mod entries;
mod feeds;
mod following;
mod pieces;

pub use following::follow;
