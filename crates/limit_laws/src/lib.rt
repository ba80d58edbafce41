//! Laws of the limits: each has its number, written out once more.
//! Stands on the limits, and on the room for a message that follows from two of them.
//! Promises that no limit moves without a law that is refused: all else names them, and moves too.
#![tactic(auto)]

pub mod laws;
