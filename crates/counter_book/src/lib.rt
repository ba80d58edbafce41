//! Readings of counters that only rise and start again at 0, and the differences between them.
//! Stands on `name_numbers`, for the sources, and on one ordered map of moments.
//! Promises that what it gives, late and corrected readings too, is the differences from scratch.
#![tactic(auto)]

mod book;
mod difference;
mod judging;
pub mod laws;
mod neighbours;
mod reading;
mod writing;

pub use book::CounterBook;
pub use reading::{
    Changes, Count, CounterFault, CounterReading, Difference, Kept, Moment, Moves, Neighbours,
    NextMove, Rise, Standing, Tail,
};
