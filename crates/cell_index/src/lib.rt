//! At which place a cell stands, of all that came: a name, a source and a minute.
//! Stands on `name_numbers` for the numbers of names, and on `exact_fraction`, `indexmap`,
//! `slo_terms`.
//! Promises each cell's own place, and the way along the cells of an indicator, or of its days.
#![tactic(auto)]

mod buckets;
mod cell;
mod cell_index;
mod cells;
mod chains;
mod extents;
mod pairs;
mod places;
mod turns;

pub use cell::Cell;
pub use cell_index::CellIndex;
pub use cells::Cells;
pub use chains::{Chains, Group};
