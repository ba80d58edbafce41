//! Samples that arrive late, repeated and corrected, and the exclusions that are made afterwards.
//! Stands on `cell_index` for where cells stand, on `exact_fraction`, `slice_method`, `slo_terms`.
//! Promises each cell's row of the greatest revision, and the excluded minutes, of all that came.
#![tactic(auto)]

mod batch;
mod book;
mod current_rows;
mod exclusions;
pub mod laws;
mod reaches;
mod row;
mod stored;
mod stored_rows;
mod tally;

pub use book::SampleBook;
pub use current_rows::CurrentRows;
pub use exclusions::Exclusion;
pub use reaches::ExclusionHint;
pub use row::{Row, RowVerdict};
