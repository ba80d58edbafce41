//! The changes of what is defined: of the catalog by definitions and removals, and of the zones.
//! Stands on the definitions over a history, on what is kept beside it, and on the catalog below.
//! Promises each verdict, what is kept after each change, the sums with it, and that a zone is put
//! once.
#![tactic(auto)]

mod copies;
mod days;
mod definition;
mod kinds;
pub mod laws;
mod objectives;
mod plans;
mod removal;
mod sums_plan;
mod zone;

pub use definition::{apply_define, judge_define};
pub use plans::room_for_plan;
pub use removal::{apply_remove, judge_remove};
pub use zone::{apply_put_zone, judge_put_zone, room_for_put_zone};
