//! Civil moments, time zones, and the starts of calendar windows.
//! Stands on `slo_duration`, and on the parts of `jiff` that read zones and add months to dates.
//! Promises what a zone says by its bytes alone, exactly the defined starts, and the last of them.
#![tactic(auto)]

mod calendar;
mod civil;
mod civil_text;
pub mod laws;
mod read;
mod windows;
mod zone;

pub use calendar::{StartsFault, has_too_many_starts, is_calendar_step, starts};
pub use civil::Civil;
pub use civil_text::{read_civil, write_civil};
pub use read::{ZoneFault, read_zone};
pub use windows::{last_start, window_at};
pub use zone::Zone;
