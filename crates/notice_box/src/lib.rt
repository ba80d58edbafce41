//! Notices of alerts: which ones a tick gives, and the box in which they wait to be taken.
//! Stands on `burn_core` for states and flags, and on `exact_fraction` for names.
//! Promises a numbered list in which each notice waits until it is taken, once.
#![tactic(auto)]

mod changes;
pub mod laws;
mod links;
mod notice;
mod notice_box;

pub use changes::plan;
pub use notice::Notice;
pub use notice_box::{NoticeBox, UnknownNotice};
