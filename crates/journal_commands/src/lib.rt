//! The commands that make a journal, upgrade its office, serve it, follow feeds, report and export.
//! Stands on the office that keeps its history, on counters, sessions, reports and exports.
//! Promises that the file at each moment is what the command may leave, and what is printed.
#![tactic(auto)]

mod doors;
mod exporting;
mod following;
mod making;
mod migrating;
mod reporting;
mod serving;
mod writing;

pub use doors::serve_journal;
pub use exporting::{ExportEnd, export_journal};
pub use following::{FollowingEnd, follow_journal};
pub use making::{InitEnd, make_journal};
pub use migrating::{MigrateEnd, UpgradeEnd, migrate_journal};
pub use reporting::{PrintEnd, ReportEnd, print_report};
pub use serving::{PipeEnd, run_session};
