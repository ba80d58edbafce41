//! The journal: records behind gates in one file, each on the disk before it is acknowledged.
//! Stands on disks of the outside.
//! Promises that a stop at any moment leaves a file that opens to every acknowledged record.
#![tactic(auto)]

mod fault;
mod frame;
mod header;
mod journal;
mod making;
mod numbers;
mod opening;
mod scan;
mod window;

pub use fault::{AppendFault, CreateFault, DiskFault, OpenFault, ScanFault};
pub use frame::{Frame, frame_of};
pub use journal::Journal;
pub use making::{CreateFailed, create};
pub use opening::{OpenFailed, open};
pub use scan::Scan;
