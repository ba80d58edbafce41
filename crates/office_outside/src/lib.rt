//! Traits of the outside: sources, sinks, disks, clocks, with memory forms and adapters over std.
//! It stands on std and the limits.
//! It promises that each failure has its cause in the object's own count of faults.
#![tactic(auto)]

// the traits
mod clock;
mod disk;
mod failed;
mod sink;
mod source;

// their forms
mod adapters;
mod file_disk;
mod identity;
mod memory_clock;
mod memory_disk;
mod memory_sink;
mod memory_source;
mod opened_file;
mod plan;
mod wall_clock;

pub use adapters::{Adapter, StdSink, StdSource};
pub use clock::Clock;
pub use disk::Disk;
pub use failed::Failed;
pub use file_disk::FileDisk;
pub use memory_clock::MemoryClock;
pub use memory_disk::{DiskCall, MemoryDisk};
pub use memory_sink::MemorySink;
pub use memory_source::MemorySource;
pub use plan::Plan;
pub use sink::{Sink, write_whole};
pub use source::Source;
pub use wall_clock::WallClock;
