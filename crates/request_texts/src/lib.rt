//! Requests as the program writes them: heads, and lines that are made without memory.
//! Stands on the sinks of the outside.
//! Promises the very bytes of the definition, and takes no memory.
#![tactic(auto)]

mod heads;
mod line;
mod writing;

pub use heads::{MAX_TARGET_BYTES, head, named_head};
pub use line::{Line, MAX_LINE_BYTES};
pub use writing::write_both;
