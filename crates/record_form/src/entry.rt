//! Entries of the history.

use crate::command::Command;

/// An accepted change, and when it was made.
#[derive(Drop)]
pub struct Entry {
    /// Minutes since 1970-01-01T00:00Z.
    pub moment: u32,
    pub command: Command,
}
