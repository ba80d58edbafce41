//! Which file it is, whatever its name, and how the last writing left it.
use std::fs::{self, File, Metadata};
use std::os::unix::fs::MetadataExt;
use std::rt::Files;

/// The program's input, output and error output, as the system names them.
const INPUT: &str = "/proc/self/fd/0";

const OUTPUT: &str = "/proc/self/fd/1";

const ERROR_OUTPUT: &str = "/proc/self/fd/2";

/// A file's device, and its number on it: no two files have both.
#[derive(Clone, Copy, Debug, PartialEq, Eq)]
pub struct Identity {
    device: u64,
    number: u64,
}

impl Identity {
    /// That of the file which was looked at.
    pub fn of(found: &Metadata) -> Identity {
        Identity {
            device: found.dev(),
            number: found.ino(),
        }
    }
}

/// What the last writing into a file leaves to be seen: its moment and the file's length. A new
/// mode, owner or name of the file changes neither.
#[derive(Clone, Copy, Debug, PartialEq, Eq)]
pub struct Trace {
    seconds: i64,
    nanoseconds: i64,
    length: u64,
}

impl Trace {
    /// That of the file which was looked at.
    pub fn of(found: &Metadata) -> Trace {
        Trace {
            seconds: found.mtime(),
            nanoseconds: found.mtime_nsec(),
            length: found.len(),
        }
    }
}

/// Whether the file is the program's input, output or error output, where the system tells.
pub fn is_standard<R: Files<File = File>>(rt: &R, identity: Identity) -> bool {
    is_under(rt, INPUT, identity) || is_under(rt, OUTPUT, identity) || is_told(rt, identity)
}

/// Whether the file is the program's error output, where the system tells.
pub fn is_told<R: Files<File = File>>(rt: &R, identity: Identity) -> bool {
    is_under(rt, ERROR_OUTPUT, identity)
}

/// Whether the name stands for the file.
fn is_under<R: Files<File = File>>(rt: &R, name: &str, identity: Identity) -> bool {
    match fs::metadata(rt, name) {
        Ok(found) => Identity::of(&found) == identity,
        Err(_) => false,
    }
}
