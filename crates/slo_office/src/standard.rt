//! The program's input, output and error output, which are open before anything else is opened.
use std::fs::{File, OpenOptions};
use std::io;
use std::os::fd::AsRawFd;
use std::rt::Files;

const NULL_DEVICE: &str = "/dev/null";

const FOLDER: &str = ".";

/// The number of the error output, the last of the three.
const LAST: i32 = 2;

/// Files that stand in for those of the three that are closed. They are kept for the whole run.
///
/// A program may be started with its input, output or error output closed. The system gives a file
/// that is opened the lowest number that is free: were that the journal, what the program says
/// would be written over it, and its bytes be read as requests. So before anything else is opened
/// the free numbers among the three are taken: an input has nothing then, and an output is let go.
/// Where there is no null device the working folder takes them, which nobody reads or writes as a
/// file: an input or output is then one that fails.
///
/// # Errors
///
/// Neither could be opened. No other file may be opened then.
pub fn stand_in<R: Files<File = File>>(rt: &R) -> io::Result<[Option<File>; 3]> {
    Ok([take_next(rt)?, take_next(rt)?, take_next(rt)?])
}

/// Takes the lowest free number, where it is one of the three.
fn take_next<R: Files<File = File>>(rt: &R) -> io::Result<Option<File>> {
    let null = OpenOptions::new()
        .read(true)
        .write(true)
        .open(rt, NULL_DEVICE);
    let file = match null {
        Ok(file) => file,
        Err(_) => File::open(rt, FOLDER)?,
    };
    if file.as_raw_fd() <= LAST {
        Ok(Some(file))
    } else {
        Ok(None)
    }
}
