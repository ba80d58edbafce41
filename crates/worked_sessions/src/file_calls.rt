//! The disk over a real file and the machine's clock, call by call, as a text says: in it a call in
//! braces stands for what comes of it, and `\` for a line's end.

use crate::series::push_lines;
use office_outside::{Clock, Disk, Failed, FileDisk, WallClock};
use std::alloc::AllocError;
use std::os::unix::fs::MetadataExt;
use std::rt::{self, Files};
use std::time::{SystemTime, UNIX_EPOCH};
use std::{fs, io, str};

/// The name of the disk's file.
const NAME: &str = "office.journal";

/// Where the file is put, and where another is made.
const AWAY: &str = "away";

const OTHER: &str = "other";

/// Disks over the file, in the order in which they were made. They touch nothing before their first
/// call.
#[derive(Drop)]
struct Disks {
    host: HostRuntime,
    disks: Vec<FileDisk<HostRuntime>>,
}

/// The word for what is so or isn't.
fn flag(is_so: bool) -> &'static str {
    if is_so { "true" } else { "false" }
}

/// How a call ended.
fn end_of(outcome: Result<(), Failed>) -> &'static str {
    match outcome {
        Ok(()) => "done",
        Err(Failed) => "failed",
    }
}

/// The number that a text says.
fn number_in(text: &str) -> u64 {
    text.parse::<u64>().unwrap_or(0)
}

/// Appends what a read of eight bytes gives.
fn push_read<D: Disk>(disk: &mut D, out: &mut String, at: u64) -> Result<(), AllocError> {
    let mut piece = [0; 8];
    let Ok(count) = disk.read_at(at, &mut piece) else {
        return out.push_str("failed");
    };
    let text = str::from_utf8(&piece[..count]).unwrap_or("no text");
    out.push('[')?;
    out.push_str(text)?;
    out.push(']')
}

/// How a write ends, as in `0 journal`.
fn written<D: Disk>(disk: &mut D, text: &str) -> &'static str {
    let (at, piece) = text.split_once(" ").unwrap_or((text, ""));
    end_of(disk.write_at(number_in(at), piece.as_bytes()))
}

/// Makes a call of a disk: `read AT`, `write AT TEXT` or `sync`.
fn call_disk<D: Disk>(disk: &mut D, out: &mut String, call: &str) -> Result<(), AllocError> {
    let (word, rest) = call.split_once(" ").unwrap_or((call, ""));
    match word {
        "read" => push_read(disk, out, number_in(rest)),
        "write" => out.push_str(written(disk, rest)),
        _ => out.push_str(end_of(disk.sync())),
    }
}

/// Puts another file in the place of the disk's.
fn replace<R: Files>(rt: &R) -> io::Result<()> {
    fs::write(rt, OTHER, "journals")?;
    fs::rename(rt, OTHER, NAME)
}

/// The number of tries in which the file system's clock is taken to have moved on.
const TRIES: u32 = 1_000_000;

/// When the file of a name was written last.
fn written_at<R: Files>(rt: &R, name: &str) -> io::Result<(i64, i64)> {
    let found = fs::metadata(rt, name)?;
    Ok((found.mtime(), found.mtime_nsec()))
}

/// Waits until what is written has another time of modification than the disk's file: the clock of
/// a file system may stand for some milliseconds.
fn wait_for_the_clock<R: Files>(rt: &R) -> io::Result<()> {
    let before = written_at(rt, NAME)?;
    for _ in 0..TRIES {
        fs::write(rt, OTHER, "later")?;
        if written_at(rt, OTHER)? != before {
            break;
        }
    }
    fs::remove_file(rt, OTHER)
}

/// What others do to the file.
fn do_to_file<R: Files>(rt: &R, deed: &str, text: &str) -> io::Result<()> {
    match deed {
        "put" => fs::write(rt, NAME, text),
        "remove" => fs::remove_file(rt, NAME),
        "move" => fs::rename(rt, NAME, AWAY),
        "back" => fs::rename(rt, AWAY, NAME),
        "replace" => replace(rt),
        "later" => wait_for_the_clock(rt),
        "folder" => fs::create_dir(rt, NAME),
        _ => fs::remove_dir(rt, NAME),
    }
}

/// Whether there is a file.
fn there<R: Files>(rt: &R) -> &'static str {
    match fs::exists(rt, NAME) {
        Ok(true) => "there",
        Ok(false) => "not there",
        Err(_) => "unknown",
    }
}

/// Appends what stands in the file.
fn push_file(host: HostRuntime, out: &mut String) -> Result<(), AllocError> {
    match fs::read_to_string(&host, NAME) {
        Ok(text) => out.push_str(text.as_str()),
        Err(_) => out.push_str("nothing"),
    }
}

/// The minute that the system tells.
fn system_minute<R: rt::Clock>(rt: &R) -> Option<u64> {
    let now = SystemTime::now(rt).ok()?;
    let since = now.duration_since(UNIX_EPOCH).ok()?;
    Some(since.as_secs() / 60)
}

/// What is said of two readings of the clock, which stand between two of the system's.
fn clock(host: HostRuntime) -> &'static str {
    let mut clock = WallClock::new(host);
    let Some(before) = system_minute(&host) else {
        return "no time";
    };
    let first = u64::from(clock.minute());
    let second = u64::from(clock.minute());
    let Some(after) = system_minute(&host) else {
        return "no time";
    };
    if before <= first && first <= second && second <= after {
        "between"
    } else {
        "not between"
    }
}

/// Takes the file away, where there is one.
fn clear<R: Files>(rt: &R) {
    let _ = fs::remove_file(rt, NAME);
    let _ = fs::remove_file(rt, AWAY);
}

/// What comes of a call that isn't a disk's.
fn called(host: HostRuntime, word: &str, rest: &str) -> &'static str {
    match word {
        "there" => there(&host),
        "clock" => clock(host),
        "errors" => flag(FileDisk::is_error_output(&host)),
        _ => flag(do_to_file(&host, word, rest).is_ok()),
    }
}

impl Disks {
    /// Makes a disk for changes, or one that reads alone.
    fn add(&mut self, only_reads: bool) -> Result<(), AllocError> {
        self.disks.push(FileDisk::new(self.host, only_reads))?;
        Ok(())
    }

    /// Lets go of a disk; those behind it move up.
    fn let_go(&mut self, number: usize) {
        if number < self.disks.len() {
            drop(self.disks.remove(number));
        }
    }

    /// Makes a call of a disk.
    fn call_disk(&mut self, out: &mut String, number: usize, call: &str) -> Result<(), AllocError> {
        match self.disks.get_mut(number) {
            Some(disk) => call_disk(disk, out, call),
            None => Ok(()),
        }
    }

    /// Makes a call, and appends what comes of it.
    fn call(&mut self, out: &mut String, call: &str) -> Result<(), AllocError> {
        let (word, rest) = call.split_once(" ").unwrap_or((call, ""));
        if let Ok(number) = word.parse::<usize>() {
            return self.call_disk(out, number, rest);
        }
        match word {
            "changes" => self.add(false),
            "alone" => self.add(true),
            "drop" => {
                self.let_go(rest.parse::<usize>().unwrap_or(0));
                Ok(())
            }
            "file" => push_file(self.host, out),
            _ => out.push_str(called(self.host, word, rest)),
        }
    }

    /// Appends a part of a text, which begins with a call.
    fn push_part(&mut self, out: &mut String, part: &str) -> Result<(), AllocError> {
        let Some((call, plain)) = part.split_once("}") else {
            return push_lines(out, part, "\n");
        };
        self.call(out, call)?;
        push_lines(out, plain, "\n")
    }

    /// Appends a text.
    fn push_text(&mut self, out: &mut String, text: &str) -> Result<(), AllocError> {
        for part in text.split("{") {
            self.push_part(out, part)?;
        }
        out.push('\n')
    }
}

/// Appends what comes of the calls of a text, over disks that it makes.
fn push_with_disks(host: HostRuntime, out: &mut String, text: &str) -> Result<(), AllocError> {
    let mut disks = Disks {
        host,
        disks: Vec::new(host.alloc()),
    };
    disks.push_text(out, text)
}

/// Appends what comes of the calls of a text, which begin without a file and leave none.
pub fn push_calls(host: HostRuntime, out: &mut String, text: &str) -> Result<(), AllocError> {
    clear(&host);
    let pushed = push_with_disks(host, out, text);
    clear(&host);
    pushed
}
