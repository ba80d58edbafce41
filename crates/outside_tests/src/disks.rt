//! What no clause says of the disk in memory: that calls succeed, and which images can be had.
//! A script has a file and the numbers of the calls that fail, and then the calls with what comes
//! of each. In what comes `_` is a byte 0.
use crate::rows::{expect_row, numbers_of};
use office_outside::{Disk, Failed, MemoryDisk, Plan};
use std::alloc::{AllocError, Global};
use std::process::Abort;

/// A disk by the first line of a script.
fn disk_of(alloc: Global, line: &str) -> Result<MemoryDisk, AllocError> {
    let (file, failing) = line.split_once(' ').unwrap_or((line, ""));
    let plan = Plan::new(numbers_of(alloc, failing)?, Vec::new(alloc));
    MemoryDisk::new(alloc, Vec::from_slice(alloc, file.as_bytes())?, plan)
}

/// Bytes as letters.
fn letters(alloc: Global, bytes: &[u8]) -> Result<String, AllocError> {
    String::from_utf8_lossy(alloc, bytes)?.replace(alloc, "\0", "_")
}

fn done(alloc: Global, outcome: Result<(), Failed>) -> Result<String, AllocError> {
    String::from_str(alloc, if outcome.is_ok() { "done" } else { "failed" })
}

/// How many of four bytes a read gives, and the bytes.
fn read(alloc: Global, disk: &mut MemoryDisk, at: u64) -> Result<String, AllocError> {
    let mut piece = *b"....";
    let count = disk.read_at(at, &mut piece);
    let bytes = letters(alloc, &piece)?;
    match count {
        Ok(count) => format!(in alloc; "{count} {bytes}"),
        Err(_) => format!(in alloc; "failed {bytes}"),
    }
}

/// The image of a stop after so many calls that is nearest to the wanted bytes.
fn image(alloc: Global, disk: &MemoryDisk, calls: u64, wanted: &str) -> Result<String, AllocError> {
    let image = disk.after_stop(calls as usize, wanted.as_bytes())?;
    letters(alloc, &image)
}

/// What comes of a line's call.
fn call(alloc: Global, disk: &mut MemoryDisk, line: &str) -> Result<String, AllocError> {
    let mut words = line.split_ascii_whitespace();
    let name = words.next().unwrap_or("");
    let number = words.next().unwrap_or("").parse::<u64>().unwrap_or(0);
    let text = words.next().unwrap_or("");
    match name {
        "write" => done(alloc, disk.write_at(number, text.as_bytes())),
        "sync" => done(alloc, disk.sync()),
        "read" => read(alloc, disk, number),
        "stop" => image(alloc, disk, number, text),
        _ => letters(alloc, disk.bytes()),
    }
}

/// Plays a script.
fn play(rt: &(impl AllocGlobal + Abort), script: &str) {
    let (first, lines) = script.split_once('\n').expect(rt, "a disk");
    let mut disk = disk_of(rt.alloc(), first).expect(rt, "memory");
    for line in lines.lines() {
        let (text, wanted) = line.split_once(" => ").expect(rt, "an outcome");
        let told = call(rt.alloc(), &mut disk, text).expect(rt, "memory");
        expect_row(rt, text, &told, wanted);
    }
}

#[test]
fn a_disk_reads_what_was_written(rt: HostRuntime) {
    let script = "\
abc 2 5
write 5 xy => done
write 1 z => done
write 0 lost => failed
file => azc__xy
read 0 => 4 azc_
read 4 => 3 _xy.
read 0 => failed ....
read 7 => 0 ....";
    play(&rt, script);
}

#[test]
fn a_stop_leaves_any_bytes_where_nothing_was_synced(rt: HostRuntime) {
    let script = "\
abcd 1 2
write 1 xy => done
write 6 z => failed
sync => failed
write 0 q => done
sync => done
stop 0 00000000 => abcd
stop 1 => abcd
stop 1 00000000 => a00d
stop 1 ay => aycd
stop 2 00000000 => a00d000
stop 2 axydz => axydz
stop 3 00000000 => a00d000
stop 4 00000000 => 000d000
stop 5 00000000 => qxyd
stop 99 => qxyd";
    play(&rt, script);
}
