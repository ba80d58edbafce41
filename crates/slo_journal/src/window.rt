//! A piece of the file, so that many records are read by one call of the disk.
ghost use Rattle.std.specs.Prelude.{◌≡◌, ◌+◌, ◌-◌, ◌≤◌, ◌<◌, List, ℕ, [], length, take, drop, OnOk};
ghost use Rattle.std.specs.Prelude.{OnErr, IsErrOf, Some, Err};
ghost use Rattle.office_outside.specs.Disk.{IsQuiet};
ghost use Rattle.office_outside.specs.Faults.{RoseBy};
ghost use Rattle.slo_limits.specs.declared.TheConstants.{MAX_JOURNAL_BYTES, MAX_RECORD_BYTES};
ghost use Rattle.slo_journal.specs.Scanning.{seen_from, StandsAt};
ghost use Rattle.slo_journal.specs.declared.fault.ScanFault.TheVariants.{DiskFault, Damaged};

use crate::ScanFault;
use office_outside::Disk;
use slo_limits::MAX_JOURNAL_BYTES;
use std::alloc::Global;

/// How many bytes are read at first, and at most, if not more are needed: a short file takes little
/// memory, and a long one few calls.
const FIRST_PIECE: usize = 4_096;

const PIECE: usize = 1_048_576;

/// Bytes of a file, with the place at which they stand.
#[derive(Drop)]
pub struct Window {
    bytes: Vec<u8>,
    start: u64,
}

impl Window {
    /// No bytes yet. It takes no memory.
    pub fn new(alloc: Global) -> Window
        ensures { (result.bytes.items ≡ []) × (result.start ≡ 0) }
    {
        Window {
            bytes: Vec::new(alloc),
            start: 0,
        }
    }

    /// Its bytes from a place on.
    pub fn from(&self, at: u64) -> &[u8]
        requires { self.now.start ≤ at }
        ensures { result.now ≡ drop (at - self.now.start) self.now.bytes.items }
    {
        let offset = (at - self.start) as usize;
        &self.bytes[offset.min(self.bytes.len())..]
    }
}

/// Lets the window have so many bytes from a place on, or all that a reader sees there.
pub fn reach<D: Disk>(
    disk: &mut D,
    window: &mut Window,
    at: u64,
    need: usize,
) -> Result<(), ScanFault>
    requires at { at ≤ MAX_JOURNAL_BYTES }
    requires need { need ≤ MAX_RECORD_BYTES + 5 }
    requires within { window.old.start + length window.old.bytes.items ≤ MAX_JOURNAL_BYTES }
    ensures within { window.new.start + length window.new.bytes.items ≤ MAX_JOURNAL_BYTES }
    ensures holds { (file : List ℕ) → D.senses.content disk.old ≡ Some file
        → StandsAt window.old.start window.old.bytes.items file
        → StandsAt window.new.start window.new.bytes.items file }
    ensures starts { OnOk result (window.new.start ≤ at) }
    ensures seen { OnOk result ((file : List ℕ) → D.senses.content disk.old ≡ Some file
        → StandsAt window.old.start window.old.bytes.items file
        → take need (drop (at - window.new.start) window.new.bytes.items)
        ≡ take need (seen_from at file)) }
    ensures content { D.senses.content disk.new ≡ D.senses.content disk.old }
    ensures quiet { IsQuiet D.senses disk.old disk.new }
    ensures cause { IsErrOf result DiskFault → RoseBy D.senses.faults disk.old disk.new }
    ensures later { D.senses.faults disk.old ≤ D.senses.faults disk.new }
    ensures damaged { (place : ℕ) → result ≡ Err (Damaged place) → ⊥ }
{
    let end = at + need as u64;
    if window.start <= at && end <= window.start + window.bytes.len() as u64 {
        return Ok(());
    }
    let size = next_size(window.bytes.len(), need).min(MAX_JOURNAL_BYTES - at as usize);
    refill(disk, window, at, size)
}

/// How many bytes are read next: twice as many as the last time.
fn next_size(last: usize, need: usize) -> usize
    ensures { need ≤ result }
{
    last.saturating_mul(2).max(FIRST_PIECE).min(PIECE).max(need)
}

/// Reads so many bytes, or to the file's end.
fn refill<D: Disk>(disk: &mut D, window: &mut Window, at: u64, size: usize) -> Result<(), ScanFault>
    requires room { at + size ≤ MAX_JOURNAL_BYTES }
    ensures start { window.new.start ≡ at }
    ensures few { length window.new.bytes.items ≤ size }
    ensures empty { OnErr result (window.new.bytes.items ≡ []) }
    ensures bytes { OnOk result ((file : List ℕ) → D.senses.content disk.old ≡ Some file
        → window.new.bytes.items ≡ take size (drop at file)) }
    ensures content { D.senses.content disk.new ≡ D.senses.content disk.old }
    ensures quiet { IsQuiet D.senses disk.old disk.new }
    ensures cause { IsErrOf result DiskFault → RoseBy D.senses.faults disk.old disk.new }
    ensures later { D.senses.faults disk.old ≤ D.senses.faults disk.new }
    ensures damaged { (place : ℕ) → result ≡ Err (Damaged place) → ⊥ }
{
    window.start = at;
    window.bytes.clear();
    if window.bytes.resize(size, 0).is_err() {
        return Err(ScanFault::NoMemory);
    }
    let Ok(count) = disk.read_at(at, &mut window.bytes) else {
        window.bytes.clear();
        return Err(ScanFault::DiskFault);
    };
    window.bytes.truncate(count);
    Ok(())
}
