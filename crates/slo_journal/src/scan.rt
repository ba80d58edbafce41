//! The records of a file, one after another.
ghost use Rattle.std.specs.Prelude.{◌≡◌, ◌+◌, ◌-◌, ◌<◌, ◌≤◌, [], List, ℕ, length, take, drop, OnOk};
ghost use Rattle.std.specs.Prelude.{OnErr, IfErr, IfOk, IsErrOf, None, Some, true, false, Ok, Err};
ghost use Rattle.office_outside.specs.Disk.{IsQuiet, OnlyAsRead};
ghost use Rattle.office_outside.specs.Faults.{RoseBy};
ghost use Rattle.slo_limits.specs.declared.TheConstants.{MAX_JOURNAL_BYTES, MAX_RECORD_BYTES};
ghost use Rattle.slo_journal.specs.File.{IsRecord};
ghost use Rattle.slo_journal.specs.Scanning.{seen_from, StandsAt, IsHead, IsNext};
ghost use Rattle.slo_journal.specs.declared.fault.OpenFault;
ghost use Rattle.slo_journal.specs.declared.fault.ScanFault.TheVariants.{DiskFault, Damaged};
ghost use Rattle.slo_journal.specs.declared.scan.Head.TheVariants.{Shut, Opens};

use crate::journal::FIRST;
use crate::numbers::number;
use crate::window::{Window, reach};
use crate::{Journal, OpenFailed, OpenFault, ScanFault};
use office_outside::Disk;
use slo_limits::MAX_RECORD_BYTES;
use std::alloc::Global;
use std::marker::Model;

/// How many bytes a record's gate and length have.
const HEAD: usize = 5;

/// Reads the records of a file, one after another. It is seen as its disk, the origin, and the
/// place of the gate that comes next.
#[derive(Drop)]
pub struct Scan<D: Disk + Drop> {
    disk: D,
    window: Window,
    origin: u32,
    at: u64,
}

impl<D: Disk + Drop> Model for Scan<D> {
    ghost use Rattle.std.specs.Prelude.{◌≡◌, ◌+◌, ◌≤◌, List, ℕ, Some, length};
    ghost use Rattle.slo_journal.specs.Scanning.{ScanOn, StandsAt};
    ghost use Rattle.slo_limits.specs.declared.TheConstants.{MAX_JOURNAL_BYTES};

    ghost Value = { ScanOn D };

    ghost view = { λ s. record { disk = s.disk; origin = s.origin; at = s.at } };

    // Where the disk tells, the window's bytes are those of the file.
    ghost invariant = { λ s. (s.at ≤ MAX_JOURNAL_BYTES)
        × (s.window.start + length s.window.bytes.items ≤ MAX_JOURNAL_BYTES)
        × ((file : List ℕ) → D.senses.content s.disk ≡ Some file
        → StandsAt s.window.start s.window.bytes.items file) };
}

impl<D: Disk + Drop> Scan<D> {
    /// At the first record's gate.
    pub(crate) fn at_first(alloc: Global, disk: D, origin: u32) -> Scan<D>
        ensures { (result.disk ≡ disk) × (result.origin ≡ origin) × (result.at ≡ 13) }
    {
        Scan {
            disk,
            window: Window::new(alloc),
            origin,
            at: FIRST,
        }
    }

    /// The first minute of the office's range.
    pub fn origin(&self) -> u32
        ensures { result ≡ self.now.origin }
    {
        self.origin
    }

    /// The place of the gate that comes next.
    pub fn at(&self) -> u64
        ensures place { result ≡ self.now.at }
        ensures within { result ≤ MAX_JOURNAL_BYTES }
    {
        self.at
    }

    /// Puts the next record into `out`, or answers false at the closed gate. After that and after a
    /// refusal `out` is empty, and the scan is where it was.
    pub fn next(&mut self, out: &mut Vec<u8>) -> Result<bool, ScanFault>
        ensures next { (file : List ℕ) → D.senses.content self.old.disk ≡ Some file
            → IsNext (seen_from self.old.at file) self.old.at result out.new.items }
        ensures moves { result ≡ Ok true → (self.new.at ≡ self.old.at + 5 + length out.new.items)
            × IsRecord out.new.items }
        ensures stays { (result ≡ Ok true → ⊥) → (self.new.at ≡ self.old.at)
            × (out.new.items ≡ []) }
        ensures within { result ≡ Ok false → self.new.at < MAX_JOURNAL_BYTES }
        ensures bound { self.new.at ≤ MAX_JOURNAL_BYTES }
        ensures origin { self.new.origin ≡ self.old.origin }
        ensures content { D.senses.content self.new.disk ≡ D.senses.content self.old.disk }
        ensures quiet { IsQuiet D.senses self.old.disk self.new.disk }
        ensures cause { IsErrOf result DiskFault
            → RoseBy D.senses.faults self.old.disk self.new.disk }
        ensures later { D.senses.faults self.old.disk ≤ D.senses.faults self.new.disk }
    {
        out.clear();
        match peek(&mut self.disk, &mut self.window, self.at)? {
            Head::Shut => Ok(false),
            Head::Broken => Err(ScanFault::Damaged { at: self.at }),
            Head::Opens(count) => {
                let whole = fill(&mut self.disk, &mut self.window, self.at, count, out)?;
                if !whole {
                    return Err(ScanFault::Damaged { at: self.at });
                }
                self.at += HEAD as u64 + count as u64;
                Ok(true)
            }
        }
    }

    /// The journal behind the records that were read, once `next` has answered false. It syncs
    /// first, so that nothing rests on bytes of which a stop leaves others than were read.
    pub fn ready(self) -> Result<Journal<D>, OpenFailed<D>>
        requires { self.at < MAX_JOURNAL_BYTES }
        ensures place { IfOk result (λ journal. (journal.tail ≡ self.at)
            × (journal.doubt ≡ None)) }
        ensures content { IfOk result (λ journal.
            D.senses.content journal.disk ≡ D.senses.content self.disk) }
        ensures only { IfOk result (λ journal.
            OnlyAsRead (D.senses.content self.disk) (D.senses.images journal.disk)) }
        ensures quiet { IfOk result (λ journal. IsQuiet D.senses self.disk journal.disk) }
        ensures later { IfOk result (λ journal. D.senses.faults self.disk
            ≤ D.senses.faults journal.disk) }
        ensures fault { IfErr result (λ e. e.fault ≡ OpenFault.DiskFault) }
        ensures quiet_err { IfErr result (λ e. IsQuiet D.senses self.disk e.disk) }
        ensures cause { IfErr result (λ e. RoseBy D.senses.faults self.disk e.disk) }
        ensures later_err { IfErr result (λ e. D.senses.faults self.disk ≤ D.senses.faults e.disk) }
    {
        let at = self.at;
        let mut disk = self.disk;
        let Ok(()) = disk.sync() else {
            return Err(OpenFailed {
                fault: OpenFault::DiskFault,
                disk,
            });
        };
        Ok(Journal::at_tail(disk, at))
    }

    /// The disk.
    pub fn give_back(self) -> D
        ensures { result ≡ self.disk }
    {
        self.disk
    }
}

/// What the first bytes at a gate's place are.
#[derive(Debug, Drop, PartialEq, Eq)]
pub enum Head {
    /// A closed gate.
    Shut,
    /// An open gate, and the length of a record.
    Opens(u32),
    /// Neither.
    Broken,
}

/// What stands at a gate's place.
fn peek<D: Disk>(disk: &mut D, window: &mut Window, at: u64) -> Result<Head, ScanFault>
    requires at { at ≤ MAX_JOURNAL_BYTES }
    requires within { window.old.start + length window.old.bytes.items ≤ MAX_JOURNAL_BYTES }
    ensures within { window.new.start + length window.new.bytes.items ≤ MAX_JOURNAL_BYTES }
    ensures holds { (file : List ℕ) → D.senses.content disk.old ≡ Some file
        → StandsAt window.old.start window.old.bytes.items file
        → StandsAt window.new.start window.new.bytes.items file }
    ensures head { IfOk result (λ head. (file : List ℕ) → D.senses.content disk.old ≡ Some file
        → StandsAt window.old.start window.old.bytes.items file
        → IsHead (take 5 (seen_from at file)) head) }
    ensures size { IfOk result (λ head. (count : ℕ) → head ≡ Opens count → (1 ≤ count)
        × (count ≤ MAX_RECORD_BYTES)) }
    ensures shut { result ≡ Ok Shut → at < MAX_JOURNAL_BYTES }
    ensures content { D.senses.content disk.new ≡ D.senses.content disk.old }
    ensures quiet { IsQuiet D.senses disk.old disk.new }
    ensures cause { IsErrOf result DiskFault → RoseBy D.senses.faults disk.old disk.new }
    ensures later { D.senses.faults disk.old ≤ D.senses.faults disk.new }
    ensures damaged { (place : ℕ) → result ≡ Err (Damaged place) → ⊥ }
{
    reach(disk, window, at, HEAD)?;
    let bytes = window.from(at);
    Ok(judge(&bytes[..bytes.len().min(HEAD)]))
}

fn judge(head: &[u8]) -> Head
    requires { length head.now ≤ 5 }
    ensures { IsHead head.now result }
{
    match head {
        [] => Head::Broken,
        [0, ..] => Head::Shut,
        [_, a, b, c, d] => {
            let count = number(&[*a, *b, *c, *d]);
            if count == 0 || count > MAX_RECORD_BYTES as u32 {
                Head::Broken
            } else {
                Head::Opens(count)
            }
        }
        _ => Head::Broken,
    }
}

/// Puts the record behind a gate and a length into `out`, where it ends within what a reader sees.
fn fill<D: Disk>(
    disk: &mut D,
    window: &mut Window,
    at: u64,
    count: u32,
    out: &mut Vec<u8>,
) -> Result<bool, ScanFault>
    requires at { at ≤ MAX_JOURNAL_BYTES }
    requires count { count ≤ MAX_RECORD_BYTES }
    requires within { window.old.start + length window.old.bytes.items ≤ MAX_JOURNAL_BYTES }
    requires empty { out.old.items ≡ [] }
    ensures within { window.new.start + length window.new.bytes.items ≤ MAX_JOURNAL_BYTES }
    ensures holds { (file : List ℕ) → D.senses.content disk.old ≡ Some file
        → StandsAt window.old.start window.old.bytes.items file
        → StandsAt window.new.start window.new.bytes.items file }
    ensures whole { result ≡ Ok true → (length out.new.items ≡ count)
        × (at + 5 + count ≤ MAX_JOURNAL_BYTES)
        × ((file : List ℕ) → D.senses.content disk.old ≡ Some file
        → StandsAt window.old.start window.old.bytes.items file
        → out.new.items ≡ take count (drop 5 (seen_from at file))) }
    ensures short { result ≡ Ok false → (out.new.items ≡ [])
        × ((file : List ℕ) → D.senses.content disk.old ≡ Some file
        → StandsAt window.old.start window.old.bytes.items file
        → length (seen_from at file) < 5 + count) }
    ensures err { OnErr result (out.new.items ≡ []) }
    ensures content { D.senses.content disk.new ≡ D.senses.content disk.old }
    ensures quiet { IsQuiet D.senses disk.old disk.new }
    ensures cause { IsErrOf result DiskFault → RoseBy D.senses.faults disk.old disk.new }
    ensures later { D.senses.faults disk.old ≤ D.senses.faults disk.new }
    ensures damaged { (place : ℕ) → result ≡ Err (Damaged place) → ⊥ }
{
    let size = HEAD + count as usize;
    reach(disk, window, at, size)?;
    let bytes = window.from(at);
    if bytes.len() < size {
        return Ok(false);
    }
    if out.extend_from_slice(&bytes[HEAD..size]).is_err() {
        return Err(ScanFault::NoMemory);
    }
    Ok(true)
}
