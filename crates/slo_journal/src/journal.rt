//! Records behind gates, each on the disk before it is acknowledged.
ghost use Rattle.std.specs.Prelude.{◌≡◌, ◌⊎◌, ◌+◌, ◌^◌, ◌<◌, ◌≤◌, ◌++◌, ◌∷◌, [], List, ℕ, length};
ghost use Rattle.std.specs.Prelude.{OnOk, IfOk, None, Some, is_some, true, drop};
ghost use Rattle.office_outside.specs.Faults.{HasCauseBy};
ghost use Rattle.office_outside.specs.Disk.{LeavesOnly, OnlyAsRead, All, Always, IsQuiet};
ghost use Rattle.slo_journal.specs.File.{Stands, StandsInDoubt, Parts, Staged, Opened, EitherGate};
ghost use Rattle.slo_journal.specs.File.{frame_of, tail_of, has_open_gate};
ghost use Rattle.slo_journal.specs.Keeping.{Keeps, Doubts, Appended, Moves, Settled, Settles};
ghost use Rattle.slo_journal.specs.Keeping.{WithOrWithout, FullExactly, HasDiskCause};
ghost use Rattle.slo_limits.specs.declared.TheConstants.{MAX_JOURNAL_BYTES};

use crate::{AppendFault, DiskFault, Frame};
use office_outside::{Disk, Failed};
use slo_limits::MAX_JOURNAL_BYTES;
use std::marker::Model;

/// Where the first record's gate stands: behind the header.
pub const FIRST: u64 = 13;

/// A journal on a disk. It is seen as the disk, the place of the closed gate, and the place of the
/// gate behind a record in doubt, if there is one.
#[derive(Drop)]
pub struct Journal<D: Disk + Drop> {
    disk: D,
    tail: u64,
    doubt: Option<u64>,
}

impl<D: Disk + Drop> Model for Journal<D> {
    ghost use Rattle.slo_journal.specs.Keeping.{JournalOn, AreWithin};

    ghost Value = { JournalOn D };

    ghost view = { λ j. record { disk = j.disk; tail = j.tail; doubt = j.doubt } };

    // Each place is one at which a reader looks.
    ghost invariant = { λ j. AreWithin j.tail j.doubt };
}

impl<D: Disk + Drop> Journal<D> {
    /// Without records.
    pub(crate) fn new(disk: D) -> Journal<D>
        ensures { (result.disk ≡ disk) × (result.tail ≡ 13) × (result.doubt ≡ None) }
    {
        Journal::at_tail(disk, FIRST)
    }

    /// With its closed gate at this place.
    pub(crate) fn at_tail(disk: D, tail: u64) -> Journal<D>
        requires { tail < MAX_JOURNAL_BYTES }
        ensures { (result.disk ≡ disk) × (result.tail ≡ tail) × (result.doubt ≡ None) }
    {
        Journal {
            disk,
            tail,
            doubt: None,
        }
    }

    /// Adds a record, by two writes and two syncs. At `Ok` it is acknowledged: from then on each
    /// stop leaves a file that has it. It takes no memory.
    pub fn append(&mut self, value: &Frame) -> Result<(), AppendFault>
        requires nothing_in_doubt { self.old.doubt ≡ None }
        ensures leaves { (o : ℕ) (rs : List (List ℕ)) → Keeps D.senses o rs self.old
            → Appended D.senses o rs value.now result self.new }
        ensures any_moment { (o : ℕ) (rs : List (List ℕ)) → Keeps D.senses o rs self.old
            → LeavesOnly D.senses self.old.disk self.new.disk (WithOrWithout o rs value.now) }
        ensures moves { Moves value.now result self.old self.new }
        ensures full { FullExactly self.old.tail value.now result }
        ensures cause { HasDiskCause (D.senses.faults self.old.disk) (D.senses.faults self.new.disk)
            result }
    {
        let frame = value.bytes();
        let needed = self.tail + 1 + frame.len() as u64;
        if needed > MAX_JOURNAL_BYTES as u64 {
            return Err(AppendFault::JournalFull {
                tail: self.tail,
                needed,
            });
        }
        let Ok(()) = stage(&mut self.disk, self.tail, frame) else {
            return Err(AppendFault::NotKept);
        };
        let Ok(()) = open_gate(&mut self.disk, self.tail) else {
            self.doubt = Some(needed - 1);
            return Err(AppendFault::InDoubt);
        };
        self.tail = needed - 1;
        Ok(())
    }

    /// Whether a record is in doubt.
    pub fn in_doubt(&self) -> bool
        ensures { result ≡ is_some self.now.doubt }
    {
        self.doubt.is_some()
    }

    /// Looks whether the record in doubt is kept, by a sync and a read: it is kept where its gate
    /// is open. After a fault it is still in doubt. It takes no memory.
    pub fn settle(&mut self) -> Result<bool, DiskFault>
        requires in_doubt { is_some self.old.doubt ≡ true }
        ensures leaves { (o : ℕ) (rs : List (List ℕ)) (r : List ℕ) → Doubts D.senses o rs r self.old
            → Settled D.senses o rs r result self.new }
        ensures any_moment { (o : ℕ) (rs : List (List ℕ)) (r : List ℕ)
            → Doubts D.senses o rs r self.old
            → LeavesOnly D.senses self.old.disk self.new.disk (StandsInDoubt o rs r) }
        ensures quiet { IsQuiet D.senses self.old.disk self.new.disk }
        ensures gate { IfOk result (λ kept. (file : List ℕ)
            → D.senses.content self.old.disk ≡ Some file
            → kept ≡ has_open_gate (drop self.old.tail file)) }
        ensures settles { Settles result self.old self.new }
        ensures cause { HasCauseBy D.senses.faults self.old.disk self.new.disk result }
    {
        let Some(end) = self.doubt else {
            return Ok(false);
        };
        let Ok(kept) = look(&mut self.disk, self.tail) else {
            return Err(DiskFault);
        };
        self.doubt = None;
        if !kept {
            return Ok(false);
        }
        self.tail = end;
        Ok(true)
    }

    /// The place of the closed gate, behind the records that are acknowledged.
    pub fn tail(&self) -> u64
        ensures place { result ≡ self.now.tail }
        ensures within { result < MAX_JOURNAL_BYTES }
    {
        self.tail
    }

    /// The disk.
    pub fn give_back(self) -> D
        ensures { result ≡ self.disk }
    {
        self.disk
    }
}

/// Writes a frame behind the closed gate, and syncs.
fn stage<D: Disk>(disk: &mut D, tail: u64, frame: &[u8]) -> Result<(), Failed>
    requires room { tail + length frame.now < 2 ^ 62 }
    ensures stays { (o : ℕ) (rs : List (List ℕ)) → tail ≡ tail_of rs
        → All (Stands o rs) (D.senses.images disk.old)
        → Always D.senses disk.old disk.new (Stands o rs) }
    ensures staged { OnOk result ((o : ℕ) (rs : List (List ℕ)) (r : List ℕ) → tail ≡ tail_of rs
        → frame.now ≡ frame_of r → All (Stands o rs) (D.senses.images disk.old)
        → All (Parts (Staged r) o rs) (D.senses.images disk.new)) }
    ensures cause { HasCauseBy D.senses.faults disk.old disk.new result }
{
    disk.write_at(tail + 1, frame)?;
    disk.sync()
}

/// Opens the gate, and syncs.
fn open_gate<D: Disk>(disk: &mut D, tail: u64) -> Result<(), Failed>
    ensures either { (o : ℕ) (rs : List (List ℕ)) (r : List ℕ) → tail ≡ tail_of rs
        → All (Parts (EitherGate r) o rs) (D.senses.images disk.old)
        → Always D.senses disk.old disk.new (Parts (EitherGate r) o rs) }
    ensures opened { OnOk result ((o : ℕ) (rs : List (List ℕ)) (r : List ℕ) → tail ≡ tail_of rs
        → All (Parts (EitherGate r) o rs) (D.senses.images disk.old)
        → All (Parts (Opened r) o rs) (D.senses.images disk.new)) }
    ensures cause { HasCauseBy D.senses.faults disk.old disk.new result }
{
    disk.write_at(tail, &[1])?;
    disk.sync()
}

/// Syncs, and looks whether the gate at a place is open.
fn look<D: Disk>(disk: &mut D, at: u64) -> Result<bool, Failed>
    ensures gate { IfOk result (λ is_open. (file : List ℕ) → D.senses.content disk.old ≡ Some file
        → is_open ≡ has_open_gate (drop at file)) }
    ensures only { OnOk result (OnlyAsRead (D.senses.content disk.old) (D.senses.images disk.new)) }
    ensures quiet { IsQuiet D.senses disk.old disk.new }
    ensures content { D.senses.content disk.new ≡ D.senses.content disk.old }
    ensures cause { HasCauseBy D.senses.faults disk.old disk.new result }
{
    disk.sync()?;
    let mut gate = [0];
    let count = disk.read_at(at, &mut gate)?;
    Ok(count > 0 && gate[0] != 0)
}
