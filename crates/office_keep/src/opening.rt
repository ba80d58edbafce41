//! The opening of an office: the records of the file, each of them judged behind those before it.
ghost use Rattle.std.specs.Prelude.{◌≡◌, ◌<◌, ◌≤◌, List, ℕ, OnOk, IfOk, IsErrOf, Ok, Err, Some};
ghost use Rattle.std.specs.Prelude.{true, false};
ghost use Rattle.office_outside.specs.Disk.{IsQuiet};
ghost use Rattle.office_outside.specs.Faults.{RoseBy};
ghost use Rattle.record_form.specs.declared.Entry.{Entry};
ghost use Rattle.record_form.specs.Ranges.{IsRecord};
ghost use Rattle.office_history.specs.History.{with_entry};
ghost use Rattle.office_history.specs.Legal.{MayFollow};
ghost use Rattle.slo_journal.specs.File.{tail_of};
ghost use Rattle.office_keep.specs.Files.{IsDamagedAt, StandsFor, WalksOver, records};
ghost use Rattle.office_keep.specs.declared.fault.KeepFault.TheVariants.{AlreadyThere, Damaged};
ghost use Rattle.office_keep.specs.declared.fault.KeepFault.TheVariants.{DiskFault, NotAJournal};
ghost use Rattle.slo_limits.specs.declared.TheConstants.{MAX_JOURNAL_BYTES};

use crate::{KeepFault, laws};
use office_core::Core;
use office_derived::Verdict;
use office_outside::Disk;
use record_form::read_record;
use slo_journal::{Scan, ScanFault};
use std::alloc::{AllocError, Global};

/// Adds the entry of a record, where it may follow those before it.
fn take_in(alloc: Global, core: &mut Core, bytes: &[u8]) -> Result<bool, AllocError>
    ensures origin { core.new.office.origin ≡ core.old.office.origin }
    ensures taken { result ≡ Ok true → (e : Entry) × IsRecord bytes.now e
        × MayFollow core.old.office e × (core.new.office ≡ with_entry core.old.office e) }
    ensures refused { result ≡ Ok false
        → (e : Entry) → IsRecord bytes.now e → MayFollow core.old.office e → ⊥ }
{
    laws::one_judgement();
    let Some(entry) = read_record(alloc, bytes)? else {
        return Ok(false);
    };
    if core.moment(entry.moment) != entry.moment || !core.in_range(entry.moment) {
        drop(entry);
        return Ok(false);
    }
    let verdict = core.take_in(alloc, entry.moment, &entry.command, bytes);
    drop(entry);
    match verdict {
        Verdict::Ready(_) => Ok(true),
        Verdict::Same(outcome) => {
            drop(outcome);
            Ok(false)
        }
        Verdict::Refused(refusal) => {
            drop(refusal);
            Ok(false)
        }
        Verdict::NoMemory => Err(AllocError),
    }
}

/// Takes in the next record; false at the closed gate.
fn step<D: Disk + Drop>(
    alloc: Global,
    core: &mut Core,
    scan: &mut Scan<D>,
    out: &mut Vec<u8>,
) -> Result<bool, KeepFault>
    ensures walks { IfOk result (λ _. (file : List ℕ) → D.senses.content scan.old.disk ≡ Some file
        → WalksOver core.old.office scan.old.at file → WalksOver core.new.office scan.new.at file) }
    ensures ended { result ≡ Ok false → (file : List ℕ) → D.senses.content scan.old.disk ≡ Some file
        → WalksOver core.old.office scan.old.at file → StandsFor core.new.office file }
    ensures damaged { (at : ℕ) → result ≡ Err (Damaged at)
        → (file : List ℕ) → D.senses.content scan.old.disk ≡ Some file
        → WalksOver core.old.office scan.old.at file → IsDamagedAt at file }
    ensures place { IfOk result (λ _. scan.old.at ≡ tail_of (records core.old.office.history)
        → scan.new.at ≡ tail_of (records core.new.office.history)) }
    ensures within { result ≡ Ok false → scan.new.at < MAX_JOURNAL_BYTES }
    ensures bound { scan.new.at ≤ MAX_JOURNAL_BYTES }
    ensures progress { result ≡ Ok true → scan.old.at < scan.new.at }
    ensures origin { (scan.new.origin ≡ scan.old.origin)
        × (core.new.office.origin ≡ core.old.office.origin) }
    ensures content { D.senses.content scan.new.disk ≡ D.senses.content scan.old.disk }
    ensures quiet { IsQuiet D.senses scan.old.disk scan.new.disk }
    ensures cause { IsErrOf result DiskFault → RoseBy D.senses.faults scan.old.disk scan.new.disk }
    ensures later { D.senses.faults scan.old.disk ≤ D.senses.faults scan.new.disk }
    ensures others { (result ≡ Err NotAJournal → ⊥) × (result ≡ Err AlreadyThere → ⊥) }
{
    let at = scan.at();
    match scan.next(out) {
        Ok(true) => {
            core.is_legal();
            record_form::laws::no_record_begins_another();
            match take_in(alloc, core, out) {
                Ok(true) => Ok(true),
                Ok(false) => Err(KeepFault::Damaged { at }),
                Err(AllocError) => Err(KeepFault::NoMemory),
            }
        }
        Ok(false) => Ok(false),
        Err(ScanFault::DiskFault) => Err(KeepFault::DiskFault),
        Err(ScanFault::Damaged { at }) => Err(KeepFault::Damaged { at }),
        Err(ScanFault::NoMemory) => Err(KeepFault::NoMemory),
    }
}

/// Takes in the records of a file, up to its closed gate.
pub(crate) fn load<D: Disk + Drop>(
    alloc: Global,
    core: &mut Core,
    scan: &mut Scan<D>,
) -> Result<(), KeepFault>
    ensures stands { OnOk result ((file : List ℕ) → D.senses.content scan.old.disk ≡ Some file
        → WalksOver core.old.office scan.old.at file → StandsFor core.new.office file) }
    ensures damaged { (at : ℕ) → result ≡ Err (Damaged at)
        → (file : List ℕ) → D.senses.content scan.old.disk ≡ Some file
        → WalksOver core.old.office scan.old.at file → IsDamagedAt at file }
    ensures place { OnOk result (scan.old.at ≡ tail_of (records core.old.office.history)
        → scan.new.at ≡ tail_of (records core.new.office.history)) }
    ensures within { OnOk result (scan.new.at < MAX_JOURNAL_BYTES) }
    ensures origin { (scan.new.origin ≡ scan.old.origin)
        × (core.new.office.origin ≡ core.old.office.origin) }
    ensures content { D.senses.content scan.new.disk ≡ D.senses.content scan.old.disk }
    ensures quiet { IsQuiet D.senses scan.old.disk scan.new.disk }
    ensures cause { IsErrOf result DiskFault → RoseBy D.senses.faults scan.old.disk scan.new.disk }
    ensures later { D.senses.faults scan.old.disk ≤ D.senses.faults scan.new.disk }
    ensures others { (result ≡ Err NotAJournal → ⊥) × (result ≡ Err AlreadyThere → ⊥) }
{
    let mut out = Vec::new(alloc);
    'reading: loop {
        let more = step(alloc, core, scan, &mut out)?;
        if !more {
            return Ok(());
        }
    }
}
