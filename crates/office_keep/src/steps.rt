//! The steps of a change: what is in doubt is settled, the command is judged, and its entry kept.
ghost use Rattle.std.specs.Prelude.{◌≡◌, ◌<◌, ◌≤◌, Option, Some, None, OnOk, OnErr};
ghost use Rattle.slo_limits.specs.declared.TheConstants.{MAX_MINUTE};
ghost use Rattle.office_outside.specs.Disk.{IsQuiet, LeavesOnly};
ghost use Rattle.office_outside.specs.Faults.{HasCauseBy};
ghost use Rattle.record_form.specs.declared.Entry.{Entry};
ghost use Rattle.record_form.specs.declared.Request.TheVariants.{Change};
ghost use Rattle.record_form.specs.Ranges.{FitsRecord};
ghost use Rattle.record_form.specs.Records.{record_of};
ghost use Rattle.office_history.specs.History.{end_of, present};
ghost use Rattle.office_core.specs.Machine.{HasRevisions};
ghost use Rattle.slo_journal.specs.Keeping.{WithOrWithout};
ghost use Rattle.office_keep.specs.Files.{records};
ghost use Rattle.office_keep.specs.Office.{Changes, IsAsBefore, IsBlamed, IsTimely, IsUnmoved};
ghost use Rattle.office_keep.specs.Office.{Leaves, SettlesBy, StandsSettled};
ghost use Rattle.office_keep.specs.Steps.{IsJudged, OfficeIsKept, KeepsOffice, Writes, entry_in};
ghost use Rattle.office_keep.specs.Steps.{office_on};

use office_core::{Core, Prepared};
use office_derived::Verdict;
use office_outside::{Disk, Failed};
use record_form::{Command, Outcome, laws};
use slo_journal::{AppendFault, Journal, frame_of};
use std::alloc::Global;

/// Settles what is in doubt, and makes a change; with the place of the entry that it added.
pub(crate) fn change<D: Disk + Drop>(
    alloc: Global,
    core: &mut Core,
    journal: &mut Journal<D>,
    doubt: &mut Option<Prepared>,
    reading: u32,
    command: &Command,
) -> (Outcome, Option<u32>)
    requires kept { OfficeIsKept D.senses core.old doubt.old journal.old }
    requires reading { reading ≤ MAX_MINUTE }
    requires timely { IsTimely core.old.office reading }
    requires revisions { HasRevisions command.now }
    ensures kept { OfficeIsKept D.senses core.new doubt.new journal.new }
    ensures ended { Changes (office_on core.old doubt.old journal.old) reading command.now
        result.0 result.1 (office_on core.new doubt.new journal.new) }
    ensures any_moment { LeavesOnly D.senses journal.old.disk journal.new.disk
        (Leaves (office_on core.old doubt.old journal.old) reading command.now
        (office_on core.new doubt.new journal.new)) }
    ensures after_settling { SettlesBy D.senses (office_on core.old doubt.old journal.old) reading
        (Change command.now) (office_on core.new doubt.new journal.new) }
    ensures cause { IsBlamed (D.senses.faults journal.old.disk) (D.senses.faults journal.new.disk)
        result.0 }
{
    let Ok(()) = settle(core, journal, doubt) else {
        return (Outcome::DiskFault, None);
    };
    core.is_legal();
    add(alloc, core, journal, doubt, reading, command)
}

/// Settles what is in doubt.
fn settle<D: Disk + Drop>(
    core: &mut Core,
    journal: &mut Journal<D>,
    doubt: &mut Option<Prepared>,
) -> Result<(), Failed>
    requires kept { OfficeIsKept D.senses core.old doubt.old journal.old }
    ensures kept { OfficeIsKept D.senses core.new doubt.new journal.new }
    ensures settled { OnOk result (IsUnmoved (office_on core.old doubt.old journal.old)
        (office_on core.new doubt.new journal.new)) }
    ensures stays { OnErr result (IsAsBefore (office_on core.old doubt.old journal.old)
        (office_on core.new doubt.new journal.new)) }
    ensures any_moment { LeavesOnly D.senses journal.old.disk journal.new.disk
        (StandsSettled core.old.office (entry_in doubt.old core.old.pending)) }
    ensures quiet { IsQuiet D.senses journal.old.disk journal.new.disk }
    ensures cause { HasCauseBy D.senses.faults journal.old.disk journal.new.disk result }
{
    match doubt.take() {
        None => Ok(()),
        Some(entry) => match journal.settle() {
            Ok(true) => {
                core.commit(entry);
                Ok(())
            }
            Ok(false) => {
                drop(entry);
                Ok(())
            }
            Err(_) => {
                *doubt = Some(entry);
                Err(Failed)
            }
        },
    }
}

/// Makes a change where nothing is in doubt.
fn add<D: Disk + Drop>(
    alloc: Global,
    core: &mut Core,
    journal: &mut Journal<D>,
    doubt: &mut Option<Prepared>,
    reading: u32,
    command: &Command,
) -> (Outcome, Option<u32>)
    requires kept { KeepsOffice D.senses core.old.office journal.old }
    requires none { doubt.old ≡ None }
    requires reading { reading ≤ MAX_MINUTE }
    requires timely { IsTimely core.old.office reading }
    requires revisions { HasRevisions command.now }
    ensures kept { OfficeIsKept D.senses core.new doubt.new journal.new }
    ensures ended { Changes (office_on core.old doubt.old journal.old) reading command.now
        result.0 result.1 (office_on core.new doubt.new journal.new) }
    ensures any_moment { LeavesOnly D.senses journal.old.disk journal.new.disk
        (Leaves (office_on core.old doubt.old journal.old) reading command.now
        (office_on core.new doubt.new journal.new)) }
    ensures cause { IsBlamed (D.senses.faults journal.old.disk) (D.senses.faults journal.new.disk)
        result.0 }
{
    core.is_legal();
    let moment = core.moment(reading);
    match judge(alloc, core, moment, command) {
        Ok(value) => keep(alloc, core, journal, doubt, value),
        Err(outcome) => (outcome, None),
    }
}

/// Judges a command at a moment, and makes room for its entry where it is accepted. It touches no
/// disk.
fn judge(
    alloc: Global,
    core: &mut Core,
    moment: u32,
    command: &Command,
) -> Result<Prepared, Outcome>
    requires later { present core.old.office ≤ moment }
    requires in_range { moment < end_of core.old.office.origin }
    requires readable { moment ≤ MAX_MINUTE }
    requires revisions { HasRevisions command.now }
    ensures office { core.new.office ≡ core.old.office }
    ensures judged { IsJudged core.old.office
        (record { moment = moment; command = command.now }) result core.new.pending }
{
    match core.prepare(alloc, moment, command) {
        Verdict::Ready(value) => Ok(value),
        Verdict::Same(outcome) => Err(outcome),
        Verdict::Refused(refusal) => Err(Outcome::Refused(refusal)),
        Verdict::NoMemory => Err(Outcome::NoMemory),
    }
}

/// Keeps the entry for which room was made: writes it, and adds it once it is on the disk.
pub(crate) fn keep<D: Disk + Drop>(
    alloc: Global,
    core: &mut Core,
    journal: &mut Journal<D>,
    doubt: &mut Option<Prepared>,
    value: Prepared,
) -> (Outcome, Option<u32>)
    requires kept { KeepsOffice D.senses core.old.office journal.old }
    requires none { doubt.old ≡ None }
    requires pending { (e : Entry) × (core.old.pending ≡ Some e) × (value ≡ record_of e) }
    ensures kept { OfficeIsKept D.senses core.new doubt.new journal.new }
    ensures fits { (e : Entry) → core.old.pending ≡ Some e → FitsRecord e }
    ensures ended { (e : Entry) → core.old.pending ≡ Some e
        → Writes core.old.office e result.0 result.1
        core.new.office (entry_in doubt.new core.new.pending) }
    ensures any_moment { (e : Entry) → core.old.pending ≡ Some e
        → LeavesOnly D.senses journal.old.disk journal.new.disk
        (WithOrWithout core.old.office.origin (records core.old.office.history) (record_of e)) }
    ensures cause { IsBlamed (D.senses.faults journal.old.disk) (D.senses.faults journal.new.disk)
        result.0 }
{
    core.is_legal();
    laws::records_have_sizes();
    let Ok(frame) = frame_of(alloc, value.bytes()) else {
        drop(value);
        return (Outcome::NoMemory, None);
    };
    let place = core.length();
    let appended = journal.append(&frame);
    drop(frame);
    match appended {
        Ok(()) => (core.commit(value), Some(place)),
        Err(AppendFault::JournalFull { tail, needed }) => {
            drop(value);
            (Outcome::JournalFull { needed, tail }, None)
        }
        Err(AppendFault::NotKept) => {
            drop(value);
            (Outcome::DiskFault, None)
        }
        Err(AppendFault::InDoubt) => {
            *doubt = Some(value);
            (Outcome::DiskFault, None)
        }
    }
}
