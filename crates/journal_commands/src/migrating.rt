//! The upgrade of the office in a journal's file.
ghost use Rattle.std.specs.Prelude.{◌≡◌, ◌⊎◌, ◌≤◌, Some, None, IfOk, is_some, string_bytes, true};
ghost use Rattle.slo_limits.specs.declared.TheConstants.{MAX_MINUTE};
ghost use Rattle.office_outside.specs.Disk.{LeavesOnly};
ghost use Rattle.office_outside.specs.Faults.{RoseBy};
ghost use Rattle.office_outside.specs.Told.{Gained, GainedPrefix};
ghost use Rattle.record_form.specs.declared.Command.TheVariants as commands;
ghost use Rattle.office_keep.specs.Office.{WithOrWithout};
ghost use Rattle.journal_commands.specs.Making.{journal_world};
ghost use Rattle.journal_commands.specs.Migrating.{EndsChange, Migrates, Upgrades, end_by};
ghost use Rattle.journal_commands.specs.Migrating.{upgraded_line as upgraded_line_def};

use crate::writing::write_out;
use office_keep::{KeepFault, Office};
use office_outside::{Clock, Disk, Failed, Sink};
use record_form::{Command, Outcome, Request};
use std::alloc::{AllocError, Global};

/// How the upgrade of an office that was opened ends.
#[derive(Clone, Copy, Debug, Drop, PartialEq, Eq)]
pub enum UpgradeEnd {
    /// The office was upgraded, and the place of the upgrade in its history was told.
    Upgraded,
    /// The office had been upgraded before, which was told.
    Already,
    /// The moment isn't below the end of the office's range: nothing was written.
    OutOfRange,
    /// The journal has no room for the upgrade: nothing was written.
    JournalFull,
    /// The disk's count of faults rose in the change: the file has the upgrade, or hasn't.
    DiskFault,
    /// The office is upgraded, now or before; the output's count of faults rose while this was
    /// told.
    WriteFault,
    /// Memory was refused: nothing was written.
    NoMemory,
}

/// How the upgrade of the office in a journal ends.
#[derive(Clone, Copy, Debug, Drop, PartialEq, Eq)]
pub enum MigrateEnd {
    /// The journal was opened, and the upgrade of its office ended so.
    Opened(UpgradeEnd),
    /// The journal wasn't opened.
    Unopened(KeepFault),
}

/// The line that tells where the upgrade stands in the history.
fn upgraded_line(alloc: Global, entry: u32) -> Result<String, AllocError>
    ensures { IfOk result (λ text. string_bytes text ≡ upgraded_line_def entry) }
{
    format!(in alloc; "upgraded {entry}\n")
}

/// How an upgrade ends that came to this outcome, before it is told.
fn end_of(outcome: &Outcome) -> UpgradeEnd
    requires { is_some (end_by outcome.now) ≡ true }
    ensures end { end_by outcome.now ≡ Some result }
    ensures disk { result ≡ UpgradeEnd.DiskFault → outcome.now ≡ Outcome.DiskFault }
{
    match outcome {
        Outcome::Changed { entry } => match entry {
            Some(_) => UpgradeEnd::Upgraded,
            None => UpgradeEnd::Already,
        },
        Outcome::ClockRange { .. } => UpgradeEnd::OutOfRange,
        Outcome::JournalFull { .. } => UpgradeEnd::JournalFull,
        Outcome::DiskFault => UpgradeEnd::DiskFault,
        Outcome::NoMemory => UpgradeEnd::NoMemory,
        _ => unreachable!(),
    }
}

/// Makes the upgrade of an office, and tells nobody.
fn change<D: Disk + Drop>(alloc: Global, office: &mut Office<D>, reading: u32) -> UpgradeEnd
    requires none { office.old.doubt ≡ None }
    requires reading { reading ≤ MAX_MINUTE }
    ensures ends { EndsChange D.senses office.old.office reading result office.new.disk }
    ensures moments { LeavesOnly D.senses office.old.disk office.new.disk
        (WithOrWithout office.old.office reading commands.Upgrade) }
    ensures cause { result ≡ UpgradeEnd.DiskFault →
        RoseBy D.senses.faults office.old.disk office.new.disk }
    ensures later { D.senses.faults office.old.disk ≤ D.senses.faults office.new.disk }
{
    office.entries_are_few();
    let request = Request::Change(Command::Upgrade);
    let outcome = office.perform(alloc, reading, &request);
    drop(request);
    let end = end_of(&outcome);
    drop(outcome);
    end
}

/// Tells the line of an upgrade that ended so.
fn tell<K: Sink>(output: &mut K, line: &str, end: UpgradeEnd) -> UpgradeEnd
    ensures told { ((result ≡ end) × Gained line.now (K.held output.old) (K.held output.new))
        ⊎ ((result ≡ UpgradeEnd.WriteFault) × RoseBy K.faults output.old output.new
        × GainedPrefix line.now (K.held output.old) (K.held output.new)) }
    ensures later { K.faults output.old ≤ K.faults output.new }
{
    match write_out(output, line.as_bytes()) {
        Ok(()) => end,
        Err(Failed) => UpgradeEnd::WriteFault,
    }
}

/// Upgrades an office that was opened, and tells it. The line is made before the disk is touched:
/// behind the change only its writing can fail.
fn upgrade<D: Disk + Drop, K: Sink>(
    alloc: Global,
    office: &mut Office<D>,
    reading: u32,
    output: &mut K,
) -> UpgradeEnd
    requires none { office.old.doubt ≡ None }
    requires reading { reading ≤ MAX_MINUTE }
    ensures upgrades { Upgrades D.senses reading result (K.held output.old) (K.held output.new)
        office.new.disk office.old }
    ensures disk { result ≡ UpgradeEnd.DiskFault →
        RoseBy D.senses.faults office.old.disk office.new.disk }
    ensures write { result ≡ UpgradeEnd.WriteFault → RoseBy K.faults output.old output.new }
    ensures later { D.senses.faults office.old.disk ≤ D.senses.faults office.new.disk }
    ensures later_output { K.faults output.old ≤ K.faults output.new }
{
    office.disk_stands();
    let Ok(line) = upgraded_line(alloc, office.length()) else {
        return UpgradeEnd::NoMemory;
    };
    let end = change(alloc, office, reading);
    match end {
        UpgradeEnd::Upgraded => tell(output, line.as_str(), end),
        UpgradeEnd::Already => tell(output, "already upgraded\n", end),
        _ => end,
    }
}

/// Opens the journal on a disk, upgrades its office, tells the place of the upgrade on the output,
/// or that the office was upgraded before, and hands the disk back. The clock is read once, before
/// the disk is touched.
pub fn migrate_journal<D: Disk + Drop, C: Clock, K: Sink>(
    alloc: Global,
    disk: D,
    clock: &mut C,
    output: &mut K,
) -> (MigrateEnd, D)
    ensures migrates { Migrates D.senses result.0
        (journal_world disk (C.to_come clock.old) (K.held output.old))
        (journal_world result.1 (C.to_come clock.new) (K.held output.new)) }
    ensures disk { result.0 ≡ MigrateEnd.Opened UpgradeEnd.DiskFault →
        RoseBy D.senses.faults disk result.1 }
    ensures unopened { result.0 ≡ MigrateEnd.Unopened KeepFault.DiskFault →
        RoseBy D.senses.faults disk result.1 }
    ensures write { result.0 ≡ MigrateEnd.Opened UpgradeEnd.WriteFault →
        RoseBy K.faults output.old output.new }
    ensures later { D.senses.faults disk ≤ D.senses.faults result.1 }
    ensures later_output { K.faults output.old ≤ K.faults output.new }
{
    let reading = clock.minute();
    match Office::open(alloc, disk) {
        Ok(mut office) => {
            let end = upgrade(alloc, &mut office, reading, output);
            (MigrateEnd::Opened(end), office.into_disk())
        }
        Err(failed) => (MigrateEnd::Unopened(failed.fault), failed.disk),
    }
}
