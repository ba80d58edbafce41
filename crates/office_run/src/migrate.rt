//! `migrate`: opens the journal, and upgrades its office.
ghost use Rattle.std.specs.Prelude.{◌≡◌, ◌≢◌};
ghost use Rattle.office_outside.specs.Faults.{RoseBy};
ghost use Rattle.journal_commands.specs.Making.{journal_world};
ghost use Rattle.journal_commands.specs.Migrating.{Migrates};
ghost use Rattle.journal_commands.specs.declared.MigrateEnd.{MigrateEnd};
ghost use Rattle.office_run.specs.Migrate.{SettledMigrate, SettledUpgrade};

use crate::ending::{DISK_FAULT, DONE, NO_MEMORY, READ_FAULT, REFUSED, USAGE, WRITE_FAULT};
use crate::faults_sink::{tell_as, tell_status};
use crate::running::RunEnd;
use crate::unopened::settle_unopened;
use journal_commands::{MigrateEnd, UpgradeEnd, migrate_journal};
use office_outside::{Clock, Disk, Sink};
use std::alloc::Global;

/// The status of an upgrade's end, whose line the faults sink is told.
fn settle_upgrade<E: Sink>(end: UpgradeEnd, faults: &mut E) -> u8
    ensures { SettledUpgrade end result (E.held faults.old) (E.held faults.new)
        (E.faults faults.old) (E.faults faults.new) }
{
    match end {
        UpgradeEnd::Upgraded | UpgradeEnd::Already => DONE,
        UpgradeEnd::OutOfRange => tell_as(faults, "slo_office: clock out of range\n", REFUSED),
        UpgradeEnd::JournalFull => tell_as(faults, "slo_office: journal full\n", REFUSED),
        UpgradeEnd::DiskFault => tell_status(faults, DISK_FAULT),
        UpgradeEnd::WriteFault => tell_status(faults, WRITE_FAULT),
        UpgradeEnd::NoMemory => tell_status(faults, NO_MEMORY),
    }
}

/// The status of an end, whose line the faults sink is told.
fn settle_migrate<E: Sink>(alloc: Global, end: MigrateEnd, faults: &mut E) -> u8
    ensures { SettledMigrate end result (E.held faults.old) (E.held faults.new)
        (E.faults faults.old) (E.faults faults.new) }
{
    match end {
        MigrateEnd::Opened(end) => settle_upgrade(end, faults),
        MigrateEnd::Unopened(why) => settle_unopened(alloc, why, faults),
    }
}

/// Runs `migrate`.
pub fn run_migrate<K: Sink, E: Sink, D: Disk + Drop, C: Clock>(
    alloc: Global,
    output: &mut K,
    faults: &mut E,
    disk: D,
    clock: &mut C,
) -> RunEnd<D>
    ensures settled { (end : MigrateEnd) × SettledMigrate end result.status (E.held faults.old)
        (E.held faults.new) (E.faults faults.old) (E.faults faults.new)
        × Migrates D.senses end (journal_world disk (C.to_come clock.old) (K.held output.old))
        (journal_world result.disk (C.to_come clock.new) (K.held output.new)) }
    ensures silent { result.status ≡ DONE → E.held faults.new ≡ E.held faults.old }
    ensures write { result.status ≡ WRITE_FAULT → RoseBy K.faults output.old output.new }
    ensures disk { result.status ≡ DISK_FAULT → RoseBy D.senses.faults disk result.disk }
    ensures usable { result.status ≢ USAGE }
    ensures unread { result.status ≢ READ_FAULT }
{
    let (end, disk) = migrate_journal(alloc, disk, clock, output);
    let status = settle_migrate(alloc, end, faults);
    RunEnd { status, disk }
}
