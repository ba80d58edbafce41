//! `init` and `init ORIGIN`: makes the journal and prints its origin.
ghost use Rattle.std.specs.Prelude.{◌≡◌, ◌≢◌};
ghost use Rattle.office_outside.specs.Faults.{RoseBy};
ghost use Rattle.journal_commands.specs.Making.{Makes, journal_world};
ghost use Rattle.journal_commands.specs.declared.InitEnd.{InitEnd};
ghost use Rattle.office_run.specs.Init.{SettledInit};

use crate::ending::{DISK_FAULT, DONE, NO_MEMORY, READ_FAULT, REFUSED, USAGE, WRITE_FAULT};
use crate::faults_sink::{tell_as, tell_status};
use crate::running::RunEnd;
use crate::unopened::settle_already_there;
use journal_commands::{InitEnd, make_journal};
use office_outside::{Clock, Disk, Sink};
use std::alloc::Global;

/// The status of an end, whose line the faults sink is told.
fn settle_init<E: Sink>(end: InitEnd, faults: &mut E) -> u8
    ensures { SettledInit end result (E.held faults.old) (E.held faults.new) (E.faults faults.old)
        (E.faults faults.new) }
{
    match end {
        InitEnd::Done => DONE,
        InitEnd::OriginAboveClock => tell_as(faults, "slo_office: origin above clock\n", REFUSED),
        InitEnd::AlreadyThere => settle_already_there(faults),
        InitEnd::DiskFault => tell_status(faults, DISK_FAULT),
        InitEnd::WriteFault => tell_status(faults, WRITE_FAULT),
        InitEnd::NoMemory => tell_status(faults, NO_MEMORY),
    }
}

/// Runs `init`.
pub fn run_init<K: Sink, E: Sink, D: Disk + Drop, C: Clock>(
    alloc: Global,
    origin: Option<u32>,
    output: &mut K,
    faults: &mut E,
    disk: D,
    clock: &mut C,
) -> RunEnd<D>
    ensures settled { (end : InitEnd) × SettledInit end result.status (E.held faults.old)
        (E.held faults.new) (E.faults faults.old) (E.faults faults.new)
        × Makes D.senses origin end (journal_world disk (C.to_come clock.old) (K.held output.old))
        (journal_world result.disk (C.to_come clock.new) (K.held output.new)) }
    ensures silent { result.status ≡ DONE → E.held faults.new ≡ E.held faults.old }
    ensures write { result.status ≡ WRITE_FAULT → RoseBy K.faults output.old output.new }
    ensures disk { result.status ≡ DISK_FAULT → RoseBy D.senses.faults disk result.disk }
    ensures usable { result.status ≢ USAGE }
    ensures unread { result.status ≢ READ_FAULT }
{
    let (end, disk) = make_journal(alloc, origin, disk, clock, output);
    let status = settle_init(end, faults);
    RunEnd { status, disk }
}
