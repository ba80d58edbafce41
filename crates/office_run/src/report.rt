//! `report` and `report AT`: opens the journal, and prints the report over its history.
ghost use Rattle.std.specs.Prelude.{◌≡◌, ◌≢◌};
ghost use Rattle.office_outside.specs.Faults.{RoseBy};
ghost use Rattle.journal_commands.specs.Making.{journal_world};
ghost use Rattle.journal_commands.specs.Reporting.{Reports};
ghost use Rattle.journal_commands.specs.declared.ReportEnd.{ReportEnd};
ghost use Rattle.office_run.specs.Report.{SettledPrinting, SettledReport};

use crate::ending::{DISK_FAULT, DONE, NO_MEMORY, READ_FAULT, REFUSED, USAGE, WRITE_FAULT};
use crate::faults_sink::{tell_as, tell_status};
use crate::running::RunEnd;
use crate::unopened::settle_unopened;
use journal_commands::{PrintEnd, ReportEnd, print_report};
use office_outside::{Clock, Disk, Sink};
use std::alloc::Global;

/// The status of a printing's end, whose line the faults sink is told.
fn settle_printing<E: Sink>(end: PrintEnd, faults: &mut E) -> u8
    ensures { SettledPrinting end result (E.held faults.old) (E.held faults.new)
        (E.faults faults.old) (E.faults faults.new) }
{
    match end {
        PrintEnd::Done => DONE,
        PrintEnd::OutOfRange => tell_as(faults, "slo_office: AT out of range\n", REFUSED),
        PrintEnd::WriteFault => tell_status(faults, WRITE_FAULT),
        PrintEnd::NoMemory => tell_status(faults, NO_MEMORY),
    }
}

/// The status of an end, whose line the faults sink is told.
fn settle_report<E: Sink>(alloc: Global, end: ReportEnd, faults: &mut E) -> u8
    ensures { SettledReport end result (E.held faults.old) (E.held faults.new)
        (E.faults faults.old) (E.faults faults.new) }
{
    match end {
        ReportEnd::Opened(end) => settle_printing(end, faults),
        ReportEnd::Unopened(why) => settle_unopened(alloc, why, faults),
    }
}

/// Runs `report`.
pub fn run_report<K: Sink, E: Sink, D: Disk + Drop, C: Clock>(
    alloc: Global,
    at: Option<u32>,
    output: &mut K,
    faults: &mut E,
    disk: D,
    clock: &mut C,
) -> RunEnd<D>
    ensures settled { (end : ReportEnd) × SettledReport end result.status (E.held faults.old)
        (E.held faults.new) (E.faults faults.old) (E.faults faults.new)
        × Reports D.senses at end (journal_world disk (C.to_come clock.old) (K.held output.old))
        (journal_world result.disk (C.to_come clock.new) (K.held output.new)) }
    ensures silent { result.status ≡ DONE → E.held faults.new ≡ E.held faults.old }
    ensures write { result.status ≡ WRITE_FAULT → RoseBy K.faults output.old output.new }
    ensures disk { result.status ≡ DISK_FAULT → RoseBy D.senses.faults disk result.disk }
    ensures usable { result.status ≢ USAGE }
    ensures unread { result.status ≢ READ_FAULT }
{
    let (end, disk) = print_report(alloc, at, disk, clock, output);
    let status = settle_report(alloc, end, faults);
    RunEnd { status, disk }
}
