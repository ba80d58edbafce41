//! The printing of a report over a journal's file.
ghost use Rattle.std.specs.Prelude.{◌≡◌, ◌≤◌, true, false};
ghost use Rattle.office_outside.specs.Faults.{RoseBy};
ghost use Rattle.journal_commands.specs.Making.{journal_world};
ghost use Rattle.journal_commands.specs.Reporting.{EndsOver, IsInRange, IsOutOfRange};
ghost use Rattle.journal_commands.specs.Reporting.{Reports, minute_by};

use crate::writing::write_out;
use office_core::Core;
use office_keep::{KeepFault, Office, let_go};
use office_outside::{Clock, Disk, Failed, Sink};
use office_report::report;
use std::alloc::Global;

/// How the printing of a report over an office ends.
#[derive(Clone, Copy, Debug, Drop, PartialEq, Eq)]
pub enum PrintEnd {
    /// The report was printed.
    Done,
    /// The report's minute is below the origin, above the moment, or not below the end of the
    /// office's range.
    OutOfRange,
    /// The output's count of faults rose while the report was written.
    WriteFault,
    /// Memory was refused before the report was written.
    NoMemory,
}

/// How the printing of a report over a journal ends.
#[derive(Clone, Copy, Debug, Drop, PartialEq, Eq)]
pub enum ReportEnd {
    /// The journal was opened, and the printing over it ended so.
    Opened(PrintEnd),
    /// The journal wasn't opened.
    Unopened(KeepFault),
}

/// The minute of the report: the one that is asked for, or the moment.
fn minute_of(core: &Core, asked: Option<u32>, reading: u32) -> u32
    ensures { result ≡ minute_by asked core.now.office reading }
{
    match asked {
        Some(at) => at,
        None => core.moment(reading),
    }
}

/// Whether a report can be made at this minute.
fn is_in_range(core: &Core, reading: u32, at: u32) -> bool
    ensures yes { result ≡ true → IsInRange core.now.office reading at }
    ensures no { result ≡ false → IsOutOfRange core.now.office reading at }
{
    core.origin() <= at && at <= core.moment(reading) && core.in_range(at)
}

/// Prints the report over a machine.
fn print_over<K: Sink>(
    alloc: Global,
    core: &mut Core,
    asked: Option<u32>,
    reading: u32,
    output: &mut K,
) -> PrintEnd
    ensures ends { EndsOver asked reading result (K.held output.old) (K.held output.new)
        core.old.office }
    ensures write { result ≡ PrintEnd.WriteFault → RoseBy K.faults output.old output.new }
    ensures later { K.faults output.old ≤ K.faults output.new }
{
    let at = minute_of(core, asked, reading);
    if !is_in_range(core, reading, at) {
        return PrintEnd::OutOfRange;
    }
    let Ok(text) = report(alloc, core, at) else {
        return PrintEnd::NoMemory;
    };
    match write_out(output, text.as_bytes()) {
        Ok(()) => PrintEnd::Done,
        Err(Failed) => PrintEnd::WriteFault,
    }
}

/// Opens the journal on a disk, prints the report over its history, and hands the disk back. The
/// report is that at the minute that is asked for, since 1970-01-01T00:00Z, or at the moment of
/// what is read now. The clock is read once, before the disk is touched.
pub fn print_report<D: Disk + Drop, C: Clock, K: Sink>(
    alloc: Global,
    at: Option<u32>,
    disk: D,
    clock: &mut C,
    output: &mut K,
) -> (ReportEnd, D)
    ensures reports { Reports D.senses at result.0
        (journal_world disk (C.to_come clock.old) (K.held output.old))
        (journal_world result.1 (C.to_come clock.new) (K.held output.new)) }
    ensures disk { result.0 ≡ ReportEnd.Unopened KeepFault.DiskFault →
        RoseBy D.senses.faults disk result.1 }
    ensures write { result.0 ≡ ReportEnd.Opened PrintEnd.WriteFault →
        RoseBy K.faults output.old output.new }
    ensures later { D.senses.faults disk ≤ D.senses.faults result.1 }
    ensures later_output { K.faults output.old ≤ K.faults output.new }
{
    let reading = clock.minute();
    match Office::open(alloc, disk) {
        Ok(office) => {
            office.disk_stands();
            let (mut core, disk) = office.give_back();
            let end = print_over(alloc, &mut core, at, reading, output);
            let_go(core);
            (ReportEnd::Opened(end), disk)
        }
        Err(failed) => (ReportEnd::Unopened(failed.fault), failed.disk),
    }
}
