//! `export K`: opens the journal, and writes a part of the requests that make its office anew.
ghost use Rattle.std.specs.Prelude.{◌≡◌, ◌≢◌, ◌≤◌, IfOk, string_bytes};
ghost use Rattle.office_outside.specs.Faults.{RoseBy};
ghost use Rattle.journal_commands.specs.Exporting.{ExportsFrom};
ghost use Rattle.journal_commands.specs.declared.ExportEnd.{ExportEnd};
ghost use Rattle.office_run.specs.Export.{SettledExport, SettledFault, SettledPart};
ghost use Rattle.office_run.specs.Export.{SettledTooLarge};
ghost use Rattle.office_run.specs.Export.{too_large_line as too_large_line_def};

use crate::ending::{DISK_FAULT, DONE, NO_MEMORY, READ_FAULT, REFUSED, USAGE, WRITE_FAULT};
use crate::faults_sink::{tell_as, tell_status};
use crate::running::RunEnd;
use crate::unopened::settle_unopened;
use exact_fraction::Label;
use journal_commands::{ExportEnd, export_journal};
use object_terms::Kind;
use office_export::ExportFault;
use office_outside::{Disk, Sink};
use std::alloc::{AllocError, Global};

/// The line for an object that is too large for a request.
fn too_large_line(alloc: Global, kind: Kind, name: Label) -> Result<String, AllocError>
    ensures { IfOk result (λ line. string_bytes line ≡ too_large_line_def kind name) }
{
    let kind = kind.word();
    let name = name.as_str();
    format!(in alloc; "slo_office: object too large {kind} {name}\n")
}

/// The status of an object that is too large, whose line the faults sink is told.
fn settle_too_large<E: Sink>(alloc: Global, kind: Kind, name: Label, faults: &mut E) -> u8
    ensures { SettledTooLarge kind name result (E.held faults.old) (E.held faults.new)
        (E.faults faults.old) (E.faults faults.new) }
{
    match too_large_line(alloc, kind, name) {
        Ok(line) => tell_as(faults, line.as_str(), REFUSED),
        Err(_) => tell_status(faults, NO_MEMORY),
    }
}

/// The status of a fault of a part, whose line the faults sink is told.
fn settle_fault<E: Sink>(alloc: Global, fault: ExportFault, faults: &mut E) -> u8
    ensures { SettledFault fault result (E.held faults.old) (E.held faults.new)
        (E.faults faults.old) (E.faults faults.new) }
{
    match fault {
        ExportFault::ObjectTooLarge { kind, name } => settle_too_large(alloc, kind, name, faults),
        ExportFault::WriteFault => tell_status(faults, WRITE_FAULT),
        ExportFault::NoMemory => tell_status(faults, NO_MEMORY),
    }
}

/// The status of how a part ended, whose line the faults sink is told.
fn settle_part<E: Sink>(alloc: Global, end: Result<(), ExportFault>, faults: &mut E) -> u8
    ensures { SettledPart end result (E.held faults.old) (E.held faults.new)
        (E.faults faults.old) (E.faults faults.new) }
{
    match end {
        Ok(()) => DONE,
        Err(fault) => settle_fault(alloc, fault, faults),
    }
}

/// The status of an end, whose line the faults sink is told.
fn settle_export<E: Sink>(alloc: Global, end: ExportEnd, faults: &mut E) -> u8
    ensures { SettledExport end result (E.held faults.old) (E.held faults.new)
        (E.faults faults.old) (E.faults faults.new) }
{
    match end {
        ExportEnd::Opened(end) => settle_part(alloc, end, faults),
        ExportEnd::Unopened(why) => settle_unopened(alloc, why, faults),
    }
}

/// Runs `export`.
pub fn run_export<K: Sink, E: Sink, D: Disk + Drop>(
    alloc: Global,
    part: u32,
    output: &mut K,
    faults: &mut E,
    disk: D,
) -> RunEnd<D>
    requires { 1 ≤ part }
    ensures settled { (end : ExportEnd) × SettledExport end result.status (E.held faults.old)
        (E.held faults.new) (E.faults faults.old) (E.faults faults.new)
        × ExportsFrom D.senses part end (K.held output.old) (K.held output.new) disk result.disk }
    ensures silent { result.status ≡ DONE → E.held faults.new ≡ E.held faults.old }
    ensures write { result.status ≡ WRITE_FAULT → RoseBy K.faults output.old output.new }
    ensures disk { result.status ≡ DISK_FAULT → RoseBy D.senses.faults disk result.disk }
    ensures usable { result.status ≢ USAGE }
    ensures unread { result.status ≢ READ_FAULT }
{
    let (end, disk) = export_journal(alloc, part, disk, output);
    let status = settle_export(alloc, end, faults);
    RunEnd { status, disk }
}
