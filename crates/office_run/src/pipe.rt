//! `pipe`: opens the journal, and serves one session over the input and the output.
ghost use Rattle.std.specs.Prelude.{◌≡◌, ◌≢◌};
ghost use Rattle.office_outside.specs.Faults.{RoseBy};
ghost use Rattle.journal_commands.specs.Serving.{EndsServing, session_outside};
ghost use Rattle.journal_commands.specs.declared.PipeEnd.{PipeEnd};
ghost use Rattle.office_run.specs.Pipe.{SettledPipe, SettledSession};

use crate::ending::{DISK_FAULT, DONE, NO_MEMORY, READ_FAULT, REFUSED, USAGE, WRITE_FAULT};
use crate::faults_sink::{tell_as, tell_status};
use crate::running::RunEnd;
use crate::unopened::settle_unopened;
use journal_commands::{PipeEnd, run_session};
use message_session::SessionEnd;
use office_outside::{Clock, Disk, Sink, Source};
use std::alloc::Global;

/// The status of a session's end, whose line the faults sink is told.
fn settle_session<E: Sink>(end: SessionEnd, faults: &mut E) -> u8
    ensures { SettledSession end result (E.held faults.old) (E.held faults.new)
        (E.faults faults.old) (E.faults faults.new) }
{
    match end {
        SessionEnd::Done => DONE,
        SessionEnd::Cut => tell_as(faults, "slo_office: cut\n", REFUSED),
        SessionEnd::ReadFault => tell_status(faults, READ_FAULT),
        SessionEnd::WriteFault => tell_status(faults, WRITE_FAULT),
        SessionEnd::NoMemory => tell_status(faults, NO_MEMORY),
    }
}

/// The status of an end, whose line the faults sink is told.
fn settle_pipe<E: Sink>(alloc: Global, end: PipeEnd, faults: &mut E) -> u8
    ensures { SettledPipe end result (E.held faults.old) (E.held faults.new) (E.faults faults.old)
        (E.faults faults.new) }
{
    match end {
        PipeEnd::Served(end) => settle_session(end, faults),
        PipeEnd::Unopened(why) => settle_unopened(alloc, why, faults),
    }
}

/// Runs `pipe`.
pub fn run_pipe<S: Source, K: Sink, E: Sink, D: Disk + Drop, C: Clock>(
    alloc: Global,
    input: &mut S,
    output: &mut K,
    faults: &mut E,
    disk: D,
    clock: &mut C,
) -> RunEnd<D>
    ensures settled { (end : PipeEnd) × SettledPipe end result.status (E.held faults.old)
        (E.held faults.new) (E.faults faults.old) (E.faults faults.new)
        × EndsServing D.senses end (session_outside (S.left input.old) (C.to_come clock.old)
        (K.held output.old)) (session_outside (S.left input.new) (C.to_come clock.new)
        (K.held output.new)) disk result.disk }
    ensures silent { result.status ≡ DONE → E.held faults.new ≡ E.held faults.old }
    ensures read { result.status ≡ READ_FAULT → RoseBy S.faults input.old input.new }
    ensures write { result.status ≡ WRITE_FAULT → RoseBy K.faults output.old output.new }
    ensures disk { result.status ≡ DISK_FAULT → RoseBy D.senses.faults disk result.disk }
    ensures usable { result.status ≢ USAGE }
{
    let (end, disk) = run_session(alloc, disk, input, output, clock);
    let status = settle_pipe(alloc, end, faults);
    RunEnd { status, disk }
}
