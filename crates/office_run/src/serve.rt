//! `serve`: opens the journal, and serves it to the visitors of doors.
ghost use Rattle.std.specs.Prelude.{◌≡◌, ◌≢◌};
ghost use Rattle.office_outside.specs.Faults.{RoseBy};
ghost use Rattle.turn_counter.specs.Turns.{TurnAsks};
ghost use Rattle.office_serving.specs.Serving.{serving_world};
ghost use Rattle.visit_workers.specs.Visits.{visit_senses};
ghost use Rattle.visit_workers.specs.Workers.{worker_senses};
ghost use Rattle.office_run.specs.Serve.{RunsServe, SettledServer, SettledServing};

use crate::ending::{DISK_FAULT, DONE, DOORS_FAULT, NO_MEMORY, USAGE, WRITE_FAULT};
use crate::faults_sink::tell_status;
use crate::running::RunEnd;
use crate::unopened::settle_unopened;
use journal_commands::serve_journal;
use office_doors::{Door, Doors};
use office_keep::KeepFault;
use office_outside::{Disk, Sink};
use office_serving::ServeEnd;
use std::alloc::Global;
use std::sync::Wait;
use std::thread::Threads;

/// The status of a serving's end, whose line the faults sink is told.
fn settle_serving<E: Sink>(end: ServeEnd, faults: &mut E) -> u8
    ensures { SettledServing end result (E.held faults.old) (E.held faults.new)
        (E.faults faults.old) (E.faults faults.new) }
{
    match end {
        ServeEnd::Done => DONE,
        ServeEnd::WriteFault => tell_status(faults, WRITE_FAULT),
        ServeEnd::DoorsFault => tell_status(faults, DOORS_FAULT),
        ServeEnd::NoMemory => tell_status(faults, NO_MEMORY),
    }
}

/// The status of an end, whose line the faults sink is told.
fn settle_server<E: Sink>(alloc: Global, end: Result<ServeEnd, KeepFault>, faults: &mut E) -> u8
    ensures { SettledServer end result (E.held faults.old) (E.held faults.new) (E.faults faults.old)
        (E.faults faults.new) }
{
    match end {
        Ok(end) => settle_serving(end, faults),
        Err(why) => settle_unopened(alloc, why, faults),
    }
}

/// Runs `serve`.
pub fn run_serve<R: Wait + Threads + Sync, K: Sink, E: Sink, D: Disk + Send + Drop, S: Doors>(
    rt: &R,
    alloc: Global,
    port: u16,
    output: &mut K,
    faults: &mut E,
    disk: D,
    doors: &mut S,
) -> RunEnd<D>
    ensures served { RunsServe D.senses (worker_senses (TurnAsks D.senses)
        (visit_senses S.One.In.left S.One.In.faults S.One.Out.held S.One.Out.faults
        S.One.Time.to_come) (λ d. S.One.told d) (λ d. S.One.faults d)) port result.status
        (E.held faults.old) (E.held faults.new) (E.faults faults.old) (E.faults faults.new)
        (serving_world (S.told doors.old) (S.ports doors.old) (K.held output.old))
        (serving_world (S.told doors.new) (S.ports doors.new) (K.held output.new)) disk
        result.disk }
    ensures silent { result.status ≡ DONE → E.held faults.new ≡ E.held faults.old }
    ensures write { result.status ≡ WRITE_FAULT → RoseBy K.faults output.old output.new }
    ensures disk { result.status ≡ DISK_FAULT → RoseBy D.senses.faults disk result.disk }
    ensures doors { result.status ≡ DOORS_FAULT → RoseBy S.faults doors.old doors.new }
    ensures usable { result.status ≢ USAGE }
{
    let (end, disk) = serve_journal(rt, alloc, disk, doors, port, output);
    let status = settle_server(alloc, end, faults);
    RunEnd { status, disk }
}
