//! The serving of a journal's file over doors.
ghost use Rattle.std.specs.Prelude.{◌≡◌, Ok, Err};
ghost use Rattle.office_outside.specs.Faults.{RoseBy};
ghost use Rattle.office_keep.specs.declared.KeepFault.TheVariants.{DiskFault};
ghost use Rattle.turn_counter.specs.Turns.{TurnAsks};
ghost use Rattle.office_serving.specs.Serving.{serving_world};
ghost use Rattle.visit_workers.specs.Visits.{visit_senses};
ghost use Rattle.visit_workers.specs.Workers.{worker_senses};
ghost use Rattle.journal_commands.specs.Doors.{EndsServer};

use office_doors::{Door, Doors};
use office_keep::{KeepFault, Office};
use office_outside::{Disk, Sink};
use office_serving::{ServeEnd, serve};
use std::alloc::Global;
use std::sync::Wait;
use std::thread::Threads;

/// Opens the journal on a disk, serves it to the visitors of doors at this port, and hands the disk
/// back, with how the serving ended. `ready` is told when the doors are open, before any visit is
/// taken.
///
/// # Errors
///
/// Why the journal wasn't opened.
pub fn serve_journal<R: Wait + Threads + Sync, D: Disk + Send + Drop, S: Doors, K: Sink>(
    rt: &R,
    alloc: Global,
    disk: D,
    doors: &mut S,
    port: u16,
    ready: &mut K,
) -> (Result<ServeEnd, KeepFault>, D)
    ensures ends { EndsServer D.senses (worker_senses (TurnAsks D.senses)
        (visit_senses S.One.In.left S.One.In.faults S.One.Out.held S.One.Out.faults
        S.One.Time.to_come) (λ d. S.One.told d) (λ d. S.One.faults d)) port result.0
        (serving_world (S.told doors.old) (S.ports doors.old) (K.held ready.old))
        (serving_world (S.told doors.new) (S.ports doors.new) (K.held ready.new)) disk result.1 }
    ensures disk { result.0 ≡ Err DiskFault → RoseBy D.senses.faults disk result.1 }
    ensures write { result.0 ≡ Ok ServeEnd.WriteFault → RoseBy K.faults ready.old ready.new }
    ensures doors { result.0 ≡ Ok ServeEnd.DoorsFault → RoseBy S.faults doors.old doors.new }
{
    match Office::open(alloc, disk) {
        Ok(office) => {
            let (end, disk) = serve(rt, alloc, office, doors, port, ready);
            (Ok(end), disk)
        }
        Err(failed) => (Err(failed.fault), failed.disk),
    }
}
