//! The serving of an office over doors.
ghost use Rattle.std.specs.Prelude.{◌≡◌, ◌≤◌, ◌⊎◌, Ok, Err, true, false, All, length};
ghost use Rattle.office_outside.specs.Faults.{Rose};
ghost use Rattle.turn_counter.specs.Turns.{TurnAsks};
ghost use Rattle.office_doors.specs.Books.{IsFresh, Moves, WhereTold};
ghost use Rattle.office_doors.specs.declared.DoorsFault.TheVariants.{Failed as DoorsFailed};
ghost use Rattle.visit_workers.specs.Visits.{visit_senses};
ghost use Rattle.visit_workers.specs.Workers.{AreClosed, HasRoom, ServesDoors, worker_senses};
ghost use Rattle.office_serving.specs.Serving.{EndsServing, IsServed, serving_world};

use crate::ready::say_ready;
use crate::seats::{leave_seats, take_seats};
use office_counter::Counter;
use office_doors::{Door, Doors, DoorsFault};
use office_keep::Office;
use office_outside::{Disk, Sink};
use std::alloc::Global;
use std::sync::Wait;
use std::thread::Threads;
use turn_counter::{DeskOffice, close_desk, open_desk};
use turn_desk::{Desk, Pass};
use visit_workers::{run_workers, take_kits};

/// How many workers there are.
pub const WORKERS: u32 = 4;

/// How the serving of an office ended.
#[derive(Clone, Copy, Debug, Drop, PartialEq, Eq)]
pub enum ServeEnd {
    /// Each door had no more visits.
    Done,
    /// The count of faults of `ready` rose. No visit was taken.
    WriteFault,
    /// The doors' count of faults rose: they weren't opened, or one of them failed.
    DoorsFault,
    /// Memory was refused before a door was opened.
    NoMemory,
}

/// How it ends where the doors aren't opened.
fn end_of_fault(fault: DoorsFault) -> ServeEnd
    ensures failed { result ≡ ServeEnd.DoorsFault → fault ≡ DoorsFailed }
    ensures unopened { (result ≡ ServeEnd.DoorsFault) ⊎ (result ≡ ServeEnd.NoMemory) }
{
    match fault {
        DoorsFault::Failed => ServeEnd::DoorsFault,
        DoorsFault::NoMemory => ServeEnd::NoMemory,
    }
}

/// How it ends where the workers ran.
fn end_of_work(well: bool) -> ServeEnd
    ensures yes { well ≡ true → result ≡ ServeEnd.Done }
    ensures no { well ≡ false → result ≡ ServeEnd.DoorsFault }
{
    if well {
        ServeEnd::Done
    } else {
        ServeEnd::DoorsFault
    }
}

/// Closes doors at which nobody worked.
fn shut<S: Doors>(opened: Vec<S::One>, doors: &mut S)
    requires open { WhereTold (HasRoom (length opened.items)) (S.told doors.old) }
    ensures closed { Moves (AreClosed opened.items) (S.told doors.old) (S.told doors.new) }
    ensures ports { S.ports doors.new ≡ S.ports doors.old }
{
    for door in opened {
        doors.close(door);
    }
}

/// Serves visits by these counters, each worker with its own, and leaves the counters in their
/// order. Each worker has all the memory of its sessions before a door is opened.
fn serve_doors<R: Wait + Threads + Sync, T: Counter + Send + Drop, S: Doors, K: Sink>(
    rt: &R,
    alloc: Global,
    counters: &mut Vec<T>,
    doors: &mut S,
    port: u16,
    ready: &mut K,
) -> ServeEnd
    requires { length counters.old.items ≡ WORKERS }
    ensures count { length counters.new.items ≡ WORKERS }
    ensures ends { EndsServing (worker_senses T.asks
        (visit_senses S.One.In.left S.One.In.faults S.One.Out.held S.One.Out.faults
        S.One.Time.to_come) (λ d. S.One.told d) (λ d. S.One.faults d)) port
        (λ opened closed. ServesDoors (worker_senses T.asks
        (visit_senses S.One.In.left S.One.In.faults S.One.Out.held S.One.Out.faults
        S.One.Time.to_come) (λ d. S.One.told d) (λ d. S.One.faults d)) counters.old.items opened
        closed counters.new.items) (counters.new.items ≡ counters.old.items) result
        (serving_world (S.told doors.old) (S.ports doors.old) (K.held ready.old))
        (serving_world (S.told doors.new) (S.ports doors.new) (K.held ready.new)) }
    ensures write { result ≡ ServeEnd.WriteFault →
        Rose (K.faults ready.old) (K.faults ready.new) }
    ensures doors { result ≡ ServeEnd.DoorsFault →
        Rose (S.faults doors.old) (S.faults doors.new) }
{
    let mut workers = Vec::new(alloc);
    if workers.reserve(WORKERS as usize).is_err() {
        return ServeEnd::NoMemory;
    }
    let Ok(kits) = take_kits(alloc, WORKERS) else {
        return ServeEnd::NoMemory;
    };
    let opened = match doors.open(port, WORKERS as usize) {
        Ok(opened) => opened,
        Err(fault) => return end_of_fault(fault),
    };
    if say_ready(ready).is_err() {
        shut(opened, doors);
        return ServeEnd::WriteFault;
    }
    let well = run_workers(rt, alloc, kits, counters, opened, workers, doors);
    end_of_work(well)
}

/// Serves visits at a desk, and leaves the passes where they were taken from.
fn serve_at<R: Wait + Threads + Sync, D: Disk + Send + Drop, S: Doors, K: Sink>(
    rt: &R,
    alloc: Global,
    desk: &Desk<DeskOffice<D>>,
    passes: &mut Vec<Pass<DeskOffice<D>>>,
    doors: &mut S,
    port: u16,
    ready: &mut K,
) -> ServeEnd
    requires desk { All (λ p. p.desk ≡ desk.now) passes.old.items }
    requires count { length passes.old.items ≡ WORKERS }
    ensures count { length passes.new.items ≡ WORKERS }
    ensures ends { EndsServing (worker_senses (TurnAsks D.senses)
        (visit_senses S.One.In.left S.One.In.faults S.One.Out.held S.One.Out.faults
        S.One.Time.to_come) (λ d. S.One.told d) (λ d. S.One.faults d)) port
        (λ opened closed. ServesDoors (worker_senses (TurnAsks D.senses)
        (visit_senses S.One.In.left S.One.In.faults S.One.Out.held S.One.Out.faults
        S.One.Time.to_come) (λ d. S.One.told d) (λ d. S.One.faults d)) passes.old.items opened
        closed passes.new.items) (passes.new.items ≡ passes.old.items) result
        (serving_world (S.told doors.old) (S.ports doors.old) (K.held ready.old))
        (serving_world (S.told doors.new) (S.ports doors.new) (K.held ready.new)) }
    ensures write { result ≡ ServeEnd.WriteFault →
        Rose (K.faults ready.old) (K.faults ready.new) }
    ensures doors { result ≡ ServeEnd.DoorsFault →
        Rose (S.faults doors.old) (S.faults doors.new) }
{
    let mut counters = Vec::new(alloc);
    if counters.reserve(WORKERS as usize).is_err() {
        return ServeEnd::NoMemory;
    }
    take_seats(rt, desk, passes, &mut counters);
    let end = serve_doors(rt, alloc, &mut counters, doors, port, ready);
    leave_seats(counters, passes);
    end
}

/// Serves an office to the visitors of four doors at a port, by four workers that take turns, and
/// hands its disk back. Each worker has all the memory of its sessions before a door is opened.
/// `ready` is told when the doors are open, before any visit is taken. The doors are closed one by
/// one after all workers have ended.
pub fn serve<R: Wait + Threads + Sync, D: Disk + Send + Drop, S: Doors, K: Sink>(
    rt: &R,
    alloc: Global,
    office: Office<D>,
    doors: &mut S,
    port: u16,
    ready: &mut K,
) -> (ServeEnd, D)
    ensures served { IsServed D.senses (worker_senses (TurnAsks D.senses)
        (visit_senses S.One.In.left S.One.In.faults S.One.Out.held S.One.Out.faults
        S.One.Time.to_come) (λ d. S.One.told d) (λ d. S.One.faults d)) port office result.0
        (serving_world (S.told doors.old) (S.ports doors.old) (K.held ready.old))
        (serving_world (S.told doors.new) (S.ports doors.new) (K.held ready.new)) result.1 }
    ensures write { result.0 ≡ ServeEnd.WriteFault →
        Rose (K.faults ready.old) (K.faults ready.new) }
    ensures doors { result.0 ≡ ServeEnd.DoorsFault →
        Rose (S.faults doors.old) (S.faults doors.new) }
{
    turn_counter::laws::what_a_pass_has_seen();
    record_form::laws::an_entry_is_read_back();
    office.disk_stands();
    office.core().is_legal();
    match open_desk(alloc, office, WORKERS) {
        Ok((desk, mut passes)) => {
            let end = serve_at(rt, alloc, &desk, &mut passes, doors, port, ready);
            let office = close_desk(rt, desk, passes);
            office.disk_stands();
            office.core().is_legal();
            (end, office.into_disk())
        }
        Err(office) => (ServeEnd::NoMemory, office.into_disk()),
    }
}
