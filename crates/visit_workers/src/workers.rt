//! Workers, each in a thread of its own.
ghost use Rattle.std.specs.Prelude.{◌≡◌, ◌⊎◌, ◌≤◌, ◌<◌, [], true, false, ℕ, All, length, IfSome};
ghost use Rattle.std.specs.Prelude.{map, slice_index_or, vec_capacity};
ghost use Rattle.std.proofs.Props.{props};
ghost use Rattle.office_outside.specs.Faults.{Rose};
ghost use Rattle.office_doors.specs.Books.{HasAllBack, IsFresh, Moves, WhereTold};
ghost use Rattle.visit_workers.specs.Visits.{visit_senses};
ghost use Rattle.visit_workers.specs.Workers.{AreClosed, HasRoom, RanWorkers, ServedDoor};
ghost use Rattle.visit_workers.specs.Workers.{worker_senses};

use crate::visits::{WorkEnd, work};
use office_counter::Counter;
use office_doors::{Door, Doors};
use office_session::SessionKit;
use std::alloc::Global;
use std::sync::Wait;
use std::thread::{Threads, for_each_mut};

/// A counter, a door and a kit, for one thread. It has its kit before its first visit.
#[derive(Drop)]
pub struct Worker<'a, T: Drop, A: Door + Drop, R: Wait> {
    rt: &'a R,
    alloc: Global,
    kit: SessionKit,
    counter: T,
    door: A,
    end: WorkEnd,
    ghost back: { IfSome (A.told door) HasAllBack } by { Prim.hlevel props },
}

impl<'a, T: Counter + Drop, A: Door + Drop, R: Wait> Worker<'a, T, A, R> {
    /// A function of its own, so that the prover has a name for what is pushed.
    fn hire(rt: &'a R, alloc: Global, kit: SessionKit, counter: T, door: A) -> Worker<'a, T, A, R>
        requires { WhereTold HasAllBack (A.told door) }
        ensures counter { result.counter ≡ counter }
        ensures door { result.door ≡ door }
    {
        Worker {
            rt,
            alloc,
            kit,
            counter,
            door,
            end: WorkEnd::Done,
        }
    }

    /// Serves the visits of its door.
    fn serve_door(&mut self)
        ensures { ServedDoor (worker_senses T.asks
            (visit_senses A.In.left A.In.faults A.Out.held A.Out.faults A.Time.to_come)
            (λ d. A.told d) (λ d. A.faults d)) T.standing self.old.counter self.new.counter
            self.old.door self.new.door self.new.end }
    {
        let rt = self.rt;
        self.end = work(
            rt,
            self.alloc,
            &mut self.kit,
            &mut self.counter,
            &mut self.door,
        );
    }
}

/// Lets every worker serve its door, each in a thread of its own. Where no thread can be made its
/// work is done in turn.
fn run_all<R: Wait + Threads + Sync, T: Counter + Send + Drop, A: Door + Send + Drop>(
    rt: &R,
    workers: &mut [Worker<'_, T, A, R>],
)
    ensures same { length workers.new ≡ length workers.old }
    ensures worked { (k : ℕ) (d : _) → k < length workers.old →
        ServedDoor (worker_senses T.asks
        (visit_senses A.In.left A.In.faults A.Out.held A.Out.faults A.Time.to_come) (λ d. A.told d)
        (λ d. A.faults d)) T.standing (slice_index_or workers.old k d).counter
        (slice_index_or workers.new k d).counter (slice_index_or workers.old k d).door
        (slice_index_or workers.new k d).door (slice_index_or workers.new k d).end }
{
    let threads = workers.len().max(1);
    let step = |_: usize, worker: &mut Worker<'_, T, A, R>|
        ensures { ServedDoor (worker_senses T.asks
            (visit_senses A.In.left A.In.faults A.Out.held A.Out.faults A.Time.to_come)
            (λ d. A.told d) (λ d. A.faults d)) T.standing worker.old.counter worker.new.counter
            worker.old.door worker.new.door worker.new.end }
    { worker.serve_door() };
    for_each_mut(rt, workers, threads, &step);
}

/// A worker for each door, with a kit and with the counter of its place.
fn post<'a, R: Wait, T: Counter + Drop, A: Door + Drop>(
    rt: &'a R,
    alloc: Global,
    mut kits: Vec<SessionKit>,
    counters: &mut Vec<T>,
    doors: Vec<A>,
    workers: &mut Vec<Worker<'a, T, A, R>>,
)
    requires count { length counters.old.items ≡ length doors.items }
    requires kits { length kits.items ≡ length doors.items }
    requires empty { workers.old.items ≡ [] }
    requires room { length doors.items ≤ vec_capacity workers.old }
    requires back { All (λ d. WhereTold HasAllBack (A.told d)) doors.items }
    ensures doors { map (λ w. w.door) workers.new.items ≡ doors.items }
    ensures counters { map (λ w. w.counter) workers.new.items ≡ counters.old.items }
    ensures none_left { counters.new.items ≡ [] }
    ensures room { vec_capacity counters.new ≡ vec_capacity counters.old }
{
    for door in doors {
        let Some(kit) = kits.pop() else {
            unreachable!()
        };
        let counter = counters.remove(0);
        let worker = Worker::hire(rt, alloc, kit, counter, door);
        let _ = workers.push(worker);
    }
}

/// Whether all so far, and this one, ended well.
fn all_well(well: bool, end: WorkEnd) -> bool
    ensures yes { result ≡ true → (well ≡ true) × (end ≡ WorkEnd.Done) }
    ensures no { result ≡ false → (well ≡ false) ⊎ (end ≡ WorkEnd.DoorFault) }
{
    match end {
        WorkEnd::Done => well,
        WorkEnd::DoorFault => false,
    }
}

/// Closes the doors one after another, and gives the counters back. It answers whether each worker
/// ended well.
fn dismiss<R: Wait, T: Counter + Drop, S: Doors>(
    workers: Vec<Worker<'_, T, S::One, R>>,
    counters: &mut Vec<T>,
    doors: &mut S,
) -> bool
    requires empty { counters.old.items ≡ [] }
    requires room { length workers.items ≤ vec_capacity counters.old }
    requires open { WhereTold (HasRoom (length workers.items)) (S.told doors.old) }
    ensures counters { counters.new.items ≡ map (λ w. w.counter) workers.entry.items }
    ensures closed { Moves (AreClosed (map (λ w. w.door) workers.entry.items))
        (S.told doors.old) (S.told doors.new) }
    ensures ports { S.ports doors.new ≡ S.ports doors.old }
    ensures well { result ≡ true → All (λ w. w.end ≡ WorkEnd.Done) workers.entry.items }
    ensures cause { result ≡ false
        → All (λ w. w.end ≡ WorkEnd.DoorFault → 1 ≤ S.One.faults w.door) workers.entry.items
        → Rose (S.faults doors.old) (S.faults doors.new) }
{
    let mut well = true;
    for worker in workers {
        let Worker {
            counter,
            door,
            end,
            ..
        } = worker;
        well = all_well(well, end);
        let _ = counters.push(counter);
        doors.close(door);
    }
    well
}

/// Serves opened doors by workers, each with one of the kits and with the counter of its place, and
/// closes the doors. The list of workers has room for them. The counters come back as their workers
/// left them, in their order. It answers whether each worker ended well.
pub fn run_workers<'a, R: Wait + Threads + Sync, T: Counter + Send + Drop, S: Doors>(
    rt: &'a R,
    alloc: Global,
    kits: Vec<SessionKit>,
    counters: &mut Vec<T>,
    opened: Vec<S::One>,
    mut workers: Vec<Worker<'a, T, S::One, R>>,
    doors: &mut S,
) -> bool
    requires count { length counters.old.items ≡ length opened.items }
    requires kits { length kits.items ≡ length opened.items }
    requires quiet { All (λ d. S.One.faults d ≡ 0) opened.items }
    requires fresh { All (λ d. WhereTold IsFresh (S.One.told d)) opened.items }
    requires empty { workers.items ≡ [] }
    requires room { length opened.items ≤ vec_capacity workers }
    requires open { WhereTold (HasRoom (length opened.items)) (S.told doors.old) }
    ensures ran { RanWorkers (worker_senses T.asks
        (visit_senses S.One.In.left S.One.In.faults S.One.Out.held S.One.Out.faults
        S.One.Time.to_come) (λ d. S.One.told d) (λ d. S.One.faults d)) T.standing counters.old.items
        opened.items (S.told doors.old) (S.told doors.new) counters.new.items result }
    ensures ports { S.ports doors.new ≡ S.ports doors.old }
    ensures count { length counters.new.items ≡ length opened.items }
    ensures cause { result ≡ false → Rose (S.faults doors.old) (S.faults doors.new) }
{
    post(rt, alloc, kits, counters, opened, &mut workers);
    run_all(rt, workers.as_mut_slice());
    dismiss(workers, counters, doors)
}
