//! The work at one door: its visits, one after another.
ghost use Rattle.std.specs.Prelude.{◌≡◌, ◌≤◌, Ok, false};
ghost use Rattle.office_outside.specs.Faults.{HasCause, Rose};
ghost use Rattle.office_doors.specs.Books.{HasAllBack, WhereTold};
ghost use Rattle.visit_workers.specs.Visits.{HasEnded, ServesVisit, ServesVisits, visit_senses};

use office_counter::Counter;
use office_doors::{Door, Visit};
use office_outside::{Clock, Failed, Sink, Source};
use office_session::{SessionKit, session_with};
use std::alloc::Global;
use std::sync::Wait;

/// How the work at a door ended.
#[derive(Clone, Copy, Debug, Drop, PartialEq, Eq)]
pub enum WorkEnd {
    /// The door had no more visits.
    Done,
    /// The door's count of faults rose.
    DoorFault,
}

/// Runs one session over a visit: until its messages end, one of them closes, or its source or its
/// sink fails.
fn serve_visit<T: Counter, I: Source, O: Sink, C: Clock>(
    alloc: Global,
    kit: &mut SessionKit,
    counter: &mut T,
    visit: &mut Visit<I, O, C>,
)
    ensures { ServesVisit T.asks (visit_senses I.left I.faults O.held O.faults C.to_come) visit.old
        visit.new counter.old counter.new }
{
    let _end = session_with(
        alloc,
        kit,
        counter,
        &mut visit.input,
        &mut visit.output,
        &mut visit.clock,
    );
}

/// Serves the next visit of a door and hands it back. It answers whether there was one.
fn serve_next<T: Counter, A: Door>(
    alloc: Global,
    kit: &mut SessionKit,
    counter: &mut T,
    door: &mut A,
) -> Result<bool, Failed>
    requires { WhereTold HasAllBack (A.told door.old) }
    ensures works { ServesVisits T.asks (visit_senses A.In.left A.In.faults A.Out.held A.Out.faults
        A.Time.to_come) counter.old counter.new (A.told door.old) (A.told door.new) }
    ensures back { WhereTold HasAllBack (A.told door.new) }
    ensures none { result ≡ Ok false → WhereTold HasEnded (A.told door.new) }
    ensures cause { HasCause (A.faults door.old) (A.faults door.new) result }
{
    match door.next() {
        Ok(Some(mut visit)) => {
            serve_visit(alloc, kit, counter, &mut visit);
            door.end(visit);
            Ok(true)
        }
        Ok(None) => Ok(false),
        Err(failed) => Err(failed),
    }
}

/// Serves the visits of a door by a counter, one after another, and hands each back before it takes
/// the next. The kit serves them all, so that no visit is given back unserved for want of memory.
/// The work ends where there are no more visits, or the door fails; a session's own end ends that
/// visit alone.
pub fn work<R: Wait, T: Counter, A: Door>(
    rt: &R,
    alloc: Global,
    kit: &mut SessionKit,
    counter: &mut T,
    door: &mut A,
) -> WorkEnd
    requires { WhereTold HasAllBack (A.told door.old) }
    ensures works { ServesVisits T.asks (visit_senses A.In.left A.In.faults A.Out.held A.Out.faults
        A.Time.to_come) counter.old counter.new (A.told door.old) (A.told door.new) }
    ensures back { WhereTold HasAllBack (A.told door.new) }
    ensures later { A.faults door.old ≤ A.faults door.new }
    ensures done { result ≡ WorkEnd.Done → WhereTold HasEnded (A.told door.new) }
    ensures fault { result ≡ WorkEnd.DoorFault → Rose (A.faults door.old) (A.faults door.new) }
{
    for _ in rt.forever() {
        match serve_next(alloc, kit, counter, door) {
            Ok(true) => {}
            Ok(false) => return WorkEnd::Done,
            Err(Failed) => return WorkEnd::DoorFault,
        }
    }
    unreachable!()
}
