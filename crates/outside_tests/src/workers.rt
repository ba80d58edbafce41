//! One worker over a counter of its own, which knows neither a desk nor an office.
use crate::rows::{expect_row, numbers_of, visit_of};
use office_counter::Counter;
use office_doors::{MemoryDoor, MemoryVisit};
use office_outside::MemorySink;
use office_session::SessionKit;
use record_form::{Outcome, Request};
use std::alloc::{AllocError, Global};
use std::process::Abort;
use std::sync::Wait;
use visit_workers::work;

/// Counts how often it is asked, and never has memory to answer.
#[derive(Drop)]
struct Count {
    asked: u32,
}

impl Counter for Count {
    ghost use Rattle.std.specs.Prelude.{◌≡◌, [], refl};
    ghost use Rattle.std.proofs.Common.{arith};
    ghost use Rattle.record_form.specs.declared.Outcome.TheVariants.{NoMemory};
    ghost use Rattle.office_history.specs.Legal.{empty};
    ghost use Rattle.office_counter.specs.Steps.{lacks};

    ghost asks = { λ old reading request outcome new. outcome ≡ NoMemory };

    ghost standing = { λ counter.
        record { office = record { origin = 0; history = [] }; own = []; faults = 0 } };

    fn ask(&mut self, _alloc: Global, _reading: u32, _request: &Request) -> Outcome {
        self.asked = self.asked.saturating_add(1);
        Outcome::NoMemory
    }

    ghost steps = { λ old reading request outcome new told. record {
      others = [];
      later = Prim.omega arith;
      legal = empty;
      does = lacks told refl refl;
    } };
}

/// A visit with so many requests.
fn visit(rt: &(impl AllocGlobal + Abort), requests: usize) -> MemoryVisit<MemorySink> {
    let mut bytes = Vec::new(rt.alloc());
    for _ in 0..requests {
        bytes
            .extend_from_slice(b"GET /notices HTTP/1.1\n\n")
            .expect(rt, "memory");
    }
    visit_of(rt.alloc(), bytes)
}

/// Visits with two requests, none and three.
fn visits(rt: &(impl AllocGlobal + Abort)) -> Vec<MemoryVisit<MemorySink>> {
    let mut all = Vec::new(rt.alloc());
    for requests in [2, 0, 3] {
        all.push(visit(rt, requests)).expect(rt, "memory");
    }
    all
}

/// How many answers a visit got. A body has no end of line, so the next answer's first line goes on
/// from it.
fn answers_to(alloc: Global, visit: &MemoryVisit<MemorySink>) -> Result<u32, AllocError> {
    let text = String::from_utf8_lossy(alloc, visit.output.bytes())?;
    let mut count = 0u32;
    for line in text.lines() {
        if line.split_once("HTTP/1.1 503 ").is_some() {
            count = count.saturating_add(1);
        }
    }
    Ok(count)
}

/// How many answers each visit got, in the order in which they came back.
fn answers(alloc: Global, door: &MemoryDoor<MemorySink>) -> Result<String, AllocError> {
    let mut shown = String::new(alloc);
    for visit in door.back() {
        let count = answers_to(alloc, visit)?;
        let one = format!(in alloc; " {count}")?;
        shown.push_str(one.as_str())?;
    }
    Ok(shown)
}

/// The work at a door whose calls of these numbers fail: its end, the door's faults, whether the
/// door has ended, how often the counter was asked, and the answers of each visit.
fn work_at(rt: &(impl AllocGlobal + Abort + Wait), failing: &str) -> String {
    let failing = numbers_of(rt.alloc(), failing).expect(rt, "memory");
    let mut kit = SessionKit::new(rt.alloc()).expect(rt, "memory");
    let mut door = MemoryDoor::new(rt.alloc(), visits(rt), failing).expect(rt, "memory");
    let mut counter = Count { asked: 0 };
    let end = work(rt, rt.alloc(), &mut kit, &mut counter, &mut door);
    let answers = answers(rt.alloc(), &door).expect(rt, "memory");
    let (faults, ended, asked) = (door.faults(), door.ended(), counter.asked);
    format!(in rt.alloc(); "{end:?} {faults} {ended}, {asked} of{answers}").expect(rt, "memory")
}

#[test]
fn a_worker_serves_each_visit_by_its_own_counter(rt: HostRuntime) {
    expect_row(&rt, "", &work_at(&rt, ""), "Done 0 true, 5 of 2 0 3");
}

#[test]
fn a_door_that_fails_ends_its_worker(rt: HostRuntime) {
    expect_row(&rt, "1", &work_at(&rt, "1"), "DoorFault 1 false, 2 of 2");
}
