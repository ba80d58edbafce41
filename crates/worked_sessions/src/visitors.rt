//! Runs of `serve` over visitors in memory.

use crate::playing::{Played, Setting, numbers_in};
use crate::show::show_answers;
use office_doors::{GateSink, MemoryDoor, MemoryDoors, MemoryVisit, Visit};
use office_outside::{MemoryClock, MemorySink, MemorySource, Plan, Sink};
use std::alloc::{AllocError, Global};
use std::sync::Wait;
use std::thread::Threads;

/// What came of a run of `serve`, and what each visitor was answered.
#[derive(Drop)]
pub struct Served {
    pub played: Played,
    pub answers: Vec<String>,
}

/// A sink whose bytes can be looked at.
trait Shown {
    fn shown(&self) -> &[u8];
}

impl Shown for MemorySink {
    fn shown(&self) -> &[u8] {
        self.bytes()
    }
}

impl Shown for GateSink {
    fn shown(&self) -> &[u8] {
        self.bytes()
    }
}

/// A sink that takes all.
fn smooth_sink(alloc: Global) -> MemorySink {
    MemorySink::new(alloc, Plan::smooth(alloc))
}

/// What a visitor sends, and the visitor's clock.
fn sender(
    alloc: Global,
    setting: &Setting,
    bytes: &[u8],
) -> Result<(MemorySource, MemoryClock), AllocError> {
    let clock = setting.clock(alloc)?;
    let input = MemorySource::new(bytes.to_vec(alloc)?, Plan::smooth(alloc));
    Ok((input, clock))
}

/// Adds a visitor who sends these bytes, and whose answers go to this sink.
fn add_visit<K: Drop>(
    alloc: Global,
    setting: &Setting,
    visits: &mut Vec<MemoryVisit<K>>,
    bytes: &[u8],
    output: K,
) -> Result<(), AllocError> {
    let (input, clock) = sender(alloc, setting, bytes)?;
    visits.push(Visit {
        input,
        output,
        clock,
    })?;
    Ok(())
}

/// Visitors whose answers don't wait for one another.
fn plain_visits(
    alloc: Global,
    setting: &Setting,
    sent: &[Vec<u8>],
) -> Result<Vec<MemoryVisit<MemorySink>>, AllocError> {
    let mut visits = Vec::new(alloc);
    for bytes in sent {
        add_visit(alloc, setting, &mut visits, bytes, smooth_sink(alloc))?;
    }
    Ok(visits)
}

/// Adds a pair of visitors, of whom each is answered once the other one is being answered.
fn add_pair(
    alloc: Global,
    setting: &Setting,
    visits: &mut Vec<MemoryVisit<GateSink>>,
    first: &[u8],
    second: &[u8],
) -> Result<(), AllocError> {
    let (one, other) = GateSink::pair(alloc, smooth_sink(alloc), smooth_sink(alloc))?;
    add_visit(alloc, setting, visits, first, one)?;
    add_visit(alloc, setting, visits, second, other)
}

/// Such pairs of visitors.
fn gated_visits(
    alloc: Global,
    setting: &Setting,
    sent: &[Vec<u8>],
) -> Result<Vec<MemoryVisit<GateSink>>, AllocError> {
    let mut visits = Vec::new(alloc);
    for pair in sent.chunks_exact(2) {
        if let (Some(first), Some(second)) = (pair.get(0), pair.get(1)) {
            add_pair(alloc, setting, &mut visits, first, second)?;
        }
    }
    Ok(visits)
}

/// What a visitor was answered at the door of this place.
fn told_at(alloc: Global, place: usize, answers: &[u8]) -> Result<String, AllocError> {
    let number = place.saturating_add(1);
    let mut text = format!(in alloc; "visitor of door {number}:\n")?;
    show_answers(alloc, &mut text, answers)?;
    Ok(text)
}

/// What visitors were answered, as it came back to each door.
fn told<K: Shown + Drop>(
    alloc: Global,
    closed: &[MemoryDoor<K>],
) -> Result<Vec<String>, AllocError> {
    let mut answers = Vec::new(alloc);
    for (place, door) in closed.iter().enumerate() {
        for visit in door.back() {
            answers.push(told_at(alloc, place, visit.output.shown())?)?;
        }
    }
    Ok(answers)
}

/// The numbers of the calls of `next` that fail, for the first door.
fn failing_next(alloc: Global, failing: &str) -> Result<Vec<Vec<u64>>, AllocError> {
    let mut lists = Vec::new(alloc);
    lists.push(numbers_in(alloc, failing, "next ")?)?;
    Ok(lists)
}

/// Doors of these visitors.
fn doors_of<K: Drop>(
    alloc: Global,
    failing: &str,
    visits: Vec<MemoryVisit<K>>,
) -> Result<MemoryDoors<K>, AllocError> {
    let next = failing_next(alloc, failing)?;
    let open = numbers_in(alloc, failing, "doors ")?;
    Ok(MemoryDoors::new(alloc, visits, open, next))
}

/// Runs the program on these words, over these doors.
fn serve_at<K: Sink + Shown + Send + Drop>(
    rt: &(impl AllocGlobal + Wait + Threads + Sync),
    setting: &Setting,
    words: &str,
    doors: &mut MemoryDoors<K>,
) -> Result<Served, AllocError> {
    let alloc = rt.alloc();
    let prepared = setting.prepare(alloc, words, b"")?;
    let played = prepared.play(rt, doors);
    let answers = told(alloc, doors.closed())?;
    Ok(Served { played, answers })
}

/// Serves visitors who send these bytes, each as soon as a door takes them.
pub fn serve_visitors(
    rt: &(impl AllocGlobal + Wait + Threads + Sync),
    setting: &Setting,
    words: &str,
    sent: &[Vec<u8>],
) -> Result<Served, AllocError> {
    let alloc = rt.alloc();
    let visits = plain_visits(alloc, setting, sent)?;
    let mut doors = doors_of(alloc, setting.failing, visits)?;
    serve_at(rt, setting, words, &mut doors)
}

/// Serves pairs of visitors who send these bytes: each waits for the other one's answer.
pub fn serve_pairs(
    rt: &(impl AllocGlobal + Wait + Threads + Sync),
    setting: &Setting,
    words: &str,
    sent: &[Vec<u8>],
) -> Result<Served, AllocError> {
    let alloc = rt.alloc();
    let visits = gated_visits(alloc, setting, sent)?;
    let mut doors = doors_of(alloc, setting.failing, visits)?;
    serve_at(rt, setting, words, &mut doors)
}
