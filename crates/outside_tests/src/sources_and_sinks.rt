//! What no clause says of sources and sinks: that their calls succeed, and which bytes pass through
//! the adapters over std. What comes of a row is what the sink holds, whether the copy was done,
//! and counts.
use crate::rows::{expect_row, numbers_of};
use office_outside::{
    Failed, MemorySink, MemorySource, Plan, Sink, Source, StdSink, StdSource, write_whole,
};
use std::alloc::{AllocError, Global};
use std::io;
use std::io::{ErrorKind, Read, Write};
use std::process::Abort;

/// How a scripted reader or writer of std answers one call.
#[derive(Clone, Copy)]
enum Answer {
    Moves,
    Interrupts,
    TakesNothing,
    Breaks,
}

/// The answers of a script: `m` moves, `i` interrupts, `n` takes nothing, and `b` breaks.
fn answers_of(alloc: Global, script: &str) -> Result<Vec<Answer>, AllocError> {
    let mut answers = Vec::new(alloc);
    for letter in script.as_bytes() {
        answers.push(match *letter {
            b'i' => Answer::Interrupts,
            b'n' => Answer::TakesNothing,
            b'b' => Answer::Breaks,
            _ => Answer::Moves,
        })?;
    }
    Ok(answers)
}

/// A reader and writer of std that moves one byte a call and answers by a script.
#[derive(Drop)]
struct Scripted {
    bytes: Vec<u8>,
    at: usize,
    script: Vec<Answer>,
    calls: usize,
}

impl Scripted {
    fn new(rt: &(impl AllocGlobal + Abort), bytes: &[u8], script: &str) -> Scripted {
        Scripted {
            bytes: Vec::from_slice(rt.alloc(), bytes).expect(rt, "memory"),
            at: 0,
            script: answers_of(rt.alloc(), script).expect(rt, "memory"),
            calls: 0,
        }
    }

    /// The answer to this call, and an error where it is one. After the script each call moves.
    fn answer(&mut self) -> io::Result<Answer> {
        let answer = self
            .script
            .get(self.calls)
            .copied()
            .unwrap_or(Answer::Moves);
        self.calls = self.calls.saturating_add(1);
        match answer {
            Answer::Interrupts => Err(ErrorKind::Interrupted.into()),
            Answer::Breaks => Err(ErrorKind::BrokenPipe.into()),
            _ => Ok(answer),
        }
    }
}

impl Read for Scripted {
    fn read(&mut self, piece: &mut [u8]) -> io::Result<usize> {
        self.answer()?;
        match (self.bytes.get(self.at), piece.first_mut()) {
            (Some(byte), Some(place)) => {
                *place = *byte;
                self.at = self.at.saturating_add(1);
                Ok(1)
            }
            _ => Ok(0),
        }
    }
}

impl Write for Scripted {
    fn write(&mut self, piece: &[u8]) -> io::Result<usize> {
        match (self.answer()?, piece.first()) {
            (Answer::Moves, Some(byte)) => {
                self.bytes.push(*byte)?;
                Ok(1)
            }
            _ => Ok(0),
        }
    }

    fn flush(&mut self) -> io::Result<()> {
        self.answer()?;
        Ok(())
    }
}

/// Copies a source to a sink through pieces of four bytes, in at most so many reads.
fn copy<S: Source, K: Sink>(input: &mut S, output: &mut K, reads: usize) -> Result<(), Failed> {
    let mut piece = [0; 4];
    for _ in 0..reads {
        let count = input.read(&mut piece)?;
        if count == 0 {
            break;
        }
        write_whole(output, piece.get(..count).unwrap_or(&[]))?;
    }
    output.flush()
}

/// A plan by which these calls fail, and the first moves are of these sizes.
fn plan(rt: &(impl AllocGlobal + Abort), failing: &str, sizes: &str) -> Plan {
    let failing = numbers_of(rt.alloc(), failing).expect(rt, "memory");
    let mut moves = Vec::new(rt.alloc());
    for size in numbers_of(rt.alloc(), sizes).expect(rt, "memory").iter() {
        moves.push(*size as usize).expect(rt, "memory");
    }
    Plan::new(failing, moves)
}

fn done(outcome: Result<(), Failed>) -> &'static str {
    if outcome.is_ok() { "done" } else { "failed" }
}

/// A copy of ten bytes between two memory forms by their plans, as the failing calls and the sizes
/// of each: what is held, and how often the source and the sink failed.
fn by_plans(rt: &(impl AllocGlobal + Abort), plans: &str) -> String {
    let mut parts = plans.split(';');
    let (reads, sizes) = (parts.next().unwrap_or(""), parts.next().unwrap_or(""));
    let (writes, moves) = (parts.next().unwrap_or(""), parts.next().unwrap_or(""));
    let bytes = Vec::from_slice(rt.alloc(), b"abcdefghij").expect(rt, "memory");
    let mut input = MemorySource::new(bytes, plan(rt, reads, sizes));
    let mut output = MemorySink::new(rt.alloc(), plan(rt, writes, moves));
    let done = done(copy(&mut input, &mut output, 20));
    let held = str::from_utf8(output.bytes()).unwrap_or("no text");
    let (read, written) = (input.plan().faults(), output.plan().faults());
    format!(in rt.alloc(); "{held}, {done} {read} {written}").expect(rt, "memory")
}

/// A copy of three bytes out of a reader with this script: what is held, and the source's faults.
fn out_of_std(rt: &(impl AllocGlobal + Abort), script: &str) -> String {
    let mut input = StdSource::new(Scripted::new(rt, b"abc", script));
    let mut output = MemorySink::new(rt.alloc(), Plan::smooth(rt.alloc()));
    let done = done(copy(&mut input, &mut output, 20));
    let held = str::from_utf8(output.bytes()).unwrap_or("no text");
    let faults = input.faults();
    format!(in rt.alloc(); "{held}, {done} {faults}").expect(rt, "memory")
}

/// A copy of three bytes into a writer with this script: whether it was done, and the sink's
/// faults.
fn copied(rt: &(impl AllocGlobal + Abort), writer: &mut Scripted) -> (&'static str, u64) {
    let bytes = Vec::from_slice(rt.alloc(), b"abc").expect(rt, "memory");
    let mut input = MemorySource::new(bytes, Plan::smooth(rt.alloc()));
    let mut output = StdSink::new(writer);
    let done = done(copy(&mut input, &mut output, 20));
    (done, output.faults())
}

/// What the writer then holds, its calls, and the sink's faults.
fn into_std(rt: &(impl AllocGlobal + Abort), script: &str) -> String {
    let mut writer = Scripted::new(rt, b"", script);
    let (done, faults) = copied(rt, &mut writer);
    let held = str::from_utf8(&writer.bytes).unwrap_or("no text");
    let calls = writer.calls;
    format!(in rt.alloc(); "{held}, {done} {calls} {faults}").expect(rt, "memory")
}

/// Holds what comes of each row to what is wanted.
fn play(rt: &(impl AllocGlobal + Abort), rows: &str) {
    for line in rows.lines() {
        let (row, wanted) = line.split_once(" => ").expect(rt, "what is wanted");
        let told = match row.split_once(' ') {
            Some(("from", script)) => out_of_std(rt, script),
            Some(("to", script)) => into_std(rt, script),
            _ => by_plans(rt, row),
        };
        expect_row(rt, row, &told, wanted);
    }
}

#[test]
fn memory_forms_go_by_their_plans(rt: HostRuntime) {
    let rows = "\
;;; => abcdefghij, done 0 0
;1 0 3;; => abcdefghij, done 0 0
;;;1 2 0 => abcdefghij, done 0 0
0;;; => , failed 1 0
2;3 2;; => abcde, failed 1 0
;;2;3 => abcd, failed 0 1
;;3; => abcdefghij, failed 0 1";
    play(&rt, rows);
}

/// The last reader interrupts a hundred times.
#[test]
fn a_source_over_std_gives_its_bytes(rt: HostRuntime) {
    let rows = "\
from m => abc, done 0
from mii => abc, done 0
from mb => a, failed 1
from iiiiiiiiiiiiiiiiiiiiiiiiiiiiiiiiiiiiiiiiiiiiiiiiii\
iiiiiiiiiiiiiiiiiiiiiiiiiiiiiiiiiiiiiiiiiiiiiiiiii => , failed 1";
    play(&rt, rows);
}

#[test]
fn a_sink_over_std_takes_its_bytes(rt: HostRuntime) {
    let rows = "\
to m => abc, done 4 0
to mi => abc, done 5 0
to mn => a, failed 2 1
to mmb => ab, failed 3 1
to mmmb => abc, failed 4 1
to mmmi => abc, done 5 0";
    play(&rt, rows);
}
