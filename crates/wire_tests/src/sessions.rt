//! Sessions over a counter that never has memory: what is asked, and what is answered without it.
use crate::expectations::{expect, expect_text};
use message_session::SessionEnd;
use office_counter::Counter;
use office_outside::{MemoryClock, MemorySink, MemorySource, Plan};
use office_session::session;
use record_form::{Command, Outcome, Request};
use std::alloc::{AllocError, Global};
use std::process::Abort;

/// Counts how often it is asked, and how many rows of samples it is asked to take.
#[derive(Drop)]
struct Closed {
    asked: u32,
    rows: usize,
}

impl Counter for Closed {
    ghost use Rattle.std.specs.Prelude.{◌≡◌, [], refl};
    ghost use Rattle.std.proofs.Common.{arith};
    ghost use Rattle.record_form.specs.declared.Outcome.TheVariants.{NoMemory};
    ghost use Rattle.office_history.specs.Legal.{empty};
    ghost use Rattle.office_counter.specs.Steps.{lacks};

    ghost asks = { λ old reading request outcome new. outcome ≡ NoMemory };

    ghost standing = { λ counter.
        record { office = record { origin = 0; history = [] }; own = []; faults = 0 } };

    fn ask(&mut self, _alloc: Global, _reading: u32, request: &Request) -> Outcome {
        self.asked = self.asked.saturating_add(1);
        if let Request::Change(Command::Samples(rows)) = request {
            self.rows = self.rows.saturating_add(rows.as_slice().len());
        }
        Outcome::NoMemory
    }

    ghost steps = { λ old reading request outcome new told. record {
      others = [];
      later = Prim.omega arith;
      legal = empty;
      does = lacks told refl refl;
    } };
}

/// Inputs, in which `|` is the end of a line, and what comes of each: the end of the session, how
/// often the counter was asked, and the answers' statuses, and which of them close.
fn table() -> &'static str {
    "\
GET /notices HTTP/1.1|| => Done 1 503
GET /nope HTTP/1.1|| => Done 0 404
GET /tick HTTP/1.1|| => Done 0 405
GET /notices?x=1 HTTP/1.1|| => Done 0 400
POST /samples HTTP/1.1|Content-Length: 1||x => Done 0 400
POST /tick HTTP/1.1||GET /tick HTTP/1.1|Connection: close||GET / HTTP/1.1|| => Done 1 503 405 close
POST /tick HTTP/1.1||GET / HTTP/2.0||GET /notices HTTP/1.1|| => Done 1 503 400 close
POST /tick HTTP/1.1||POST /tick HTTP/1.1|Content-Length: 1|| => Cut 1 503
\0GET /notices HTTP/1.1||GET /notices HTTP/1.1|| => Done 0 400 close"
}

/// The bytes of an input of the table.
fn bytes_of(alloc: Global, text: &str) -> Result<Vec<u8>, AllocError> {
    let mut bytes = Vec::new(alloc);
    for byte in text.as_bytes() {
        bytes.push(if *byte == b'|' { b'\n' } else { *byte })?;
    }
    Ok(bytes)
}

/// What a session over some bytes came to.
#[derive(Drop)]
struct Run {
    end: SessionEnd,
    counter: Closed,
    output: MemorySink,
}

fn run_session(alloc: Global, bytes: Vec<u8>, reads: Plan) -> Run {
    let mut counter = Closed { asked: 0, rows: 0 };
    let mut input = MemorySource::new(bytes, reads);
    let mut output = MemorySink::new(alloc, Plan::smooth(alloc));
    let mut clock = MemoryClock::new(Vec::new(alloc));
    let end = session(alloc, &mut counter, &mut input, &mut output, &mut clock);
    Run {
        end,
        counter,
        output,
    }
}

/// What came of a session, as the table has it.
fn shown(alloc: Global, run: &Run) -> Result<String, AllocError> {
    let answers = String::from_utf8_lossy(alloc, run.output.bytes())?;
    let mut shown = format!(in alloc; "{:?} {}", run.end, run.counter.asked)?;
    for line in answers.lines() {
        if let Some((_, status)) = line.split_once("HTTP/1.1 ") {
            let status = status.get(..3).unwrap_or("");
            shown.push_str(" ")?;
            shown.push_str(status)?;
        }
        if line == "Connection: close" {
            shown.push_str(" close")?;
        }
    }
    Ok(shown)
}

#[test]
fn only_requests_are_asked(rt: HostRuntime) {
    for row in table().lines() {
        let (text, want) = row.split_once(" => ").expect(&rt, "an outcome");
        let bytes = bytes_of(rt.alloc(), text).expect(&rt, "memory");
        let run = run_session(rt.alloc(), bytes, Plan::smooth(rt.alloc()));
        let shown = shown(rt.alloc(), &run).expect(&rt, "memory");
        expect_text(&rt, text, &shown, want);
    }
}

const NOT_FOUND: &str = "HTTP/1.1 404 Not Found\r\nContent-Type: application/json\r\n\
Content-Length: 21\r\nConnection: keep-alive\r\n\r\n{\"error\":\"not_found\"}";

#[test]
fn the_bytes_of_an_answer(rt: HostRuntime) {
    let bytes = bytes_of(rt.alloc(), "GET /nope HTTP/1.1||").expect(&rt, "memory");
    let run = run_session(rt.alloc(), bytes, Plan::smooth(rt.alloc()));
    expect(&rt, run.output.bytes() == NOT_FOUND.as_bytes(), NOT_FOUND);
}

/// A batch of so many rows, as one request.
fn batch(alloc: Global, rows: usize) -> Result<Vec<u8>, AllocError> {
    let row = b"shop-good,web,999,1,999,1000\n";
    let length = rows.saturating_mul(row.len());
    let head = format!(in alloc; "POST /samples HTTP/1.1\nContent-Length: {length}\n\n")?;
    let mut bytes = Vec::from_slice(alloc, head.as_bytes())?;
    for _row in 0..rows {
        bytes.extend_from_slice(row)?;
    }
    Ok(bytes)
}

/// A batch of the most rows comes whole, in eight pieces of 4,096 bytes.
#[test]
fn a_batch_of_many_pieces_is_asked_once(rt: HostRuntime) {
    let bytes = batch(rt.alloc(), 1_000).expect(&rt, "memory");
    let sizes = vec![in rt.alloc(); 4_096; 8].expect(&rt, "memory");
    let run = run_session(rt.alloc(), bytes, Plan::new(Vec::new(rt.alloc()), sizes));
    let shown = shown(rt.alloc(), &run).expect(&rt, "memory");
    expect_text(&rt, "a batch", &shown, "Done 1 503");
    expect(&rt, run.counter.rows == 1_000, "a thousand rows");
}

/// So many requests, and what comes of them: each is asked and answered, up to the 1,000th, whose
/// answer closes.
fn many(alloc: Global, count: usize) -> Result<(Vec<u8>, String), AllocError> {
    let mut bytes = Vec::new(alloc);
    let asked = count.min(1_000);
    let mut want = format!(in alloc; "Done {asked}")?;
    for number in 0..count {
        bytes.extend_from_slice(b"GET /notices HTTP/1.1\n\n")?;
        if number < 1_000 {
            want.push_str(" 503")?;
        }
    }
    if count >= 1_000 {
        want.push_str(" close")?;
    }
    Ok((bytes, want))
}

#[test]
fn a_thousand_requests_are_the_most(rt: HostRuntime) {
    for count in [999, 1_000, 1_001] {
        let (bytes, want) = many(rt.alloc(), count).expect(&rt, "memory");
        let run = run_session(rt.alloc(), bytes, Plan::smooth(rt.alloc()));
        let shown = shown(rt.alloc(), &run).expect(&rt, "memory");
        expect_text(&rt, "requests", &shown, &want);
    }
}
