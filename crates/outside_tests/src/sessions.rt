//! Sessions over bytes in memory, at the corners, in pieces and beside faults. A row says by its
//! first word what is told of a session. In a message `|` is a line feed.
ghost use Rattle.std.specs.Prelude.{◌≡◌, ◌+◌, ◌%◌};

use crate::rows::{expect, expect_row, message_of, number_of};
use message_heads::Message;
use message_session::{Handler, SessionEnd, session};
use office_outside::{
    Clock, Failed, MemoryClock, MemorySink, MemorySource, Plan, Sink, Source, write_whole,
};
use std::alloc::{AllocError, Global};
use std::process::Abort;

/// Answers with four bytes: the last digits of the clock's reading and of the body's length, the
/// body's last byte, and `.`, or `!` where the answer is the session's last. A bad message is
/// answered with its status and a `!`.
#[derive(Drop)]
struct Echo;

fn digit(number: u32) -> u8
    ensures { result ≡ 48 + number % 10 }
{
    b'0' + (number % 10) as u8
}

impl<K: Sink> Handler<K> for Echo {
    ghost use Rattle.std.specs.Prelude.{⊤, ◌+◌, ◌/◌, ◌%◌, ◌∷◌, []};

    ghost answers = { λ old said last reading text new. ⊤ };

    ghost refusal = { λ echo status. (48 + status / 100 % 10) ∷ (48 + status / 10 % 10)
        ∷ (48 + status % 10) ∷ 33 ∷ [] };

    fn answer(
        &mut self,
        message: &Message,
        bytes: &[u8],
        reading: u32,
        last: bool,
        output: &mut K,
    ) -> Result<(), Failed> {
        let body = bytes
            .get(message.body.0 as usize..message.body.1 as usize)
            .unwrap_or(b"no body");
        let end = body.last().copied().unwrap_or(b'-');
        let mark = if last { b'!' } else { b'.' };
        let text = [digit(reading), digit(body.len() as u32), end, mark];
        write_whole(output, &text)
    }

    fn refuse(&self, status: u16, output: &mut K) -> Result<(), Failed> {
        let status = u32::from(status);
        let text = [digit(status / 100), digit(status / 10), digit(status), b'!'];
        write_whole(output, &text)
    }
}

/// A session over these bytes: how it ended, its source and its sink, and what the clock reads
/// next.
#[derive(Drop)]
struct Outcome {
    end: SessionEnd,
    input: MemorySource,
    output: MemorySink,
    next: u32,
}

/// The clock's readings: 0, 1, 2 and so on.
fn readings(alloc: Global) -> Result<Vec<u32>, AllocError> {
    let mut readings = Vec::new(alloc);
    for reading in 0..1_100 {
        readings.push(reading)?;
    }
    Ok(readings)
}

/// A session over these.
fn run(rt: &(impl AllocGlobal + Abort), input: MemorySource, output: MemorySink) -> Outcome {
    let mut clock = MemoryClock::new(readings(rt.alloc()).expect(rt, "memory"));
    let (mut input, mut output) = (input, output);
    let end = session(rt.alloc(), &mut Echo, &mut input, &mut output, &mut clock);
    let next = clock.minute();
    Outcome {
        end,
        input,
        output,
        next,
    }
}

/// A plan by which the call of a number fails, and the first calls move so many bytes each.
fn plan(rt: &(impl AllocGlobal + Abort), failing: u64, size: usize, count: usize) -> Plan {
    let sizes = vec![in rt.alloc(); size; count].expect(rt, "memory");
    let failing = vec![in rt.alloc(); failing; 1].expect(rt, "memory");
    Plan::new(failing, sizes)
}

/// A source of these bytes.
fn source(rt: &(impl AllocGlobal + Abort), bytes: &[u8], reads: Plan) -> MemorySource {
    let bytes = Vec::from_slice(rt.alloc(), bytes).expect(rt, "memory");
    MemorySource::new(bytes, reads)
}

/// A session that reads and writes in pieces of one size.
fn run_in_pieces(rt: &(impl AllocGlobal + Abort), bytes: &[u8], size: usize) -> Outcome {
    let reads = plan(rt, u64::MAX, size, bytes.len());
    let writes = plan(rt, u64::MAX, size, bytes.len());
    let input = source(rt, bytes, reads);
    run(rt, input, MemorySink::new(rt.alloc(), writes))
}

/// The text of what a sink holds.
fn held(output: &MemorySink) -> &str {
    str::from_utf8(output.bytes()).unwrap_or("no text")
}

/// The end of a session over a text in pieces of one size, how often its clock was read, and its
/// answers.
fn in_pieces(rt: &(impl AllocGlobal + Abort), text: &str, size: usize) -> String {
    let bytes = message_of(rt.alloc(), text).expect(rt, "memory");
    let run = run_in_pieces(rt, &bytes, size);
    format!(in rt.alloc(); "{:?} {} {}", run.end, run.next, held(&run.output)).expect(rt, "memory")
}

#[test]
fn sessions_in_pieces(rt: HostRuntime) {
    let rows = "\
GET / HTTP/1.1|| => Done 1 00-.
 => Done 0
GET / HTTP/1.1||GET /b HTTP/1.1|| => Done 2 00-.10-.
POST / HTTP/1.1|Content-Length: 5||helloGET / HTTP/1.1|| => Done 2 05o.10-.
POST / HTTP/1.1|Content-Length: 12||hello, worldPOST / HTTP/1.1|Content-Length: 1||x \
    => Done 2 02d.11x.
GE => Cut 0
GET / HTTP/1.1|Host: a => Cut 0
GET / HTTP/1.1||GET / HTTP/1.1| => Cut 1 00-.
POST / HTTP/1.1|Content-Length: 5|| => Cut 0
GET / HTTP/1.1||POST / HTTP/1.1|Content-Length: 5||hell => Cut 1 00-.
GET / HTTP/1.1||| => Cut 1 00-.
GET / HTTP/1.1|Connection: close||GET / HTTP/1.1|| => Done 1 00-!
GET / HTTP/1.0||GET / HTTP/1.1|| => Done 1 00-!
GET / HTTP/1.1||GET / HTTP/1.1|Connection: close||GE => Done 2 00-.10-!
GET / HTTP/2.0||GET / HTTP/1.1|| => Done 0 400!
GET / HTTP/1.1||GET / HTTP/1.1|Content-Length: x||GET / HTTP/1.1|| => Done 1 00-.400!
GET / HTTP/1.1||GET / HTTP/1.1|Transfer-Encoding: chunked||0|| => Done 1 00-.501!
GET / HTTP/1.1|Content-Length: 1048577|| => Done 0 413!
\0GET / HTTP/1.1||GET / HTTP/1.1|| => Done 0 400!
GET / HTTP/1.1||\0|GET / HTTP/1.1|| => Done 1 00-.400!";
    for line in rows.lines() {
        let (text, wanted) = line.split_once(" => ").expect(&rt, "what is wanted");
        for size in [1, 7, 4_096] {
            let told = in_pieces(&rt, text, size);
            expect_row(&rt, text, told.trim_end(), wanted);
        }
    }
}

/// A source of two messages, in pieces of one size. It looks whether it is told before each read of
/// just the bytes that it gave of a message that isn't whole.
#[derive(Drop)]
struct Noting {
    bytes: Vec<u8>,
    /// How many of them are the first message.
    first: usize,
    at: usize,
    size: usize,
    is_told: bool,
    is_right: bool,
}

impl Source for Noting {
    ghost use Rattle.std.specs.Prelude.{None};

    ghost left = { λ _. None };

    ghost faults = { λ _. 0 };

    fn note_held(&mut self, held: &[u8]) {
        let begun = if self.at < self.first {
            0
        } else if self.at < self.bytes.len() {
            self.first
        } else {
            self.at
        };
        self.is_told = self.bytes.get(begun..self.at) == Some(held);
    }

    fn read(&mut self, piece: &mut [u8]) -> Result<usize, Failed> {
        self.is_right = self.is_right && self.is_told;
        self.is_told = false;
        let rest = self.bytes.get(self.at..).unwrap_or(&[]);
        let count = rest.len().min(piece.len()).min(self.size);
        piece[..count].copy_from_slice(&rest[..count]);
        self.at = self.at.saturating_add(count);
        Ok(count)
    }
}

/// The end of a session over two messages in pieces of one size, whether its source was told right
/// before each read, and its answers.
fn noted(rt: &(impl AllocGlobal + Abort), text: &str, first: usize, size: usize) -> String {
    let mut input = Noting {
        bytes: message_of(rt.alloc(), text).expect(rt, "memory"),
        first,
        at: 0,
        size,
        is_told: false,
        is_right: true,
    };
    let mut output = MemorySink::new(rt.alloc(), Plan::smooth(rt.alloc()));
    let mut clock = MemoryClock::new(Vec::new(rt.alloc()));
    let end = session(rt.alloc(), &mut Echo, &mut input, &mut output, &mut clock);
    let is_right = input.is_right;
    format!(in rt.alloc(); "{end:?} {is_right} {}", held(&output)).expect(rt, "memory")
}

#[test]
fn a_source_is_told_what_is_held_of_a_message(rt: HostRuntime) {
    let text = "POST / HTTP/1.1|Content-Length: 5||helloGET / HTTP/1.1|Host: a||";
    for size in 1..66 {
        let told = noted(&rt, text, 40, size);
        expect_row(&rt, text, &told, "Done true 05o.00-.");
    }
}

/// A message with so many bytes in its target and in its body, and a short one behind it.
fn long_and_short(alloc: Global, target: usize, body: usize) -> Result<Vec<u8>, AllocError> {
    let mut bytes = Vec::from_slice(alloc, b"POST /")?;
    bytes.extend_from_slice(&vec![in alloc; b't'; target]?)?;
    let rest = format!(in alloc; " HTTP/1.1\nContent-Length: {body}\n\n")?;
    bytes.extend_from_slice(rest.as_bytes())?;
    bytes.extend_from_slice(&vec![in alloc; b'b'; body]?)?;
    bytes.extend_from_slice(b"GET / HTTP/1.1\n\n")?;
    Ok(bytes)
}

/// The end of a session over such messages in pieces of 4,096 bytes, how often its clock was read,
/// the reads up to the end of the input, and its answers.
fn of_two(rt: &(impl AllocGlobal + Abort), target_and_body: &str) -> String {
    let (target, body) = target_and_body.split_once(' ').unwrap_or(("", ""));
    let bytes = long_and_short(rt.alloc(), number_of(target), number_of(body));
    let run = run_in_pieces(rt, &bytes.expect(rt, "memory"), 4_096);
    let (end, next, reads) = (run.end, run.next, run.input.plan().calls());
    format!(in rt.alloc(); "{end:?} {next} {reads} {}", held(&run.output)).expect(rt, "memory")
}

/// The three messages of 16, 40 and 16 bytes, the last of which closes, and their answers.
const THREE: &str = "GET / HTTP/1.1||POST / HTTP/1.1|Content-Length: 5||helloGET / HTTP/1.0||";

/// The end of a session over them, of whose reads of seven bytes this one fails; how often the
/// source failed, what is left of it, and the answers.
fn failing_read(rt: &(impl AllocGlobal + Abort), call: &str) -> String {
    let bytes = message_of(rt.alloc(), THREE).expect(rt, "memory");
    let input = source(rt, &bytes, plan(rt, number_of(call) as u64, 7, 20));
    let run = run(
        rt,
        input,
        MemorySink::new(rt.alloc(), Plan::smooth(rt.alloc())),
    );
    let (end, faults, left) = (run.end, run.input.plan().faults(), run.input.left().len());
    format!(in rt.alloc(); "{end:?} {faults} {left} {}", held(&run.output)).expect(rt, "memory")
}

/// The end of a session over them, of whose writes of one byte, and flushes, this one fails; how
/// often the sink failed, and the answers.
fn failing_write(rt: &(impl AllocGlobal + Abort), call: &str) -> String {
    let bytes = message_of(rt.alloc(), THREE).expect(rt, "memory");
    let input = source(rt, &bytes, Plan::smooth(rt.alloc()));
    let writes = plan(rt, number_of(call) as u64, 1, 20);
    let run = run(rt, input, MemorySink::new(rt.alloc(), writes));
    let (end, faults) = (run.end, run.output.plan().faults());
    format!(in rt.alloc(); "{end:?} {faults} {}", held(&run.output)).expect(rt, "memory")
}

/// What comes of a row.
fn told(rt: &(impl AllocGlobal + Abort), row: &str) -> String {
    let (verb, words) = row.split_once(' ').unwrap_or((row, ""));
    match verb {
        "two" => of_two(rt, words),
        "read" => failing_read(rt, words),
        _ => failing_write(rt, words),
    }
}

/// Holds what comes of each row to what is wanted.
fn play(rt: &(impl AllocGlobal + Abort), rows: &str) {
    for line in rows.lines() {
        let (row, wanted) = line.split_once(" => ").expect(rt, "what is wanted");
        expect_row(rt, row, told(rt, row).trim_end(), wanted);
    }
}

/// Both messages are answered however many pieces they come in: the first one fills a piece; it is
/// a byte longer; three pieces with the second one; a head of more than one piece, and one that
/// fills two; a body of the most bytes.
#[test]
fn messages_of_many_pieces(rt: HostRuntime) {
    let rows = "\
two 0 4058 => Done 2 3 08b.10-.
two 0 4059 => Done 2 3 09b.10-.
two 0 10007 => Done 2 4 07b.10-.
two 5000 3 => Done 2 3 03b.10-.
two 8157 5 => Done 2 4 05b.10-.
two 0 1048576 => Done 2 258 06b.10-.";
    play(&rt, rows);
}

/// So many short requests.
fn requests(alloc: Global, count: usize) -> Result<Vec<u8>, AllocError> {
    let mut bytes = Vec::new(alloc);
    for _request in 0..count {
        bytes.extend_from_slice(b"GET / HTTP/1.1\n\n")?;
    }
    Ok(bytes)
}

/// 999 answers to them that keep the session open, and then one that closes, or none.
fn answers(alloc: Global, closing: bool) -> Result<Vec<u8>, AllocError> {
    let mut text = Vec::new(alloc);
    for reading in 0..999 {
        text.extend_from_slice(&[digit(reading), b'0', b'-', b'.'])?;
    }
    if closing {
        text.extend_from_slice(b"90-!")?;
    }
    Ok(text)
}

/// Whether a session over these requests is done and has these answers.
fn has_answers(
    rt: &(impl AllocGlobal + Abort),
    requests: &[u8],
    answers: &[u8],
    size: usize,
) -> bool {
    let run = run_in_pieces(rt, requests, size);
    let read = run.next as usize == answers.len() / 4;
    run.end == SessionEnd::Done && read && run.output.bytes() == answers
}

/// The 1,000th answer closes, and no request behind it is answered.
#[test]
fn a_thousand_answers_are_the_most(rt: HostRuntime) {
    for count in [999, 1_000, 1_001] {
        let bytes = requests(rt.alloc(), count).expect(&rt, "memory");
        let wanted = answers(rt.alloc(), count > 999).expect(&rt, "memory");
        for size in [1, 7, 4_096] {
            let are_they = has_answers(&rt, &bytes, &wanted, size);
            expect(&rt, are_they, "as many answers, and the last one closes");
        }
    }
}

/// What was heard before a read that fails is answered.
#[test]
fn failing_reads(rt: HostRuntime) {
    let rows = "\
read 0 => ReadFault 1 72
read 1 => ReadFault 1 65
read 2 => ReadFault 1 58
read 3 => ReadFault 1 51 00-.
read 4 => ReadFault 1 44 00-.
read 5 => ReadFault 1 37 00-.
read 6 => ReadFault 1 30 00-.
read 7 => ReadFault 1 23 00-.
read 8 => ReadFault 1 16 00-.15o.
read 9 => ReadFault 1 9 00-.15o.
read 10 => ReadFault 1 2 00-.15o.";
    play(&rt, rows);
}

/// Writes of one byte, of which one fails, or the flush behind an answer.
#[test]
fn failing_writes(rt: HostRuntime) {
    let rows = "\
write 0 => WriteFault 1
write 1 => WriteFault 1 0
write 2 => WriteFault 1 00
write 3 => WriteFault 1 00-
write 4 => WriteFault 1 00-.
write 5 => WriteFault 1 00-.
write 6 => WriteFault 1 00-.1
write 7 => WriteFault 1 00-.15
write 8 => WriteFault 1 00-.15o
write 9 => WriteFault 1 00-.15o.
write 10 => WriteFault 1 00-.15o.
write 11 => WriteFault 1 00-.15o.2
write 12 => WriteFault 1 00-.15o.20
write 13 => WriteFault 1 00-.15o.20-
write 14 => WriteFault 1 00-.15o.20-!";
    play(&rt, rows);
}
