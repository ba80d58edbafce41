//! A session over a source, a sink and a clock.
ghost use Rattle.std.specs.Prelude.{◌≡◌, ◌≢◌, ◌<◌, ◌≤◌, ◌+◌, ◌||◌, ℕ, List, Bool, true, Option};
ghost use Rattle.std.specs.Prelude.{IfOk, OnOk, OnErr, nat_le};
ghost use Rattle.office_outside.specs.Told.{Gained, GainedPrefix};
ghost use Rattle.office_outside.specs.Faults.{HasCause, Rose};
ghost use Rattle.message_heads.specs.declared.message.Heard.TheVariants.{Whole};
ghost use Rattle.message_heads.specs.Hearing.{Hears};
ghost use Rattle.message_heads.specs.Streams.{said_in};
ghost use Rattle.slo_limits.specs.declared.TheConstants.{MAX_MINUTE};
ghost use Rattle.message_session.specs.Sessions.{EndsAt, EndsSo, EndsWriting, HasTurn};
ghost use Rattle.message_session.specs.Sessions.{session_world};

use crate::buffer::Buffer;
use crate::handler::Handler;
use crate::hearing::hear_next;
use message_heads::{Heard, Message};
use office_outside::{Clock, Failed, Sink, Source};
use slo_limits::MAX_REQUESTS;
use std::alloc::Global;

/// How a session ends.
#[derive(Clone, Copy, Debug, Drop, PartialEq, Eq)]
pub enum SessionEnd {
    /// The input ended at a message's end, an answer closed, or a bad message was answered.
    Done,
    /// The input ended inside a message.
    Cut,
    ReadFault,
    WriteFault,
    /// There was no memory for the buffer: nothing was read.
    NoMemory,
}

/// Answers a message, and passes the answer on.
fn answer<K: Sink, H: Handler<K>>(
    handler: &mut H,
    output: &mut K,
    message: &Message,
    bytes: &[u8],
    reading: u32,
    last: bool,
) -> Result<(), Failed>
    requires message { (n : ℕ) × Hears bytes.now (Whole message.now n) }
    requires reading { reading ≤ MAX_MINUTE }
    ensures whole { OnOk result ((text : List ℕ)
        × H.answers handler.old (said_in bytes.now message.now) last reading text handler.new
        × Gained text (K.held output.old) (K.held output.new)) }
    ensures part { OnErr result ((text : List ℕ)
        × H.answers handler.old (said_in bytes.now message.now) last reading text handler.new
        × GainedPrefix text (K.held output.old) (K.held output.new)) }
    ensures cause { HasCause (K.faults output.old) (K.faults output.new) result }
{
    match handler.answer(message, bytes, reading, last, output) {
        Ok(()) => match output.flush() {
            Ok(()) => Ok(()),
            Err(failed) => Err(failed),
        },
        Err(failed) => Err(failed),
    }
}

/// Whether the answer to a message is the session's last one, where so many were answered before.
fn is_last_answer(close: bool, count: u32) -> bool
    requires { count < MAX_REQUESTS }
    ensures { result ≡ (close || nat_le MAX_REQUESTS (count + 1)) }
{
    close || MAX_REQUESTS <= count + 1
}

/// Answers the message at the front of the waiting bytes, and tells whether that was the last one.
fn take_turn<K: Sink, H: Handler<K>, C: Clock>(
    handler: &mut H,
    clock: &mut C,
    output: &mut K,
    waiting: &[u8],
    message: Message,
    size: usize,
    count: u32,
) -> Result<bool, Failed>
    requires message { Hears waiting.now (Whole message size) }
    requires few { count < MAX_REQUESTS }
    ensures turn { IfOk result (λ last. (left : Option (List ℕ))
        → HasTurn H.answers Gained last count size waiting.now
        (session_world left (C.to_come clock.old) handler.old (K.held output.old))
        (session_world left (C.to_come clock.new) handler.new (K.held output.new))) }
    ensures part { OnErr result ((left : Option (List ℕ)) → (last : Bool)
        × HasTurn H.answers GainedPrefix last count size waiting.now
        (session_world left (C.to_come clock.old) handler.old (K.held output.old))
        (session_world left (C.to_come clock.new) handler.new (K.held output.new))) }
    ensures cause { HasCause (K.faults output.old) (K.faults output.new) result }
{
    let last = is_last_answer(message.close, count);
    let reading = clock.minute();
    match answer(handler, output, &message, waiting, reading, last) {
        Ok(()) => Ok(last),
        Err(failed) => Err(failed),
    }
}

/// The end of a session whose input has ended.
fn end_at(waiting: usize) -> SessionEnd
    ensures ends { EndsAt waiting result }
    ensures served { result ≢ SessionEnd.NoMemory }
{
    if waiting == 0 {
        SessionEnd::Done
    } else {
        SessionEnd::Cut
    }
}

/// Answers a bad message, and ends the session.
fn refuse<K: Sink, H: Handler<K>>(handler: &H, status: u16, output: &mut K) -> SessionEnd
    ensures ends { EndsWriting (H.refusal handler.now status) result (K.held output.old)
        (K.held output.new) }
    ensures served { result ≢ SessionEnd.NoMemory }
    ensures cause { result ≡ SessionEnd.WriteFault
        → Rose (K.faults output.old) (K.faults output.new) }
    ensures later { K.faults output.old ≤ K.faults output.new }
{
    match handler.refuse(status, output) {
        Ok(()) => flush_last(output),
        Err(_) => SessionEnd::WriteFault,
    }
}

/// Passes the last answer on.
fn flush_last<K: Sink>(output: &mut K) -> SessionEnd
    ensures ends { (text : List ℕ) (held : Option (List ℕ)) → Gained text held (K.held output.old)
        → EndsWriting text result held (K.held output.new) }
    ensures served { result ≢ SessionEnd.NoMemory }
    ensures cause { result ≡ SessionEnd.WriteFault
        → Rose (K.faults output.old) (K.faults output.new) }
    ensures later { K.faults output.old ≤ K.faults output.new }
{
    match output.flush() {
        Ok(()) => SessionEnd::Done,
        Err(_) => SessionEnd::WriteFault,
    }
}

/// Answers the messages of a source, one after another, in a buffer that the caller holds. It reads
/// the clock once for each whole message before the message is looked at. After each answer it
/// flushes the sink. The session ends with the input, with an answer that closes, with the answer
/// to a bad message, after 1,000 answers, or with a fault, and never for want of memory. What the
/// buffer held before is let go.
pub fn session_with<K: Sink, H: Handler<K>, S: Source, C: Clock>(
    buffer: &mut Buffer,
    handler: &mut H,
    input: &mut S,
    output: &mut K,
    clock: &mut C,
) -> SessionEnd
    ensures ends { EndsSo H.answers H.refusal result
        (session_world (S.left input.old) (C.to_come clock.old) handler.old (K.held output.old))
        (session_world (S.left input.new) (C.to_come clock.new) handler.new (K.held output.new)) }
    ensures served { result ≢ SessionEnd.NoMemory }
    ensures read { result ≡ SessionEnd.ReadFault → Rose (S.faults input.old) (S.faults input.new) }
    ensures read_later { S.faults input.old ≤ S.faults input.new }
    ensures write { result ≡ SessionEnd.WriteFault
        → Rose (K.faults output.old) (K.faults output.new) }
    ensures write_later { K.faults output.old ≤ K.faults output.new }
{
    buffer.clear();
    let mut count = 0;
    'serving: loop {
        let Ok(heard) = hear_next(buffer, input) else {
            return SessionEnd::ReadFault;
        };
        match heard {
            Heard::More => return end_at(buffer.len()),
            Heard::Bad(status) => return refuse(handler, status, output),
            Heard::Whole(message, size) => {
                let Ok(last) = take_turn(
                    handler,
                    clock,
                    output,
                    buffer.bytes(),
                    message,
                    size,
                    count,
                ) else {
                    return SessionEnd::WriteFault;
                };
                if last {
                    return SessionEnd::Done;
                }
                buffer.skip(size);
                count += 1;
            }
        }
    }
}

/// Answers the messages of a source, one after another. It takes its buffer first, and reads the
/// clock once for each whole message before the message is looked at. After each answer it flushes
/// the sink. The session ends with the input, with an answer that closes, with the answer to a bad
/// message, after 1,000 answers, or with a fault.
pub fn session<K: Sink, H: Handler<K>, S: Source, C: Clock>(
    alloc: Global,
    handler: &mut H,
    input: &mut S,
    output: &mut K,
    clock: &mut C,
) -> SessionEnd
    ensures ends { EndsSo H.answers H.refusal result
        (session_world (S.left input.old) (C.to_come clock.old) handler.old (K.held output.old))
        (session_world (S.left input.new) (C.to_come clock.new) handler.new (K.held output.new)) }
    ensures read { result ≡ SessionEnd.ReadFault → Rose (S.faults input.old) (S.faults input.new) }
    ensures read_later { S.faults input.old ≤ S.faults input.new }
    ensures write { result ≡ SessionEnd.WriteFault
        → Rose (K.faults output.old) (K.faults output.new) }
    ensures write_later { K.faults output.old ≤ K.faults output.new }
{
    let Ok(mut buffer) = Buffer::new(alloc) else {
        return SessionEnd::NoMemory;
    };
    session_with(&mut buffer, handler, input, output, clock)
}
