//! Sessions over a counter.
ghost use Rattle.std.specs.Prelude.{◌≡◌, ◌≢◌, ◌≤◌};
ghost use Rattle.office_outside.specs.Faults.{Rose};
ghost use Rattle.message_session.specs.Sessions.{EndsSo, session_world};
ghost use Rattle.office_session.specs.Messages.{AnswersMessage, refusal_text};

use crate::clerk::Clerk;
use crate::kit::SessionKit;
use message_session::SessionEnd;
use office_counter::Counter;
use office_outside::{Clock, Sink, Source};
use std::alloc::Global;

/// Answers the messages of a source by a counter, one after another, with a kit that the caller
/// holds. Each message that stands for a request is asked once, at the clock's reading that was
/// taken for it. It ends as a session over messages does: with the input, with an answer that
/// closes, with the answer to a bad message, after 1,000 answers, or with a fault, and never for
/// want of memory.
pub fn session_with<T: Counter, S: Source, K: Sink, C: Clock>(
    alloc: Global,
    kit: &mut SessionKit,
    counter: &mut T,
    input: &mut S,
    output: &mut K,
    clock: &mut C,
) -> SessionEnd
    ensures ends { EndsSo (AnswersMessage T.asks) refusal_text result
        (session_world (S.left input.old) (C.to_come clock.old) counter.old (K.held output.old))
        (session_world (S.left input.new) (C.to_come clock.new) counter.new (K.held output.new)) }
    ensures served { result ≢ SessionEnd.NoMemory }
    ensures read { result ≡ SessionEnd.ReadFault
        → Rose (S.faults input.old) (S.faults input.new) }
    ensures read_later { S.faults input.old ≤ S.faults input.new }
    ensures write { result ≡ SessionEnd.WriteFault
        → Rose (K.faults output.old) (K.faults output.new) }
    ensures write_later { K.faults output.old ≤ K.faults output.new }
{
    let mut clerk = Clerk {
        alloc,
        routes: &kit.routes,
        counter,
    };
    message_session::session_with(&mut kit.buffer, &mut clerk, input, output, clock)
}

/// Answers the messages of a source by a counter, one after another. Each message that stands for a
/// request is asked once, at the clock's reading that was taken for it. It ends as a session over
/// messages does: with the input, with an answer that closes, with the answer to a bad message,
/// after 1,000 answers, or with a fault. `NoMemory` comes before the first byte is read.
pub fn session<T: Counter, S: Source, K: Sink, C: Clock>(
    alloc: Global,
    counter: &mut T,
    input: &mut S,
    output: &mut K,
    clock: &mut C,
) -> SessionEnd
    ensures ends { EndsSo (AnswersMessage T.asks) refusal_text result
        (session_world (S.left input.old) (C.to_come clock.old) counter.old (K.held output.old))
        (session_world (S.left input.new) (C.to_come clock.new) counter.new (K.held output.new)) }
    ensures read { result ≡ SessionEnd.ReadFault
        → Rose (S.faults input.old) (S.faults input.new) }
    ensures read_later { S.faults input.old ≤ S.faults input.new }
    ensures write { result ≡ SessionEnd.WriteFault
        → Rose (K.faults output.old) (K.faults output.new) }
    ensures write_later { K.faults output.old ≤ K.faults output.new }
{
    let Ok(mut kit) = SessionKit::new(alloc) else {
        return SessionEnd::NoMemory;
    };
    session_with(alloc, &mut kit, counter, input, output, clock)
}
