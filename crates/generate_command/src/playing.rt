//! A session over memory.
ghost use Rattle.std.specs.Prelude.{◌≡◌, ◌≤◌, [], IfOk, true};
ghost use Rattle.slo_limits.specs.declared.TheConstants.{MAX_MINUTE};
ghost use Rattle.wire_replies.specs.Answers.{no_memory_answer};
ghost use Rattle.generate_command.specs.Playing.{HasNone, Plays};

use memchr::memmem;
use message_session::SessionEnd;
use office_counter::Counter;
use office_outside::{MemoryClock, MemorySink, MemorySource, Plan};
use office_session::session;
use std::alloc::{AllocError, Global};

/// The body of the answer for want of memory.
#[tactic(auto, unfolding(serde_json::proofs::OnLiterals::serde_json_on_literals))]
fn no_memory_body() -> &'static [u8]
    ensures { result.now ≡ no_memory_answer.body }
{
    b"{\"error\":\"no_memory\"}"
}

/// Whether a piece stands nowhere among these bytes.
fn has_none(bytes: &[u8], piece: &[u8]) -> bool
    ensures { result ≡ true → HasNone piece.now bytes.now }
{
    memmem::find(bytes, piece).is_none()
}

/// Whether no answer among these bytes says that memory ran out.
pub(crate) fn is_whole(answers: &[u8]) -> bool
    ensures { result ≡ true → HasNone no_memory_answer.body answers.now }
{
    has_none(answers, no_memory_body())
}

/// Plays a session of these bytes at a clock that always reads this minute, and gives the sink with
/// the answers.
pub(crate) fn play<T: Counter>(
    alloc: Global,
    bytes: Vec<u8>,
    reading: u32,
    counter: &mut T,
) -> Result<MemorySink, AllocError>
    ensures { IfOk result (λ answers.
        Plays T.asks bytes.items reading counter.old counter.new answers.held) }
{
    let mut readings = Vec::new(alloc);
    readings.push(reading)?;
    let mut clock = MemoryClock::new(readings);
    let mut input = MemorySource::new(bytes, Plan::smooth(alloc));
    let mut answers = MemorySink::new(alloc, Plan::smooth(alloc));
    match session(alloc, counter, &mut input, &mut answers, &mut clock) {
        SessionEnd::Done => Ok(answers),
        _ => Err(AllocError),
    }
}
