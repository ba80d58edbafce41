//! What is heard of a source.
ghost use Rattle.std.specs.Prelude.{◌≡◌, ◌≤◌, ◌<◌, Ok, true, false, length, IfOk, OnErr};
ghost use Rattle.office_outside.specs.Faults.{HasCause};
ghost use Rattle.office_outside.specs.Told.{HasNothingLeft};
ghost use Rattle.message_heads.specs.declared.message.Heard.TheVariants.{More};
ghost use Rattle.message_heads.specs.Hearing.{Hears};
ghost use Rattle.message_session.specs.Fillings.{Fills};
ghost use Rattle.message_session.specs.Hearings.{Concludes};

use crate::buffer::Buffer;
use message_heads::{Heard, Hearing, MAX_MESSAGE_BYTES, hear};
use office_outside::{Failed, Source};

/// Reads until so many bytes wait. Answers whether they do; if not, the input has ended.
fn fill<S: Source>(buffer: &mut Buffer, input: &mut S, needed: usize) -> Result<bool, Failed>
    requires { needed ≤ MAX_MESSAGE_BYTES }
    ensures fills { Fills buffer.old buffer.new (S.left input.old) (S.left input.new) }
    ensures ready { result ≡ Ok true → needed ≤ length buffer.new }
    ensures short { result ≡ Ok false → length buffer.new < needed }
    ensures failed { OnErr result (length buffer.new < needed) }
    ensures end { result ≡ Ok false → HasNothingLeft (S.left input.new) }
    ensures few { length buffer.new ≤ MAX_MESSAGE_BYTES }
    ensures cause { HasCause (S.faults input.old) (S.faults input.new) result }
{
    'filling: while buffer.len() < needed {
        let count = buffer.read_more(input)?;
        if count == 0 {
            return Ok(false);
        }
    }
    Ok(true)
}

/// What is heard in the waiting bytes and those to be read; `More` is the end of the input.
pub(crate) fn hear_next<S: Source>(buffer: &mut Buffer, input: &mut S) -> Result<Heard, Failed>
    ensures fills { Fills buffer.old buffer.new (S.left input.old) (S.left input.new) }
    ensures heard { IfOk result (λ heard. Concludes buffer.new (S.left input.new) heard) }
    ensures more { OnErr result (Hears buffer.new More) }
    ensures few { length buffer.new ≤ MAX_MESSAGE_BYTES }
    ensures cause { HasCause (S.faults input.old) (S.faults input.new) result }
{
    'hearing: loop {
        match hear(buffer.bytes()) {
            Hearing::Whole(message, size) => return Ok(Heard::Whole(message, size)),
            Hearing::Bad(status) => return Ok(Heard::Bad(status)),
            Hearing::More(needed) => match fill(buffer, input, needed) {
                Ok(true) => {}
                Ok(false) => return Ok(Heard::More),
                Err(failed) => return Err(failed),
            },
        }
    }
}
