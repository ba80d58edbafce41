//! The first message in a stream of bytes.
ghost use Rattle.std.specs.Prelude.{◌≡◌, ◌≤◌, ◌++◌, ℕ, List, length, map, All, IfOk};
ghost use Rattle.httparse.specs.Grammar.{NeverHasRequest};
ghost use Rattle.httparse.specs.Spans.{IsHeaderWithin, header_bytes};
ghost use Rattle.slo_limits.specs.declared.TheConstants.{MAX_BODY_BYTES, MAX_HEAD_BYTES};
ghost use Rattle.message_heads.specs.Hearing.{Hears, IsFront, IsHeard};
ghost use Rattle.message_heads.specs.Start.{Begins};
ghost use Rattle.message_heads.specs.declared.start.Start.TheVariants.{Head};
ghost use Rattle.message_heads.specs.declared.message.Hearing.TheVariants.{Bad};
ghost use Rattle.message_heads.specs.BodyLength.{body_or_status};

use crate::fields::{closes, counted_length, is_encoded};
use crate::first_refused::first_refused;
use crate::message::{Heard, Hearing, Message};
use crate::start::{Start, find_head};
use httparse::spans::{EMPTY_HEADER_SPAN, HeaderSpan, RequestSpans};
use slo_limits::{MAX_BODY_BYTES, MAX_HEAD_BYTES};

/// The most bytes of a message, its head and its body: the room that a reader of a stream needs.
pub const MAX_MESSAGE_BYTES: usize = 1_056_768;

/// What is heard in the bytes: the first whole message, a bad one, or that more has to come.
pub fn read_request(bytes: &[u8]) -> Heard
    ensures { Hears bytes.now result }
{
    hear(bytes).heard()
}

/// The same, and where more has to come, how many bytes there must be before anything can be
/// decided. A reader that waits for them parses the head of a long message twice, however its bytes
/// come.
pub fn hear(bytes: &[u8]) -> Hearing
    ensures { IsHeard bytes.now result }
{
    let mut slots = [EMPTY_HEADER_SPAN; 64];
    let front = &bytes[..bytes.len().min(MAX_HEAD_BYTES)];
    match find_head(front, &mut slots) {
        Start::Head(head) => after_head(bytes, front, head, &slots),
        Start::Wide(_) => Hearing::Bad(431),
        Start::Unfinished => {
            if front.len() < MAX_HEAD_BYTES {
                Hearing::More(front.len() + 1)
            } else {
                Hearing::Bad(431)
            }
        }
        Start::Never => Hearing::Bad(status_of_no_head(front)),
    }
}

/// What the fields say of the body: its length, or the status of the answer.
fn body_length(bytes: &[u8], fields: &[HeaderSpan]) -> Result<usize, u16>
    requires { All (IsHeaderWithin (length bytes.now)) fields.now }
    ensures judged { result ≡ body_or_status (map (header_bytes bytes.now) fields.now) }
    ensures few { IfOk result (λ length. length ≤ MAX_BODY_BYTES) }
{
    let Some(length) = counted_length(bytes, fields) else {
        return Err(400);
    };
    if is_encoded(bytes, fields) {
        return Err(501);
    }
    if length > MAX_BODY_BYTES as u64 {
        return Err(413);
    }
    Ok(length as usize)
}

/// The status of the answer to bytes of which none is a head, whatever follows.
fn status_of_no_head(front: &[u8]) -> u16
    requires few { length front.now ≤ MAX_HEAD_BYTES }
    requires never { NeverHasRequest front.now }
    ensures { (more : List ℕ) → IsHeard (front.now ++ more) (Bad result) }
{
    if first_refused(front) < MAX_HEAD_BYTES {
        400
    } else {
        431
    }
}

/// What is heard behind a head of at most 64 fields.
fn after_head(bytes: &[u8], front: &[u8], head: RequestSpans, slots: &[HeaderSpan]) -> Hearing
    requires front { IsFront bytes.now front.now }
    requires begins { Begins front.now slots.now (Head head) }
    ensures { IsHeard bytes.now result }
{
    let fields = &slots[..head.headers];
    let length = match body_length(front, fields) {
        Ok(length) => length,
        Err(status) => return Hearing::Bad(status),
    };
    let whole = head.len + length;
    if bytes.len() < whole {
        return Hearing::More(whole);
    }
    let message = Message {
        method: (head.method.start as u32, head.method.end as u32),
        target: (head.path.start as u32, head.path.end as u32),
        body: (head.len as u32, whole as u32),
        close: closes(head.version, front, fields),
    };
    Hearing::Whole(message, whole)
}
