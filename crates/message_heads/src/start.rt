//! How the bytes of a message begin.
ghost use Rattle.std.specs.Prelude.{◌≡◌, ◌≤◌, ℕ, List, length};
ghost use Rattle.httparse.specs.declared.spans.HeaderSpan.{HeaderSpan};
ghost use Rattle.httparse.specs.Spans.{RequestOverflows};
ghost use Rattle.slo_limits.specs.declared.TheConstants.{MAX_HEAD_BYTES};
ghost use Rattle.message_heads.specs.Start.{Begins};

use httparse::spans::{EMPTY_HEADER_SPAN, HeaderSpan, RequestSpans, parse_request};
use httparse::{Error, Status};

/// More fields than a head of the most bytes has: each takes three bytes, and the request line
/// more.
const MORE_FIELDS: usize = 2_731;

/// How bytes begin.
#[derive(Drop)]
pub(crate) enum Start {
    /// With a head of at most 64 fields.
    Head(RequestSpans),
    /// With a head of more, and of this length.
    Wide(usize),
    /// With no head yet.
    Unfinished,
    /// With no head, whatever follows.
    Never,
}

/// How bytes begin; where it is with a head of at most 64 fields, their places go into `slots`.
pub(crate) fn find_head(front: &[u8], slots: &mut [HeaderSpan]) -> Start
    requires few { length front.now ≤ MAX_HEAD_BYTES }
    requires room { length slots.old ≡ 64 }
    ensures { Begins front.now slots.new result }
{
    match parse_request(front, slots) {
        Ok(Status::Complete(head)) => Start::Head(head),
        Ok(Status::Partial) => Start::Unfinished,
        Err(Error::TooManyHeaders) => wide_start(front),
        Err(_) => Start::Never,
    }
}

/// The same for bytes of which each head has more fields: a room that none of them passes is kept
/// out of the common way, since to fill it takes longer than to read a head.
fn wide_start(front: &[u8]) -> Start
    requires few { length front.now ≤ MAX_HEAD_BYTES }
    requires wide { RequestOverflows 64 front.now }
    ensures { (slots : List HeaderSpan) → Begins front.now slots result }
{
    let mut slots = [EMPTY_HEADER_SPAN; MORE_FIELDS];
    match parse_request(front, &mut slots) {
        Ok(Status::Complete(head)) => Start::Wide(head.len),
        Ok(Status::Partial) => Start::Unfinished,
        Err(_) => Start::Never,
    }
}
