//! The first place at which bytes are no head, whatever follows.
ghost use Rattle.std.specs.Prelude.{◌≡◌, ◌≤◌, ◌<◌, ℕ, length, take, true, false};
ghost use Rattle.httparse.specs.Grammar.{NeverHasRequest};
ghost use Rattle.slo_limits.specs.declared.TheConstants.{MAX_HEAD_BYTES};
ghost use Rattle.message_heads.specs.Start.{WhetherHeadMayCome};
ghost use Rattle.message_heads.specs.Hearing.{IsPassed};

use crate::start::{Start, find_head};
use httparse::spans::EMPTY_HEADER_SPAN;

/// Whether the bytes begin with a head, or may.
fn may_begin(bytes: &[u8]) -> bool
    requires few { length bytes.now ≤ MAX_HEAD_BYTES }
    ensures { WhetherHeadMayCome result bytes.now }
{
    let mut slots = [EMPTY_HEADER_SPAN; 64];
    match find_head(bytes, &mut slots) {
        Start::Never => false,
        _ => true,
    }
}

/// How many bytes of these, of which none is a head whatever follows, are the fewest of which that
/// is known. It is found by halving, since it is asked for once, before the connection ends.
pub(crate) fn first_refused(front: &[u8]) -> usize
    requires few { length front.now ≤ MAX_HEAD_BYTES }
    requires never { NeverHasRequest front.now }
    ensures within { result ≤ length front.now }
    ensures refused { NeverHasRequest (take result front.now) }
    ensures earlier { (m : ℕ) → m < result → IsPassed (take m front.now) }
{
    let mut low = 0;
    let mut high = front.len();
    while low < high {
        let middle = low + (high - low) / 2;
        if may_begin(&front[..middle]) {
            low = middle + 1;
        } else {
            high = middle;
        }
    }
    high
}
