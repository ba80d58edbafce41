//! A message's target.
ghost use Rattle.std.specs.Prelude.{◌≡◌, ℕ, option_map, slice_range, MatchOption};
ghost use Rattle.httparse.specs.Grammar.{RequestHead};
ghost use Rattle.message_heads.specs.Hearing.{IsMessage};
ghost use Rattle.message_heads.specs.Targets.{path_of, query_of};

use crate::message::Message;
use std::str;

/// The path of a message's target, and what stands behind its first `?`.
pub fn target_of<'a>(message: &Message, bytes: &'a [u8]) -> (&'a str, Option<&'a [u8]>)
    requires { (n : ℕ) × (h : RequestHead) × IsMessage bytes.now message.now n h }
    ensures path { result.0.now ≡ path_of
        (slice_range bytes.now message.now.target.0 message.now.target.1) }
    ensures query { option_map (λ q. q.now) result.1
        ≡ query_of (slice_range bytes.now message.now.target.0 message.now.target.1) }
{
    let target = &bytes[message.target.0 as usize..message.target.1 as usize];
    match str::from_utf8(target) {
        Ok(text) => match text.split_once('?') {
            Some((path, query)) => (path, Some(query.as_bytes())),
            None => (text, None),
        },
        Err(_) => ("", None),
    }
}
