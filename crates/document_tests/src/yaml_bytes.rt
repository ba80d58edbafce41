//! YAML texts that are no UTF-8, with the place where they stop being it, and texts too large.

use crate::expectations::expect;
use slo_limits::MAX_TEXT_BYTES;
use std::alloc::{AllocError, Global};
use yaml_subset::read_documents;
use yaml_terms::YamlFault;

/// Bytes, and the place of the first that no UTF-8 text has there.
const PLACES: [(&[u8], usize); 16] = [
    // A byte that begins no character.
    (b"\x80", 0),
    (b"ab\x80", 2),
    (b"\xC0\x80", 0),
    (b"a\xC1\xBF", 1),
    (b"\xF5\x80\x80\x80", 0),
    (b"\xFF", 0),
    // A second byte that can't follow the first.
    (b"\xC2 ", 1),
    (b"\xE0\x80\x80", 1),
    (b"a: \xED\xA0\x80", 4),
    (b"\xF4\x90\x80\x80", 1),
    // A third and a fourth byte that can't follow.
    (b"\xE2\x82 ", 2),
    (b"\xF0\x90\x80\xC0", 3),
    // The text ends inside a character.
    (b"\xF0\x90\x80", 3),
    (b"a\xE2", 2),
    // Behind a byte order mark, and with a part of one.
    (b"\xEF\xBB\xBFa\x80", 4),
    (b"\xEF\xBBa", 2),
];

/// Where a text stops being UTF-8; none where it has another fault or none.
fn place_of(alloc: Global, text: &[u8]) -> Option<usize> {
    match read_documents(alloc, text) {
        Err(YamlFault::NotUtf8(at)) => Some(at),
        _ => None,
    }
}

#[test]
fn places_of_bad_bytes(rt: HostRuntime) {
    for (text, place) in &PLACES {
        expect(&rt, place_of(rt.alloc(), text) == Some(*place), "a place");
    }
}

/// Whether a text with so many copies of a byte is too large.
fn is_too_large(alloc: Global, byte: u8, length: usize) -> Result<bool, AllocError> {
    let text = vec![in alloc; byte; length]?;
    Ok(matches!(read_documents(alloc, &text), Err(YamlFault::TooLarge)))
}

/// Its size is judged first, whatever its bytes are.
#[test]
fn a_text_with_a_byte_too_many(rt: HostRuntime) {
    let above = is_too_large(rt.alloc(), 0xFF, MAX_TEXT_BYTES + 1);
    expect(&rt, above == Ok(true), "a byte too many");
    let within = is_too_large(rt.alloc(), b'#', MAX_TEXT_BYTES);
    expect(&rt, within == Ok(false), "as many bytes as may be");
}
