//! Short texts, kept in place.

ghost use Rattle.std.specs.Prelude.{◌≡◌, ◌≤◌, ◌++◌, drop, length};

use std::marker::Model;

/// How many bytes a text that is kept in place has at most: with their number and with what tells
/// it from a longer one they fill 32 bytes.
pub(crate) const ROOM: usize = 30;

/// A text of at most `ROOM` bytes, which takes no memory of its own.
#[derive(Debug, Drop)]
pub(crate) struct ShortText {
    bytes: [u8; 30],
    count: u8,
}

impl Model for ShortText {
    ghost use Rattle.std.specs.Prelude.{List, ℕ, ◌≤◌, take};

    ghost Value = { List ℕ };

    ghost view = { λ t. take t.count t.bytes };

    ghost invariant = { λ t. t.count ≤ 30 };
}

/// Writes bytes at the front of a place that has room for them.
fn write_front(room: &mut [u8], bytes: &[u8])
    requires { length bytes.now ≤ length room.old }
    ensures { room.new ≡ bytes.now ++ drop (length bytes.now) room.old }
{
    let count = bytes.len();
    room[..count].copy_from_slice(bytes);
}

impl ShortText {
    /// A copy of these bytes.
    pub(crate) fn copy_of(bytes: &[u8]) -> ShortText
        requires { length bytes.now ≤ 30 }
        ensures { result ≡ bytes.now }
    {
        let mut copy = [0; 30];
        write_front(&mut copy, bytes);
        ShortText {
            bytes: copy,
            count: bytes.len() as u8,
        }
    }

    /// The bytes of the text.
    pub(crate) fn as_bytes(&self) -> &[u8]
        ensures { result.now ≡ self.now }
    {
        &self.bytes[..usize::from(self.count)]
    }
}
