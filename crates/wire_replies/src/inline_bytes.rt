//! Short texts that are made without memory.
ghost use Rattle.std.specs.Prelude.{◌≡◌, ◌+◌, ◌≤◌, ◌++◌, [], length, decimal};

use itoa::Buffer;
use std::marker::Model;

/// At most `ROOM` bytes, in a place of their own: they take no memory. Contracts see the list of
/// the bytes.
#[derive(Drop)]
pub struct InlineBytes<const ROOM: usize> {
    bytes: [u8; ROOM],
    count: usize,
}

impl<const ROOM: usize> Model for InlineBytes<ROOM> {
    ghost use Rattle.std.specs.Prelude.{ℕ, List, ◌≤◌, take};

    ghost Value = { List ℕ };

    ghost view = { λ a. take a.count a.bytes };

    ghost invariant = { λ a. a.count ≤ ROOM };
}

impl<const ROOM: usize> InlineBytes<ROOM> {
    /// No bytes.
    pub fn new() -> Self
        ensures { result ≡ [] }
    {
        InlineBytes {
            bytes: [0; ROOM],
            count: 0,
        }
    }

    /// The bytes.
    pub fn as_bytes(&self) -> &[u8]
        ensures bytes { result.now ≡ self.now }
        ensures few { length self.now ≤ ROOM }
    {
        &self.bytes[..self.count]
    }

    /// How many more bytes there is room for.
    pub(crate) fn room(&self) -> usize
        ensures { result + length self.now ≡ ROOM }
    {
        ROOM - self.count
    }

    /// Appends bytes that there is room for.
    pub(crate) fn push_bytes(&mut self, bytes: &[u8])
        requires { length self.old + length bytes.now ≤ ROOM }
        ensures gained { self.new ≡ self.old ++ bytes.now }
        ensures length { length self.new ≡ length self.old + length bytes.now }
    {
        let end = self.count + bytes.len();
        let room = &mut self.bytes[..];
        room[self.count..end].copy_from_slice(bytes);
        self.count = end;
    }

    /// Appends a text that there is room for.
    pub(crate) fn push(&mut self, text: &str)
        requires { length self.old + length text.now ≤ ROOM }
        ensures gained { self.new ≡ self.old ++ text.now }
        ensures length { length self.new ≡ length self.old + length text.now }
    {
        self.push_bytes(text.as_bytes());
    }

    /// Appends the digits of a number below 2^32.
    pub(crate) fn push_u32(&mut self, number: u32)
        requires { length self.old + 10 ≤ ROOM }
        ensures gained { self.new ≡ self.old ++ decimal number }
        ensures length { length self.new ≤ length self.old + 10 }
    {
        let mut digits = Buffer::new();
        self.push(digits.format(number));
    }

    /// Appends the digits of a number below 2^64.
    pub(crate) fn push_u64(&mut self, number: u64)
        requires { length self.old + 20 ≤ ROOM }
        ensures gained { self.new ≡ self.old ++ decimal number }
        ensures length { length self.new ≤ length self.old + 20 }
    {
        let mut digits = Buffer::new();
        self.push(digits.format(number));
    }
}
