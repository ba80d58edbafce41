//! A line that is made without memory.
ghost use Rattle.std.specs.Prelude.{◌≡◌, ◌+◌, ◌≤◌, ◌++◌, [], length, decimal};

use itoa::Buffer;
use std::marker::Model;

/// The most bytes of a line: a head has at most 147, a row of the sample stream some 50.
pub const MAX_LINE_BYTES: usize = 160;

/// A line, in a place of its own. Contracts see the list of its bytes.
#[derive(Drop)]
pub struct Line {
    bytes: [u8; MAX_LINE_BYTES],
    count: usize,
}

impl Model for Line {
    ghost use Rattle.std.specs.Prelude.{ℕ, List, ◌≤◌, take};
    ghost use Rattle.request_texts.specs.declared.line.TheConstants.{MAX_LINE_BYTES};

    ghost Value = { List ℕ };

    ghost view = { λ line. take line.count line.bytes };

    ghost invariant = { λ line. line.count ≤ MAX_LINE_BYTES };
}

impl Line {
    /// No bytes.
    pub fn new() -> Line
        ensures { result ≡ [] }
    {
        Line {
            bytes: [0; MAX_LINE_BYTES],
            count: 0,
        }
    }

    /// The bytes.
    pub fn as_bytes(&self) -> &[u8]
        ensures { result.now ≡ self.now }
    {
        &self.bytes[..self.count]
    }

    /// Appends a text that there is room for.
    pub fn push(&mut self, text: &str)
        requires { length self.old + length text.now ≤ MAX_LINE_BYTES }
        ensures gained { self.new ≡ self.old ++ text.now }
        ensures length { length self.new ≡ length self.old + length text.now }
    {
        let end = self.count + text.len();
        let room = &mut self.bytes[..];
        room[self.count..end].copy_from_slice(text.as_bytes());
        self.count = end;
    }

    /// Appends the digits of a number below 2^64.
    pub fn push_number(&mut self, number: u64)
        requires { length self.old + 20 ≤ MAX_LINE_BYTES }
        ensures gained { self.new ≡ self.old ++ decimal number }
        ensures length { length self.new ≤ length self.old + 20 }
    {
        let mut digits = Buffer::new();
        self.push(digits.format(number));
    }
}
