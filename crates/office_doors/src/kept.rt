//! The bytes that a link keeps of a message that isn't whole.
ghost use Rattle.std.specs.Prelude.{◌≡◌, ◌≤◌, ◌+◌, ◌++◌, [], true, IfOk, drop, length, take};

use std::alloc::{AllocError, Global};

/// What a reader of a link held of a message when its visit ended. The reader of the next visit is
/// given it first.
#[derive(Drop)]
pub(crate) struct Kept {
    alloc: Global,
    bytes: Vec<u8>,
    /// How many of them the reader of this visit was given.
    given: usize,
    /// How many bytes were read behind them last.
    read: usize,
}

impl Kept {
    pub(crate) fn new(alloc: Global) -> Kept
        ensures { result.bytes.items ≡ [] }
    {
        Kept {
            alloc,
            bytes: Vec::new(alloc),
            given: 0,
            read: 0,
        }
    }

    pub(crate) fn len(&self) -> usize {
        self.bytes.len()
    }

    pub(crate) fn is_empty(&self) -> bool {
        self.bytes.is_empty()
    }

    /// Is to give all of it to a new reader.
    pub(crate) fn begin(&mut self)
        ensures kept { self.new.bytes.items ≡ self.old.bytes.items }
        ensures given { self.new.given ≡ 0 }
    {
        self.given = 0;
        self.read = 0;
    }

    /// Whether the reader of this visit wasn't given all yet.
    pub(crate) fn is_giving(&self) -> bool
        ensures { result ≡ true → self.now.given ≤ length self.now.bytes.items }
    {
        self.given < self.bytes.len()
    }

    /// Gives the next of it, as much as the piece takes.
    pub(crate) fn give(&mut self, piece: &mut [u8]) -> usize
        requires { self.old.given ≤ length self.old.bytes.items }
        ensures count { result ≤ length piece.new }
        ensures given { piece.new
            ≡ take result (drop self.old.given self.old.bytes.items) ++ drop result piece.old }
        ensures next { self.new.given ≡ self.old.given + result }
        ensures kept { self.new.bytes.items ≡ self.old.bytes.items }
    {
        let rest = &self.bytes[self.given..];
        let count = rest.len().min(piece.len());
        piece[..count].copy_from_slice(&rest[..count]);
        self.given += count;
        count
    }

    /// Notes how many bytes a reader was given behind what is kept.
    pub(crate) fn note_read(&mut self, count: usize)
        ensures { self.new.bytes.items ≡ self.old.bytes.items }
    {
        self.read = count;
    }

    /// Whether a reader that holds so many bytes is at the same message: where one was answered
    /// since it holds fewer than it was given.
    pub(crate) fn goes_on(&self, held: usize) -> bool {
        held == self.bytes.len().saturating_add(self.read)
    }

    /// Lets all of it go, and its memory.
    pub(crate) fn clear(&mut self)
        ensures { self.new.bytes.items ≡ [] }
    {
        self.bytes = Vec::new(self.alloc);
        self.given = 0;
        self.read = 0;
    }

    /// Keeps what a reader holds, where what is kept so far is its front.
    pub(crate) fn keep(&mut self, held: &[u8]) -> Result<(), AllocError>
        ensures { IfOk result (λ _. take (length self.old.bytes.items) held.now
            ≡ self.old.bytes.items → self.new.bytes.items ≡ held.now) }
    {
        let at = self.bytes.len().min(held.len());
        self.bytes.extend_from_slice(&held[at..])?;
        self.given = self.bytes.len();
        self.read = 0;
        Ok(())
    }
}
