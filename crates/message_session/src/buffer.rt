//! The bytes that were read and aren't answered yet.
ghost use Rattle.std.specs.Prelude.{◌≡◌, ◌+◌, ◌≤◌, ◌<◌, ◌-◌, [], length, take, drop, IfOk, IfSome};
ghost use Rattle.std.specs.Prelude.{OnErr};
ghost use Rattle.office_outside.specs.Faults.{HasCause};
ghost use Rattle.office_outside.specs.Told.{HasNothingLeft};
ghost use Rattle.message_session.specs.Fillings.{Fills};

use message_heads::MAX_MESSAGE_BYTES;
use office_outside::{Failed, Source};
use std::alloc::{AllocError, Global};
use std::marker::Model;

/// The room for one message, in which a session's bytes wait. It can serve one session after
/// another: each begins with no bytes waiting.
#[derive(Drop)]
pub struct Buffer {
    bytes: Vec<u8>,
    start: usize,
    end: usize,
}

impl Model for Buffer {
    ghost use Rattle.std.specs.Prelude.{◌≡◌, ℕ, List, ◌≤◌, ◌-◌, length, take, drop};
    ghost use Rattle.message_session.specs.Fillings.{IsWindow};

    ghost Value = { List ℕ };

    ghost view = { λ b. drop b.start (take b.end b.bytes.items) };

    ghost invariant = { λ b. IsWindow (length b.bytes.items) b.start b.end };
}

/// Moves a window to the front, and answers its new end.
fn move_to_front(bytes: &mut Vec<u8>, start: usize, end: usize) -> usize
    requires ordered { start ≤ end }
    requires within { end ≤ length bytes.old.items }
    ensures len { length bytes.new.items ≡ length bytes.old.items }
    ensures end { result ≡ end - start }
    ensures window { take result bytes.new.items ≡ drop start (take end bytes.old.items) }
{
    if start > 0 {
        bytes.copy_within(start..end, 0);
    }
    end - start
}

/// Reads once, behind the first bytes.
fn read_behind<S: Source>(bytes: &mut [u8], end: usize, input: &mut S) -> Result<usize, Failed>
    requires { end < length bytes.old }
    ensures fills { IfOk result (λ n. Fills (take end bytes.old) (take (end + n) bytes.new)
        (S.left input.old) (S.left input.new)) }
    ensures within { IfOk result (λ n. end + n ≤ length bytes.new) }
    ensures kept { OnErr result (take end bytes.new ≡ take end bytes.old) }
    ensures fills_none { OnErr result (Fills (take end bytes.old) (take end bytes.new)
        (S.left input.old) (S.left input.new)) }
    ensures end { IfOk result (λ n. n ≡ 0 → HasNothingLeft (S.left input.new)) }
    ensures cause { HasCause (S.faults input.old) (S.faults input.new) result }
{
    match input.read(&mut bytes[end..]) {
        Ok(count) => Ok(count),
        Err(failed) => Err(failed),
    }
}

impl Buffer {
    /// An empty buffer, with all the room that a session needs.
    ///
    /// # Errors
    ///
    /// `AllocError` where memory runs out.
    pub fn new(alloc: Global) -> Result<Buffer, AllocError>
        ensures { IfOk result (λ b. b ≡ []) }
    {
        let bytes = vec![in alloc; 0u8; MAX_MESSAGE_BYTES]?;
        Ok(Buffer {
            bytes,
            start: 0,
            end: 0,
        })
    }

    /// Lets all bytes go, and keeps the room.
    pub(crate) fn clear(&mut self)
        ensures { self.new ≡ [] }
    {
        self.start = 0;
        self.end = 0;
    }

    /// The bytes that wait.
    pub(crate) fn bytes(&self) -> &[u8]
        ensures bytes { result.now ≡ self.now }
        ensures few { length self.now ≤ MAX_MESSAGE_BYTES }
    {
        &self.bytes[self.start..self.end]
    }

    /// How many wait.
    pub(crate) fn len(&self) -> usize
        ensures len { result ≡ length self.now }
        ensures few { length self.now ≤ MAX_MESSAGE_BYTES }
    {
        self.end - self.start
    }

    /// Lets the first bytes go.
    pub(crate) fn skip(&mut self, count: usize)
        requires { count ≤ length self.old }
        ensures { self.new ≡ drop count self.old }
    {
        self.start += count;
    }

    /// Reads once, behind the bytes that wait.
    pub(crate) fn read_more<S: Source>(&mut self, input: &mut S) -> Result<usize, Failed>
        requires { length self.old < MAX_MESSAGE_BYTES }
        ensures fills { Fills self.old self.new (S.left input.old) (S.left input.new) }
        ensures grown { IfOk result (λ n. n ≡ length self.new - length self.old) }
        ensures end { IfOk result (λ n. n ≡ 0 → HasNothingLeft (S.left input.new)) }
        ensures kept { OnErr result (self.new ≡ self.old) }
        ensures few { length self.new ≤ MAX_MESSAGE_BYTES }
        ensures cause { HasCause (S.faults input.old) (S.faults input.new) result }
    {
        self.end = move_to_front(&mut self.bytes, self.start, self.end);
        self.start = 0;
        input.note_held(&self.bytes[..self.end]);
        let count = read_behind(&mut self.bytes, self.end, input)?;
        self.end += count;
        Ok(count)
    }
}
