//! Adapters over readers and writers of std. They tell nothing of what is left or held.
ghost use Rattle.std.specs.Prelude.{◌≡◌, ◌<◌, ◌≤◌, None, length, IfOk};
ghost use Rattle.std.specs.Io.KnownBytes.{Keeps, ReadConsumes, WriteAppends};
ghost use Rattle.office_outside.specs.Faults.{HasCause, CountsFailure};

use crate::{Failed, Sink, Source};
use std::io::{ErrorKind, Read, Write};
use std::marker::Model;

/// How often a call is made before it counts as a fault that it was always interrupted. A signal
/// interrupts a call now and then; a hundred in a row mean that something is wrong.
const TRIES: usize = 100;

/// Counts the failure, where the outcome is one.
fn counted<T>(outcome: Result<T, Failed>, faults: &mut u64) -> Result<T, Failed>
    ensures same { result ≡ outcome }
    ensures counted { CountsFailure faults.old faults.new result }
    ensures later { faults.old ≤ faults.new }
{
    if outcome.is_err() {
        *faults = faults.saturating_add(1);
    }
    outcome
}

/// Reads once, and again where the read was interrupted.
fn read_some<R: Read>(reader: &mut R, piece: &mut [u8]) -> Result<usize, Failed>
    ensures count { IfOk result (λ n. n ≤ length piece.new) }
    ensures bytes { ReadConsumes (R.remaining reader.old) (R.remaining reader.new) result
        piece.new }
{
    for _ in 0..TRIES {
        match reader.read(piece) {
            Ok(count) => return Ok(count),
            Err(error) if error.kind() == ErrorKind::Interrupted => {}
            Err(_) => return Err(Failed),
        }
    }
    Err(Failed)
}

/// Writes once, and again where the write was interrupted. A write that takes nothing of a piece
/// that isn't empty fails.
fn write_some<W: Write>(writer: &mut W, piece: &[u8]) -> Result<usize, Failed>
    ensures count { IfOk result (λ n. n ≤ length piece.now) }
    ensures progress { IfOk result (λ n. 0 < length piece.now → 0 < n) }
    ensures bytes { WriteAppends (W.contents writer.old) (W.contents writer.new) result piece.now }
{
    for _ in 0..TRIES {
        match writer.write(piece) {
            Ok(count) if count > 0 || piece.is_empty() => return Ok(count),
            Err(error) if error.kind() == ErrorKind::Interrupted => {}
            _ => return Err(Failed),
        }
    }
    Err(Failed)
}

/// Flushes once, and again where the flush was interrupted.
fn flush_all<W: Write>(writer: &mut W) -> Result<(), Failed>
    ensures { Keeps (W.contents writer.old) (W.contents writer.new) }
{
    for _ in 0..TRIES {
        match writer.flush() {
            Ok(()) => return Ok(()),
            Err(error) if error.kind() == ErrorKind::Interrupted => {}
            Err(_) => return Err(Failed),
        }
    }
    Err(Failed)
}

/// A reader or a writer of std, with its count of faults.
///
/// As a source: each error of the reader is a fault, but a read that was interrupted is tried
/// again, up to a hundred times. As a sink: each error of the writer is a fault, and so is a write
/// that takes nothing of a piece that isn't empty; but a write or a flush that was interrupted is
/// tried again, up to a hundred times.
#[derive(Drop)]
pub struct Adapter<T: Drop> {
    inner: T,
    faults: u64,
}

/// A source over a reader of std.
pub type StdSource<R> = Adapter<R>;

/// A sink over a writer of std.
pub type StdSink<W> = Adapter<W>;

impl<T: Drop> Model for Adapter<T> {
    ghost use Rattle.office_outside.specs.Adapter.{WithFaults};

    ghost Value = { WithFaults T };

    ghost view = { λ s. record { inner = s.inner; faults = s.faults } };
}

impl<T: Drop> Adapter<T> {
    /// Counts no fault yet.
    pub fn new(inner: T) -> Adapter<T>
        ensures inner { result.inner ≡ inner }
        ensures faults { result.faults ≡ 0 }
    {
        Adapter { inner, faults: 0 }
    }

    /// How many calls failed.
    pub fn faults(&self) -> u64
        ensures { result ≡ self.now.faults }
    {
        self.faults
    }
}

impl<R: Read + Drop> Source for Adapter<R> {
    ghost left = { λ _. None };

    ghost faults = { λ s. s.faults };

    /// What the reader itself tells of its bytes holds too.
    fn read(&mut self, piece: &mut [u8]) -> Result<usize, Failed>
        ensures count { IfOk result (λ n. n ≤ length piece.new) }
        ensures cause { HasCause self.old.faults self.new.faults result }

        ensures counted { CountsFailure self.old.faults self.new.faults result }
        ensures reader { ReadConsumes (R.remaining self.old.inner) (R.remaining self.new.inner)
            result piece.new }
    {
        counted(read_some(&mut self.inner, piece), &mut self.faults)
    }
}

impl<W: Write + Drop> Sink for Adapter<W> {
    ghost held = { λ _. None };

    ghost faults = { λ s. s.faults };

    /// What the writer itself tells of its bytes holds too.
    fn write(&mut self, piece: &[u8]) -> Result<usize, Failed>
        ensures count { IfOk result (λ n. n ≤ length piece.now) }
        ensures progress { IfOk result (λ n. 0 < length piece.now → 0 < n) }
        ensures cause { HasCause self.old.faults self.new.faults result }

        ensures counted { CountsFailure self.old.faults self.new.faults result }
        ensures writer { WriteAppends (W.contents self.old.inner) (W.contents self.new.inner) result
            piece.now }
    {
        counted(write_some(&mut self.inner, piece), &mut self.faults)
    }

    /// What the writer itself tells of its bytes holds too.
    fn flush(&mut self) -> Result<(), Failed>
        ensures cause { HasCause self.old.faults self.new.faults result }

        ensures counted { CountsFailure self.old.faults self.new.faults result }
        ensures writer { Keeps (W.contents self.old.inner) (W.contents self.new.inner) }
    {
        counted(flush_all(&mut self.inner), &mut self.faults)
    }
}
