//! A link of a port: single reads and writes over it, and the time that they may take.
ghost use Rattle.std.specs.Prelude.{◌≡◌, ◌<◌, ◌≤◌, length, IfOk, IfSome};

use crate::tally::Tally;
use office_outside::Failed;
use std::alloc::Global;
use std::io::{ErrorKind, Read, Write};
use std::net::TcpStream;
use std::sync::Arc;
use std::time::{Clock, Duration, Instant};

/// How often a call is made before it counts as a fault that it was always interrupted.
const TRIES: usize = 100;

/// How many milliseconds a read waits for bytes before the link is let wait without a worker.
const PAUSE_MILLIS: u64 = 5;

/// How many milliseconds a write waits before it is looked whether the answer has time left:
/// workers may have become busy meanwhile.
const LOOK_MILLIS: u64 = 250;

/// Reads once, and again where the read was interrupted. None where nothing came for as long as the
/// link lets a read wait.
pub(crate) fn read_once(mut link: &TcpStream, piece: &mut [u8]) -> Result<Option<usize>, Failed>
    ensures count { IfOk result (λ got. IfSome got (λ n. n ≤ length piece.new)) }
{
    for _ in 0..TRIES {
        match link.read(piece) {
            Ok(count) => return Ok(Some(count)),
            Err(error) => match error.kind() {
                ErrorKind::Interrupted => {}
                ErrorKind::WouldBlock => return Ok(None),
                _ => return Err(Failed),
            },
        }
    }
    Err(Failed)
}

/// Writes once, and again where the write was interrupted. None where nothing was taken for as long
/// as the link lets a write wait.
pub(crate) fn write_once(mut link: &TcpStream, piece: &[u8]) -> Result<Option<usize>, Failed>
    ensures count { IfOk result (λ got. IfSome got (λ n. n ≤ length piece.now)) }
    ensures progress { IfOk result (λ got. IfSome got (λ n. 0 < length piece.now → 0 < n)) }
{
    for _ in 0..TRIES {
        match link.write(piece) {
            Ok(count) if count > 0 || piece.is_empty() => return Ok(Some(count)),
            Ok(_) => return Err(Failed),
            Err(error) => match error.kind() {
                ErrorKind::Interrupted => {}
                ErrorKind::WouldBlock => return Ok(None),
                _ => return Err(Failed),
            },
        }
    }
    Err(Failed)
}

/// Whether what began then has some of so many milliseconds left.
pub(crate) fn has_time<R: Clock>(rt: &R, begun: Instant, millis: u64) -> bool {
    match begun.elapsed(rt) {
        Ok(spent) => spent < Duration::from_millis(millis),
        Err(_) => false,
    }
}

/// Whether an answer that began then has time left.
pub(crate) fn has_patience<R: Clock>(rt: &R, begun: Instant, tally: &Tally) -> bool {
    has_time(rt, begun, tally.patience_millis())
}

/// Shares a link between a source and a sink.
pub(crate) fn share_link(alloc: Global, link: TcpStream) -> Option<Arc<TcpStream>> {
    link.set_nodelay(true).ok()?;
    link.set_read_timeout(Some(Duration::from_millis(PAUSE_MILLIS)))
        .ok()?;
    link.set_write_timeout(Some(Duration::from_millis(LOOK_MILLIS)))
        .ok()?;
    Arc::new(alloc, link).ok()
}
