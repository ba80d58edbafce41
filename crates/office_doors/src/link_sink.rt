//! A link of a port as a sink. It tells nothing of what it holds.
ghost use Rattle.std.specs.Prelude.{◌≡◌, ◌<◌, ◌≤◌, None, length, IfOk};

use crate::link::{has_patience, write_once};
use crate::tally::Tally;
use office_outside::{Failed, Sink};
use std::net::TcpStream;
use std::sync::Arc;
use std::time::{Clock, Instant};

/// What a session says over a link. An answer has its time for all of it.
#[derive(Drop)]
struct Mouth<R: Drop> {
    rt: R,
    link: Arc<TcpStream>,
    tally: Arc<Tally>,
    /// When the answer began that isn't flushed yet.
    begun: Option<Instant>,
}

impl<R: Clock + Drop> Mouth<R> {
    /// When the answer began. None where it has no time left.
    fn beginning(&mut self) -> Option<Instant> {
        match self.begun {
            Some(begun) if has_patience(&self.rt, begun, &self.tally) => Some(begun),
            Some(_) => None,
            None => {
                self.begun = Instant::now(&self.rt).ok();
                self.begun
            }
        }
    }

    fn write(&mut self, piece: &[u8]) -> Result<usize, Failed>
        ensures count { IfOk result (λ n. n ≤ length piece.now) }
        ensures progress { IfOk result (λ n. 0 < length piece.now → 0 < n) }
    {
        let Some(begun) = self.beginning() else {
            return Err(Failed);
        };
        for _ in 0..u64::MAX {
            match write_once(&self.link, piece) {
                Ok(Some(count)) => return Ok(count),
                Ok(None) => {}
                Err(failed) => return Err(failed),
            }
            if !has_patience(&self.rt, begun, &self.tally) {
                return Err(Failed);
            }
        }
        Err(Failed)
    }
}

/// A link as a sink.
#[derive(Drop)]
pub struct LinkSink<R: Drop> {
    mouth: Mouth<R>,
    pub(crate) faults: u64,
}

impl<R: Clock + Drop> LinkSink<R> {
    pub(crate) fn new(rt: R, link: Arc<TcpStream>, tally: Arc<Tally>) -> LinkSink<R>
        ensures { result.faults ≡ 0 }
    {
        LinkSink {
            mouth: Mouth {
                rt,
                link,
                tally,
                begun: None,
            },
            faults: 0,
        }
    }
}

impl<R: Clock + Drop> Sink for LinkSink<R> {
    ghost held = { λ _. None };

    ghost faults = { λ s. s.faults };

    fn write(&mut self, piece: &[u8]) -> Result<usize, Failed> {
        match self.mouth.write(piece) {
            Ok(count) => Ok(count),
            Err(Failed) => {
                self.faults = self.faults.saturating_add(1);
                Err(Failed)
            }
        }
    }

    /// Ends an answer. What was written is on its way already.
    fn flush(&mut self) -> Result<(), Failed> {
        self.mouth.begun = None;
        Ok(())
    }
}
