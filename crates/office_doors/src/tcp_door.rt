//! A door at a port of this machine. It tells nothing of what comes and goes.
ghost use Rattle.std.specs.Prelude.{◌≡◌, None};

use crate::Door;
use crate::hall::Hall;
use crate::link_sink::LinkSink;
use crate::link_source::LinkSource;
use crate::places::TcpVisit;
use office_outside::{Failed, WallClock};
use std::net::{Net, TcpListener, TcpStream};
use std::sync::{Arc, Wait};
use std::{io, time};

/// A door over a listener of this machine, shared with other doors. A visit is a link from where it
/// has bytes to where it waits for more: between two visits it holds no worker. What fails on a
/// link ends it alone, and is no fault of the door.
#[derive(Drop)]
pub struct TcpDoor<R: time::Clock + Drop> {
    rt: R,
    hall: Arc<Hall<R>>,
    pub(crate) faults: u64,
}

impl<R: time::Clock + Drop> TcpDoor<R> {
    /// A door before its first visit.
    pub(crate) fn new(rt: R, hall: Arc<Hall<R>>) -> TcpDoor<R>
        ensures { result.faults ≡ 0 }
    {
        TcpDoor {
            rt,
            hall,
            faults: 0,
        }
    }

    /// The port at which it listens, where the system tells.
    pub fn port(&self) -> io::Result<u16> {
        self.hall.port()
    }

    /// How many calls of `next` failed.
    pub(crate) fn faults(&self) -> u64
        ensures { result ≡ self.now.faults }
    {
        self.faults
    }
}

impl<R> Door for TcpDoor<R>
where
    R: Net<Listener = TcpListener, Stream = TcpStream>
        + time::Clock
        + Wait
        + Copy
        + Send
        + Sync
        + Drop,
{
    type In = LinkSource<R>;

    type Out = LinkSink<R>;

    type Time = WallClock<R>;

    ghost told = { λ d. None };

    ghost faults = { λ d. d.faults };

    /// Waits for a link that has bytes. It fails where for some seconds links can't be looked for,
    /// or none can be taken and there is none to close.
    fn next(&mut self) -> Result<Option<TcpVisit<R>>, Failed> {
        match self.hall.next(self.rt) {
            Ok(visit) => Ok(Some(visit)),
            Err(Failed) => {
                self.faults = self.faults.saturating_add(1);
                Err(Failed)
            }
        }
    }

    fn end(&mut self, visit: TcpVisit<R>)
        ensures { self.new.faults ≡ self.old.faults }
    {
        self.hall.end(self.rt, visit);
    }

    ghost within = { λ d. tt };
}
