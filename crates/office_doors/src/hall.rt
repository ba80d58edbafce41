//! What the doors at one port share: its listener, its links, and the set in which these wait.

use crate::Visit;
use crate::link::share_link;
use crate::link_sink::LinkSink;
use crate::link_source::LinkSource;
use crate::places::{EVENTS, Heard, Places, TcpVisit};
use crate::tally::Tally;
use mio::unix::SourceFd;
use mio::{Events, Interest, Poll, Registry, Token};
use office_outside::{Failed, WallClock};
use std::alloc::{AllocError, Global};
use std::io::ErrorKind;
use std::net::{Net, TcpListener, TcpStream};
use std::os::fd::AsRawFd;
use std::sync::{Arc, Mutex, Wait};
use std::time::{Duration, Instant};
use std::{io, thread, time};

/// How often in a row a look for links may fail, and the pause after it in milliseconds: what is
/// missing, as a free descriptor, may come back within some seconds.
const TRIES: u32 = 100;

const PAUSE_MILLIS: u64 = 100;

/// How many milliseconds a look waits at most, and how often links are closed that wait too long.
const ROUND_MILLIS: u64 = 1_000;

/// The listener's name in the events; links have the numbers of their places.
const LISTENER: usize = usize::MAX;

/// What the system answers where no descriptor can be had: none is left to the machine or to the
/// process, or no memory for one (ENFILE, EMFILE, ENOBUFS, ENOMEM).
const NO_ROOM: [i32; 4] = [23, 24, 105, 12];

/// What came of a try to take a link from the listener.
#[derive(Clone, Copy, Drop)]
enum Taken {
    /// One came; it may have ended before it was taken.
    Link,
    Nothing,
    NoRoom,
    Fault,
}

/// Why no link was taken.
fn cause_of(error: &io::Error) -> Taken {
    match error.kind() {
        ErrorKind::WouldBlock => return Taken::Nothing,
        ErrorKind::ConnectionAborted | ErrorKind::Interrupted => return Taken::Link,
        _ => {}
    }
    match error.raw_os_error() {
        Some(code) if NO_ROOM.contains(&code) => Taken::NoRoom,
        _ => Taken::Fault,
    }
}

/// What only one worker has at a time: it waits for links, and the others wait for it.
#[derive(Drop)]
struct Lead {
    poll: Poll,
    events: Events,
    last_round: Option<Instant>,
    failures: u32,
    /// Whether a link may wait at the listener: since it was told of, until none came of it.
    is_asked: bool,
}

/// What the doors at one port share. Who takes both locks takes that of `lead` first.
#[derive(Drop)]
pub(crate) struct Hall<R: time::Clock + Drop> {
    alloc: Global,
    listener: TcpListener,
    registry: Registry,
    tally: Arc<Tally>,
    lead: Mutex<Lead>,
    places: Mutex<Places<R>>,
}

impl<R: time::Clock + Drop> Hall<R> {
    /// The port at which it listens, where the system tells.
    pub(crate) fn port(&self) -> io::Result<u16> {
        Ok(self.listener.local_addr()?.port())
    }
}

impl<R: time::Clock + Wait + Copy + Drop> Hall<R> {
    /// Whether a place of which the set tells has a link that waits. The set goes on telling of one
    /// that is served: at the first time it is told to stop.
    fn has_waiter(&self, places: &mut Places<R>, at: usize) -> bool {
        match places.hear_of(at) {
            Heard::Waits => true,
            Heard::Served(fd) => {
                let _ = self.registry.deregister(&mut SourceFd(&fd));
                false
            }
            Heard::Nothing => false,
        }
    }

    /// Waits so long for something to do. Answers whether the listener was told of.
    fn wait_for(&self, rt: R, lead: &mut Lead, millis: u64) -> Result<bool, Failed> {
        let wait = Duration::from_millis(millis);
        if lead.poll.poll(&mut lead.events, Some(wait)).is_err() {
            return Err(Failed);
        }
        let mut places = self.places.lock(&rt);
        let mut is_asked = false;
        for event in lead.events.iter() {
            let Token(at) = event.token();
            if at == LISTENER {
                is_asked = true;
            } else if self.has_waiter(&mut places, at) && places.add_ready(at).is_err() {
                return Err(Failed);
            }
        }
        Ok(is_asked)
    }

    /// Lets a new link wait. One that fails before is let go.
    fn admit(&self, rt: R, link: TcpStream) -> Option<()> {
        let link = share_link(self.alloc, link)?;
        let now = Instant::now(&rt).ok()?;
        let heard = Arc::try_clone(&link).ok()?;
        let tally = Arc::try_clone(&self.tally).ok()?;
        let other_tally = Arc::try_clone(&self.tally).ok()?;
        let at = self.places.lock(&rt).take_place(link.as_raw_fd())?;
        let visit = Visit {
            input: LinkSource::new(rt, self.alloc, heard, at, tally),
            output: LinkSink::new(rt, link, other_tally),
            clock: WallClock::new(rt),
        };
        self.park(rt, visit, now);
        Some(())
    }

    /// Takes at most one link from the listener.
    fn take_link(&self, rt: R) -> Taken {
        match self.listener.accept() {
            Ok((link, _)) => {
                self.admit(rt, link);
                Taken::Link
            }
            Err(error) => cause_of(&error),
        }
    }

    /// Closes the links that wait too long, now and then.
    fn make_round(&self, rt: R, lead: &mut Lead) {
        let Ok(now) = Instant::now(&rt) else {
            return;
        };
        let is_due = match lead.last_round {
            None => true,
            Some(last) => now.duration_since(last) >= Duration::from_millis(ROUND_MILLIS),
        };
        if is_due {
            lead.last_round = Some(now);
            self.places.lock(&rt).close_idle(now);
        }
    }

    /// Where no descriptor can be had, closes the oldest link if somebody waits at the listener.
    /// An `accept` fails so also where nobody does, so the set is asked, but only where a link can
    /// be closed: else it would answer at once, again and again. It is a fault only where there is
    /// no link at all.
    fn make_room(&self, rt: R, lead: &mut Lead) -> Result<(), Failed> {
        if self.places.lock(&rt).is_empty() {
            return Err(Failed);
        }
        if self.places.lock(&rt).has_waiting() {
            let fd = self.listener.as_raw_fd();
            let _ = self
                .registry
                .reregister(&mut SourceFd(&fd), Token(LISTENER), Interest::READABLE);
        }
        if self.wait_for(rt, lead, PAUSE_MILLIS)? {
            self.places.lock(&rt).close_oldest();
        }
        Ok(())
    }

    /// Takes at most one link, and hears whether it has bytes.
    fn ask_listener(&self, rt: R, lead: &mut Lead) -> Result<(), Failed> {
        match self.take_link(rt) {
            Taken::Link => {
                self.wait_for(rt, lead, 0)?;
            }
            Taken::Nothing => lead.is_asked = false,
            Taken::NoRoom => self.make_room(rt, lead)?,
            Taken::Fault => return Err(Failed),
        }
        Ok(())
    }

    /// Waits until there is something to do, and takes a link that comes. The listener is asked
    /// only where it was told of: an `accept` in vain costs as much as half an answer.
    fn look(&self, rt: R, lead: &mut Lead) -> Result<(), Failed> {
        if !lead.is_asked {
            lead.is_asked = self.wait_for(rt, lead, ROUND_MILLIS)?;
        }
        if lead.is_asked {
            self.ask_listener(rt, lead)?;
        }
        self.make_round(rt, lead);
        Ok(())
    }

    /// Takes a link of which the set told.
    fn take_ready(&self, rt: R) -> Option<TcpVisit<R>> {
        let mut places = self.places.lock(&rt);
        let taken = places.take_ready();
        self.tally.set_ready(places.ready_count());
        taken
    }

    /// Looks, and takes a link that is found. Once it failed for too long it fails for ever, so
    /// that no worker goes on alone.
    fn lead(&self, rt: R) -> Result<Option<TcpVisit<R>>, Failed> {
        let mut guard = self.lead.lock(&rt);
        let lead = &mut *guard;
        // who led before may have left some
        if let Some(visit) = self.take_ready(rt) {
            return Ok(Some(visit));
        }
        if lead.failures >= TRIES {
            return Err(Failed);
        }
        if self.look(rt, lead).is_ok() {
            lead.failures = 0;
        } else {
            lead.failures = lead.failures.saturating_add(1);
            thread::sleep(&rt, Duration::from_millis(PAUSE_MILLIS));
        }
        let mut places = self.places.lock(&rt);
        let taken = places.take_ready();
        self.tally.note_look(&rt, places.ready_count());
        Ok(taken)
    }

    /// Waits for a link that has bytes, where one comes.
    fn next_waiter(&self, rt: R) -> Result<Option<TcpVisit<R>>, Failed> {
        if self.tally.has_ready() {
            if let Some(visit) = self.take_ready(rt) {
                return Ok(Some(visit));
            }
        }
        self.lead(rt)
    }

    /// Waits for a link that has bytes.
    fn await_link(&self, rt: R) -> Result<TcpVisit<R>, Failed> {
        for _ in 0..u64::MAX {
            if let Some(mut visit) = self.next_waiter(rt)? {
                visit.input.begin();
                return Ok(visit);
            }
        }
        Err(Failed)
    }

    /// Waits for a link that has bytes; the worker counts as free meanwhile.
    pub(crate) fn next(&self, rt: R) -> Result<TcpVisit<R>, Failed> {
        self.tally.add_worker();
        let next = self.await_link(rt);
        self.tally.remove_worker();
        next
    }

    /// Lets a link wait. It is at its place before the set is asked to tell of it. A set that tells
    /// of it already is asked again when others may take it: it stays open meanwhile, so that no
    /// other link has its descriptor.
    fn park(&self, rt: R, visit: TcpVisit<R>, now: Instant) {
        let at = visit.input.place();
        let Some(link) = visit.input.share_link() else {
            self.places.lock(&rt).free(at);
            return;
        };
        let fd = link.as_raw_fd();
        let mut places = self.places.lock(&rt);
        let is_told = places.is_told(at);
        if !places.make_room(visit.input.kept_bytes()) {
            places.free(at);
            return;
        }
        places.put(at, visit, now);
        if is_told {
            drop(places);
            // it fails where another took the link meanwhile, and lets it wait anew
            let _ = self
                .registry
                .reregister(&mut SourceFd(&fd), Token(at), Interest::READABLE);
            return;
        }
        if self
            .registry
            .register(&mut SourceFd(&fd), Token(at), Interest::READABLE)
            .is_err()
        {
            places.free(at);
        }
    }

    /// Takes back a visit, whose link waits or ends.
    pub(crate) fn end(&self, rt: R, visit: TcpVisit<R>) {
        if visit.input.waits() {
            if let Ok(now) = Instant::now(&rt) {
                self.park(rt, visit, now);
                return;
            }
        } else {
            visit.input.linger();
        }
        self.places.lock(&rt).free(visit.input.place());
    }
}

/// A hall before its first link, with all the memory that it needs but for links themselves.
pub(crate) fn make_hall<R: time::Clock + Copy + Drop>(
    alloc: Global,
    listener: TcpListener,
    poll: Poll,
    registry: Registry,
    now: Instant,
) -> Result<Arc<Hall<R>>, AllocError> {
    let lead = Lead {
        poll,
        events: Events::with_capacity(alloc, EVENTS)?,
        last_round: None,
        failures: 0,
        is_asked: true,
    };
    let tally = Arc::new(alloc, Tally::new(now))?;
    let places = Places::new(alloc)?;
    let hall = Hall {
        alloc,
        listener,
        registry,
        tally,
        lead: Mutex::new(lead),
        places: Mutex::new(places),
    };
    Ok(Arc::new(alloc, hall)?)
}

/// A set that tells of the listener.
pub(crate) fn open_set<R: Net>(rt: &R, listener: &TcpListener) -> io::Result<Poll> {
    let poll = Poll::new(rt)?;
    let fd = listener.as_raw_fd();
    poll.registry()
        .register(&mut SourceFd(&fd), Token(LISTENER), Interest::READABLE)?;
    Ok(poll)
}
