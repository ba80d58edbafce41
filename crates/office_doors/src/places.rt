//! The links of a port, each at a place of its own.
ghost use Rattle.std.specs.Prelude.{◌≡◌, length};

use crate::Visit;
use crate::link_sink::LinkSink;
use crate::link_source::LinkSource;
use office_outside::WallClock;
use std::alloc::{AllocError, Global};
use std::mem;
use std::os::fd::RawFd;
use std::time::{Clock, Duration, Instant};

/// How many links there may be: as many as a process has descriptors for by default, with some to
/// spare. Above it the link is closed that waits for the longest time.
pub(crate) const MOST_LINKS: usize = 1_000;

/// How many places the set tells of at once.
pub(crate) const EVENTS: usize = 64;

/// How many seconds a link may wait: as long as nginx keeps one that it doesn't use, and some more.
const IDLE_SECONDS: u64 = 75;

/// How many bytes all links that wait may keep of messages that aren't whole: sixteen large ones,
/// so that a thousand slow links can't take a gigabyte. Above it the link with some is closed that
/// waits for the longest time. Beside these each worker has what its own link keeps.
const MOST_KEPT_BYTES: usize = 16 << 20;

/// What a visitor at a port is served over.
pub(crate) type TcpVisit<R> = Visit<LinkSource<R>, LinkSink<R>, WallClock<R>>;

/// A link that waits, and since when.
#[derive(Drop)]
struct Waiter<R: Clock + Drop> {
    visit: TcpVisit<R>,
    since: Instant,
}

/// A link that is served, and whether the set still tells of it.
#[derive(Clone, Copy, Drop)]
struct Served {
    fd: RawFd,
    is_told: bool,
}

/// What is at a place. A link that is served keeps its own, so that no other is told of by its
/// name.
#[derive(Drop)]
enum Place<R: Clock + Drop> {
    Free,
    Out(Served),
    Waits(Waiter<R>),
}

/// What is at a place of which the set tells.
#[derive(Clone, Copy, Drop)]
pub(crate) enum Heard {
    Waits,
    /// A link that is served. The set tells of it for the first time since it went out.
    Served(RawFd),
    Nothing,
}

/// The links of a port. All places are made with it.
#[derive(Drop)]
pub(crate) struct Places<R: Clock + Drop> {
    places: Vec<Place<R>>,
    waiting: usize,
    /// How many bytes the links that wait keep.
    kept: usize,
    /// The places of which the set told, and that nobody took yet.
    ready: Vec<usize>,
}

impl<R: Clock + Drop> Places<R> {
    pub(crate) fn new(alloc: Global) -> Result<Places<R>, AllocError> {
        let mut places = Vec::with_capacity(alloc, MOST_LINKS)?;
        for _ in 0..MOST_LINKS {
            places.push(Place::Free)?;
        }
        Ok(Places {
            places,
            waiting: 0,
            kept: 0,
            ready: Vec::with_capacity(alloc, EVENTS)?,
        })
    }

    /// Whether there is no link.
    pub(crate) fn is_empty(&self) -> bool {
        self.places.iter().all(|place| matches!(place, Place::Free))
    }

    /// Whether a link waits.
    pub(crate) fn has_waiting(&self) -> bool {
        self.waiting > 0
    }

    /// Counts one less that waits, which keeps so many bytes.
    fn remove_waiter(&mut self, kept: usize)
        ensures { self.new.places ≡ self.old.places }
    {
        self.waiting = self.waiting.saturating_sub(1);
        self.kept = self.kept.saturating_sub(kept);
    }

    fn free_place(&self) -> Option<usize> {
        self.places
            .iter()
            .position(|place| matches!(place, Place::Free))
    }

    /// Takes a place that is free; where none is, the link is closed that waits for the longest
    /// time.
    pub(crate) fn take_place(&mut self, fd: RawFd) -> Option<usize> {
        if self.free_place().is_none() {
            self.close_oldest();
        }
        let at = self.free_place()?;
        if at < self.places.len() {
            self.places[at] = Place::Out(Served { fd, is_told: false });
        }
        Some(at)
    }

    /// Takes the link that waits at a place.
    fn take(&mut self, at: usize) -> Option<TcpVisit<R>> {
        let place = self.places.get_mut(at)?;
        match mem::replace(place, Place::Free) {
            Place::Free => None,
            Place::Out(served) => {
                *place = Place::Out(served);
                None
            }
            Place::Waits(waiter) => {
                *place = Place::Out(Served {
                    fd: waiter.visit.input.raw_fd(),
                    is_told: true,
                });
                self.remove_waiter(waiter.visit.input.kept_bytes());
                Some(waiter.visit)
            }
        }
    }

    /// Takes a link of which the set told.
    pub(crate) fn take_ready(&mut self) -> Option<TcpVisit<R>> {
        for _ in 0..self.ready.len() {
            let at = self.ready.pop()?;
            if let Some(visit) = self.take(at) {
                return Some(visit);
            }
        }
        None
    }

    /// At how many places links wait to be taken.
    pub(crate) fn ready_count(&self) -> usize {
        self.ready.len()
    }

    /// Notes that the link of a place waits to be taken.
    pub(crate) fn add_ready(&mut self, at: usize) -> Result<(), AllocError> {
        Ok(self.ready.push(at)?)
    }

    /// Hears that the set tells of a place.
    pub(crate) fn hear_of(&mut self, at: usize) -> Heard {
        match self.places.get_mut(at) {
            Some(Place::Waits(_)) => Heard::Waits,
            Some(Place::Out(served)) if served.is_told => {
                served.is_told = false;
                Heard::Served(served.fd)
            }
            _ => Heard::Nothing,
        }
    }

    /// Whether the set still tells of the link of a place.
    pub(crate) fn is_told(&self, at: usize) -> bool {
        match self.places.get(at) {
            Some(Place::Out(served)) => served.is_told,
            _ => false,
        }
    }

    /// Lets a link wait at its place.
    pub(crate) fn put(&mut self, at: usize, visit: TcpVisit<R>, since: Instant) {
        if at < self.places.len() {
            self.kept = self.kept.saturating_add(visit.input.kept_bytes());
            self.places[at] = Place::Waits(Waiter { visit, since });
            self.waiting = self.waiting.saturating_add(1);
        }
    }

    /// How many bytes the link that waits at a place keeps.
    fn kept_at(&self, at: usize) -> Option<usize> {
        match self.places.get(at) {
            Some(Place::Waits(waiter)) => Some(waiter.visit.input.kept_bytes()),
            _ => None,
        }
    }

    /// Lets a place go. A link that waits there is closed.
    pub(crate) fn free(&mut self, at: usize)
        ensures { length self.new.places.items ≡ length self.old.places.items }
    {
        if at < self.places.len() {
            if let Some(kept) = self.kept_at(at) {
                self.remove_waiter(kept);
            }
            self.places[at] = Place::Free;
        }
    }

    /// Whether a link at a place may be closed: the set didn't tell of it, so that no message is
    /// dropped that came.
    fn is_quiet(&self, at: usize) -> bool {
        !self.ready.contains(&at)
    }

    /// Where the quiet link waits for the longest time, of those that keep at least so many bytes.
    fn oldest(&self, least_kept: usize) -> Option<usize> {
        let mut oldest = None;
        for (at, place) in self.places.iter().enumerate() {
            if let Place::Waits(waiter) = place {
                let is_older = match oldest {
                    None => true,
                    Some((_, since)) => waiter.since < since,
                };
                let is_asked = waiter.visit.input.kept_bytes() >= least_kept;
                if is_older && is_asked && self.is_quiet(at) {
                    oldest = Some((at, waiter.since));
                }
            }
        }
        match oldest {
            Some((at, _)) => Some(at),
            None => None,
        }
    }

    /// Closes the quiet link that waits for the longest time.
    pub(crate) fn close_oldest(&mut self) {
        if let Some(at) = self.oldest(0) {
            self.free(at);
        }
    }

    /// Makes room for so many bytes of a message that isn't whole. Answers whether there is room.
    pub(crate) fn make_room(&mut self, bytes: usize) -> bool {
        for _ in 0..self.places.len() {
            if bytes == 0 || self.kept.saturating_add(bytes) <= MOST_KEPT_BYTES {
                return true;
            }
            let Some(at) = self.oldest(1) else {
                return false;
            };
            self.free(at);
        }
        false
    }

    /// Closes the quiet links that wait too long, and those whose message has had its time.
    pub(crate) fn close_idle(&mut self, now: Instant) {
        let most = Duration::from_secs(IDLE_SECONDS);
        for at in 0..self.places.len() {
            let is_idle = match &self.places[at] {
                Place::Waits(waiter) => {
                    now.duration_since(waiter.since) >= most || waiter.visit.input.is_late(now)
                }
                _ => false,
            };
            if is_idle && self.is_quiet(at) {
                self.free(at);
            }
        }
    }
}
