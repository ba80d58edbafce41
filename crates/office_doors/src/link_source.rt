//! A link of a port as a source. It tells nothing of what is left.
ghost use Rattle.std.specs.Prelude.{◌≡◌, ◌≤◌, None, length, IfOk};

use crate::kept::Kept;
use crate::link::{has_time, read_once};
use crate::tally::{PATIENCE_MILLIS, Tally};
use office_outside::{Failed, Source};
use std::alloc::Global;
use std::io::Read;
use std::net::{Shutdown, TcpStream};
use std::os::fd::{AsRawFd, RawFd};
use std::sync::Arc;
use std::time::{Clock, Duration, Instant};

/// How many milliseconds the end of a link waits for what the client still sends, at each read and
/// in all. A link that is closed with bytes unread loses the answers on their way.
const LINGER_MILLIS: u64 = 200;

const LINGER_MILLIS_IN_ALL: u64 = 1_000;

/// How many bytes come at once where a message flows. Its link goes on also where others want the
/// worker: each time that it is let wait its bytes are copied.
const FLOW_BYTES: usize = 4_096;

/// What a session hears of a link. Where no byte comes for a while the visit ends, and the link
/// waits: with what the session holds of a message, where it holds some.
#[derive(Drop)]
struct Ear<R: Drop> {
    rt: R,
    link: Arc<TcpStream>,
    place: usize,
    tally: Arc<Tally>,
    kept: Kept,
    /// When the message began of which bytes are kept, where the clock told.
    begun: Option<Instant>,
    /// Whether the link was read from in this visit.
    is_read: bool,
    /// Whether a message flows.
    flows: bool,
    /// Whether there was no memory for what is to be kept.
    is_full: bool,
    waits: bool,
}

impl<R: Clock + Drop> Ear<R> {
    /// Hears what the session holds of a message. A visit's session holds the front of what is kept
    /// until it was given all of it.
    fn note_held(&mut self, held: &[u8]) {
        if self.kept.is_giving() {
            return;
        }
        if !self.kept.is_empty() && !self.kept.goes_on(held.len()) {
            self.kept.clear();
        }
        if held.is_empty() {
            self.flows = false;
            return;
        }
        if self.kept.is_empty() {
            self.begun = Instant::now(&self.rt).ok();
        }
        self.is_full = self.kept.keep(held).is_err();
    }

    /// Whether a message has had its time, from its first byte on.
    fn is_late(&self) -> bool {
        if self.kept.is_empty() {
            return false;
        }
        match self.begun {
            Some(begun) => !has_time(&self.rt, begun, PATIENCE_MILLIS),
            None => true,
        }
    }

    /// Ends the visit, where the message that the session holds has time left: the link waits.
    fn rest(&mut self) -> Result<usize, Failed>
        ensures { IfOk result (λ n. n ≡ 0) }
    {
        if self.is_late() {
            return Err(Failed);
        }
        self.waits = true;
        Ok(0)
    }

    /// Reads from the link. The first read of a visit finds what the set told of, also where others
    /// want the worker and where a message has had its time since.
    fn read_link(&mut self, piece: &mut [u8]) -> Result<usize, Failed>
        ensures count { IfOk result (λ n. n ≤ length piece.new) }
    {
        if self.is_read && self.is_late() {
            return Err(Failed);
        }
        if self.is_read && !self.flows && self.tally.wants_worker(&self.rt) {
            return self.rest();
        }
        self.is_read = true;
        match read_once(&self.link, piece) {
            Ok(Some(count)) => {
                self.kept.note_read(count);
                self.flows = count >= FLOW_BYTES;
                Ok(count)
            }
            Ok(None) => self.rest(),
            Err(failed) => Err(failed),
        }
    }

    fn read(&mut self, piece: &mut [u8]) -> Result<usize, Failed>
        ensures count { IfOk result (λ n. n ≤ length piece.new) }
    {
        if self.is_full {
            return Err(Failed);
        }
        if self.kept.is_giving() {
            return Ok(self.kept.give(piece));
        }
        self.read_link(piece)
    }
}

/// A link as a source. Where no byte comes for a while it says that the input ended, to a session
/// inside a message too; the link then waits at its door.
#[derive(Drop)]
pub struct LinkSource<R: Drop> {
    ear: Ear<R>,
    pub(crate) faults: u64,
}

impl<R: Clock + Drop> LinkSource<R> {
    pub(crate) fn new(
        rt: R,
        alloc: Global,
        link: Arc<TcpStream>,
        place: usize,
        tally: Arc<Tally>,
    ) -> LinkSource<R>
        ensures { result.faults ≡ 0 }
    {
        LinkSource {
            ear: Ear {
                rt,
                link,
                place,
                tally,
                kept: Kept::new(alloc),
                begun: None,
                is_read: false,
                flows: false,
                is_full: false,
                waits: false,
            },
            faults: 0,
        }
    }

    /// Makes it ready for a session, which is given first what is kept.
    pub(crate) fn begin(&mut self) {
        self.ear.kept.begin();
        self.ear.is_read = false;
        self.ear.waits = false;
    }

    /// Whether its last session ended because no byte came.
    pub(crate) fn waits(&self) -> bool {
        self.ear.waits
    }

    /// How many bytes it keeps of a message that isn't whole.
    pub(crate) fn kept_bytes(&self) -> usize {
        self.ear.kept.len()
    }

    /// Whether such a message has had its time.
    pub(crate) fn is_late(&self, now: Instant) -> bool {
        match self.ear.begun {
            Some(begun) if !self.ear.kept.is_empty() => {
                now.duration_since(begun) >= Duration::from_millis(PATIENCE_MILLIS)
            }
            _ => false,
        }
    }

    pub(crate) fn place(&self) -> usize {
        self.ear.place
    }

    pub(crate) fn raw_fd(&self) -> RawFd {
        self.ear.link.as_raw_fd()
    }

    /// The link, for one who needs it open for longer than this source may last.
    pub(crate) fn share_link(&self) -> Option<Arc<TcpStream>> {
        Arc::try_clone(&self.ear.link).ok()
    }

    /// Ends a link: says that no more comes, and takes what the client still sends, for a while. A
    /// link whose input failed isn't waited for.
    pub(crate) fn linger(&self) -> Option<()> {
        let begun = Instant::now(&self.ear.rt).ok()?;
        let mut link: &TcpStream = &self.ear.link;
        link.shutdown(Shutdown::Write).ok()?;
        if self.faults > 0 {
            return Some(());
        }
        let pause = Duration::from_millis(LINGER_MILLIS);
        link.set_read_timeout(Some(pause)).ok()?;
        let mut piece = [0; 8192];
        for _ in 0..u64::MAX {
            if link.read(&mut piece).ok()? == 0 {
                return Some(());
            }
            if !has_time(&self.ear.rt, begun, LINGER_MILLIS_IN_ALL) {
                return None;
            }
        }
        None
    }
}

impl<R: Clock + Drop> Source for LinkSource<R> {
    ghost left = { λ _. None };

    ghost faults = { λ s. s.faults };

    fn note_held(&mut self, held: &[u8]) {
        self.ear.note_held(held);
    }

    fn read(&mut self, piece: &mut [u8]) -> Result<usize, Failed> {
        match self.ear.read(piece) {
            Ok(count) => Ok(count),
            Err(Failed) => {
                self.faults = self.faults.saturating_add(1);
                Err(Failed)
            }
        }
    }
}
