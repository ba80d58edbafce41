//! How many workers are free and how many links wait, and what a link may take by that.

use std::sync::atomic::{AtomicUsize, Ordering};
use std::time::{Clock, Instant};

/// How many milliseconds a message may take from its first byte to its last, and an answer.
pub(crate) const PATIENCE_MILLIS: u64 = 10_000;

/// How many an answer may take while no worker is free: a link that takes nothing of it holds its
/// worker.
const HURRY_MILLIS: u64 = 2_000;

/// How many milliseconds busy links may hold all workers before one of these looks whether others
/// wait: nobody else does.
const LOOK_MILLIS: usize = 8;

/// How many looks in a row have to find one link at most until busy links hold their workers again.
const LONE_LOOKS: usize = 8;

/// How many workers are free, and what is known of links that wait for one.
#[derive(Drop)]
pub(crate) struct Tally {
    begun: Instant,
    free_workers: AtomicUsize,
    /// Of how many links the set told that nobody took yet.
    ready_links: AtomicUsize,
    /// How many of these looks are left. None where busy links hold their workers.
    lone_looks: AtomicUsize,
    /// When the last look was, in milliseconds from the beginning.
    looked_at: AtomicUsize,
}

impl Tally {
    pub(crate) fn new(begun: Instant) -> Tally {
        Tally {
            begun,
            free_workers: AtomicUsize::new(0),
            ready_links: AtomicUsize::new(0),
            lone_looks: AtomicUsize::new(0),
            looked_at: AtomicUsize::new(0),
        }
    }

    /// A worker waits for a visit from now on.
    pub(crate) fn add_worker(&self) {
        self.free_workers.fetch_add(1, Ordering::SeqCst);
    }

    /// A worker that waited doesn't any more.
    pub(crate) fn remove_worker(&self) {
        self.free_workers.fetch_sub(1, Ordering::SeqCst);
    }

    pub(crate) fn set_ready(&self, count: usize) {
        self.ready_links.store(count, Ordering::SeqCst);
    }

    /// Whether the set told of links that nobody took yet.
    pub(crate) fn has_ready(&self) -> bool {
        self.ready_links.load(Ordering::SeqCst) > 0
    }

    fn millis<R: Clock>(&self, rt: &R) -> usize {
        match self.begun.elapsed(rt) {
            Ok(spent) => usize::try_from(spent.as_millis()).unwrap_or(usize::MAX),
            Err(_) => usize::MAX,
        }
    }

    /// Notes a look, which found so many links beside the one that is taken at once.
    pub(crate) fn note_look<R: Clock>(&self, rt: &R, others: usize) {
        self.set_ready(others);
        let lone_looks = if others > 0 {
            LONE_LOOKS
        } else {
            self.lone_looks.load(Ordering::SeqCst).saturating_sub(1)
        };
        self.lone_looks.store(lone_looks, Ordering::SeqCst);
        self.looked_at.store(self.millis(rt), Ordering::SeqCst);
    }

    /// Whether others may want the worker that asks. Where that is only seen by a look, one worker
    /// is told so, and the others go on.
    pub(crate) fn wants_worker<R: Clock>(&self, rt: &R) -> bool {
        if self.free_workers.load(Ordering::SeqCst) > 0 {
            return false;
        }
        if self.has_ready() || self.lone_looks.load(Ordering::SeqCst) > 0 {
            return true;
        }
        let now = self.millis(rt);
        let last = self.looked_at.load(Ordering::SeqCst);
        now.saturating_sub(last) >= LOOK_MILLIS
            && self
                .looked_at
                .compare_exchange(last, now, Ordering::SeqCst, Ordering::SeqCst)
                .is_ok()
    }

    /// How long an answer may take now.
    pub(crate) fn patience_millis(&self) -> u64 {
        if self.free_workers.load(Ordering::SeqCst) == 0 {
            HURRY_MILLIS
        } else {
            PATIENCE_MILLIS
        }
    }
}
