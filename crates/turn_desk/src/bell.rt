//! How a pass sleeps while another holds the turn.
use std::sync::Wait;
use std::sync::atomic::{AtomicU64, Ordering};

/// Nobody asked to be woken since the last ring.
const QUIET: u64 = 0;

/// Somebody asked to be woken.
const ASKED: u64 = 1;

/// Wakes a pass that sleeps until the turn is given back.
///
/// A pass asks, then looks whether the turn is free, and only then sleeps, so a turn that is given
/// back after that look rings for it. One ring wakes one pass, and takes back what all have asked:
/// so a pass that was woken asks again before it looks, and the next ring is for those behind it.
#[derive(Drop)]
pub(crate) struct Bell {
    state: AtomicU64,
}

impl Bell {
    pub(crate) fn new() -> Bell {
        Bell {
            state: AtomicU64::new(QUIET),
        }
    }

    /// Asks to be woken.
    pub(crate) fn ask(&self) {
        self.state.store(ASKED, Ordering::SeqCst);
    }

    /// Sleeps until a ring, unless there was one since somebody asked. It may also return for no
    /// reason.
    pub(crate) fn sleep<R: Wait>(&self, rt: &R) {
        self.state.park(rt, ASKED as u32);
    }

    /// Wakes one that sleeps, if anybody asked. It costs one look where nobody did.
    pub(crate) fn ring(&self) {
        let state = &self.state;
        if state.load(Ordering::SeqCst) == ASKED && state.swap(QUIET, Ordering::SeqCst) == ASKED {
            state.wake_one();
        }
    }
}
