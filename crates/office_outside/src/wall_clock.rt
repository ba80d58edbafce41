//! The machine's clock. It tells nothing of its readings to come.
ghost use Rattle.std.specs.Prelude.{◌≡◌, ◌+◌, ◌≤◌, None, ℕ};

use crate::Clock;
use slo_limits::MAX_MINUTE;
use std::time;
use std::time::{SystemTime, UNIX_EPOCH};

/// The machine's clock. Where the machine gives no time, or one before 1970, it repeats its last
/// reading, at first 0; past the greatest minute it reads that.
#[derive(Drop)]
pub struct WallClock<R: time::Clock + Drop> {
    rt: R,
    last: u64,
}

impl<R: time::Clock + Drop> WallClock<R> {
    /// A clock that hasn't been read.
    pub fn new(rt: R) -> WallClock<R>
        ensures { result.last ≡ 0 }
    {
        WallClock { rt, last: 0 }
    }
}

impl<R: time::Clock + Drop> Clock for WallClock<R> {
    ghost to_come = { λ c k. None };

    fn minute(&mut self) -> u32 {
        if let Ok(now) = SystemTime::now(&self.rt) {
            if let Ok(since) = now.duration_since(UNIX_EPOCH) {
                self.last = since.as_secs() / 60;
            }
        }
        self.last.min(u64::from(MAX_MINUTE)) as u32
    }
}
