//! A clock with planned readings.
ghost use Rattle.std.specs.Prelude.{◌≡◌, ◌+◌, ◌≤◌, ℕ};
ghost use Rattle.slo_limits.specs.declared.TheConstants.{MAX_MINUTE};
ghost use Rattle.office_outside.specs.Clocks.{reading_at};

use crate::Clock;
use slo_limits::MAX_MINUTE;
use std::marker::Model;

/// Readings in memory. At the end of its list it repeats the last one, and with none it reads 0.
#[derive(Drop)]
pub struct MemoryClock {
    readings: Vec<u32>,
    at: usize,
}

impl Model for MemoryClock {
    ghost use Rattle.std.specs.Prelude.{ℕ, List, ◌≤◌, length, drop};

    ghost Value = { List ℕ };

    ghost view = { λ c. drop c.at c.readings.items };

    ghost invariant = { λ c. c.at ≤ length c.readings.items };
}

impl MemoryClock {
    /// A clock with these readings; one above the greatest minute is read as that.
    pub fn new(readings: Vec<u32>) -> MemoryClock
        ensures { result ≡ readings.items }
    {
        MemoryClock { readings, at: 0 }
    }

    /// The first reading to come.
    fn first(&self) -> u32
        ensures first { result ≡ reading_at self.now 0 }
        ensures few { result ≤ MAX_MINUTE }
    {
        match self.readings.get(self.at) {
            Some(reading) => (*reading).min(MAX_MINUTE),
            None => 0,
        }
    }
}

impl Clock for MemoryClock {
    ghost use Rattle.std.specs.Prelude.{Some};

    ghost to_come = { λ c k. Some (reading_at c k) };

    fn minute(&mut self) -> u32
        ensures few { result ≤ MAX_MINUTE }
        ensures first { result ≡ reading_at self.old 0 }
        ensures rest { (k : ℕ) → reading_at self.new k ≡ reading_at self.old (k + 1) }
    {
        let reading = self.first();
        if self.readings.len() - self.at > 1 {
            self.at += 1;
        }
        reading
    }
}
