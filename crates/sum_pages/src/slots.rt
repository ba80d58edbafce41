//! How hours and days are cut into slots.
ghost use Rattle.std.specs.Prelude.{◌≡◌, ◌*◌, ◌/◌, ◌%◌};
ghost use Rattle.std.specs.Int.{◌∣◌};

use crate::page::HOURS_A_DAY;
use slo_limits::MINUTES_A_DAY;
use std::marker::Model;

/// The minutes of an hour.
const MINUTES_AN_HOUR: u32 = 60;

/// Slots that make an hour, seen as their number, and how many minutes each of them is long.
#[derive(Drop)]
pub(crate) struct HourSlots {
    count: u32,
    minutes: u32,
}

impl Model for HourSlots {
    ghost use Rattle.std.specs.Prelude.{ℕ, ◌≡◌, ◌*◌};

    ghost Value = { ℕ };

    ghost view = { λ a. a.count };

    ghost invariant = { λ a. a.count * a.minutes ≡ 60 };
}

impl HourSlots {
    /// So many slots, equally long.
    pub(crate) fn new(count: u32) -> HourSlots
        requires { count ∣ 60 }
        ensures { result ≡ count }
    {
        HourSlots {
            count,
            minutes: MINUTES_AN_HOUR / count,
        }
    }

    /// The same once more.
    pub(crate) fn copy(&self) -> HourSlots
        ensures { result ≡ self.now }
    {
        HourSlots {
            count: self.count,
            minutes: self.minutes,
        }
    }

    /// How many slots make an hour.
    pub(crate) fn count(&self) -> u32
        ensures { result ≡ self.now }
    {
        self.count
    }

    /// The day of a slot, and the slot's place there. The minute at which a slot begins tells its
    /// day: a day's minutes are known when the program is made, a day's slots aren't, and a
    /// division by them would be most of a read's time.
    pub(crate) fn place_of(&self, slot: u32) -> (u32, u32)
        ensures day { result.0 ≡ slot / (24 * self.now) }
        ensures place { result.1 ≡ slot % (24 * self.now) }
    {
        let minute = u64::from(slot) * u64::from(self.minutes);
        let day = (minute / u64::from(MINUTES_A_DAY)) as u32;
        (day, slot - day * (HOURS_A_DAY * self.count))
    }
}
