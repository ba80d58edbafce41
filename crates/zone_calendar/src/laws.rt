//! Laws of calendars.
ghost use Rattle.std.specs.Prelude.{◌≡◌, ◌↔◌, ◌≤◌, ℕ, ℤ, ◌-ℤ◌, false, List, Option};
ghost use Rattle.jiff_core.specs.Calendar.{IsWithin};
ghost use Rattle.slo_duration.specs.declared.duration.Duration.{Duration};
ghost use Rattle.zone_calendar.specs.Starts.{AreStarts, civil_second, is_counted, start_at};
ghost use Rattle.zone_calendar.specs.Window.{IsLastOf, IsLastStart};
ghost use Rattle.zone_calendar.specs.Zone.{ZoneText, instant_at};
ghost use Rattle.zone_calendar.specs.declared.civil.Civil.{Civil};

use crate::Zone;

/// One list alone holds the starts: they are a function of what the zone's text says, the first
/// moment, the step and the horizon.
pub fn starts_are_one_list()
    ensures { (zone : ZoneText) (first : Civil) (step : Duration) (horizon : ℕ)
        (list other : List ℕ) → AreStarts zone first step horizon list
        → AreStarts zone first step horizon other → list ≡ other }
{}

/// A start that doesn't count lies at the horizon or after it, wherever the zone's clock is less
/// than 26 hours from UTC, as the clock of each zone that is read is at each moment. So no start
/// below the horizon is left out.
pub fn an_uncounted_start_is_at_the_horizon_or_after()
    ensures { (zone : ZoneText) (first : Civil) (step : Duration) (horizon k : ℕ)
        → IsWithin 93_599
        (instant_at zone (civil_second first step k) -ℤ civil_second first step k)
        → is_counted first step horizon k ≡ false → horizon ≤ start_at zone first step k }
{}

/// The clock of a zone that is read is less than 26 hours from UTC at each moment.
pub fn a_clock_is_less_than_26_hours_from_utc(zone: &Zone)
    ensures { (second : ℤ) → IsWithin 93_599 (instant_at zone.now second -ℤ second) }
{
    zone.is_near_utc();
}

/// A minute has one last start: it is a function of what the zone's text says, the first moment,
/// the step and the horizon.
pub fn a_minute_has_one_last_start()
    ensures { (zone : ZoneText) (first : Civil) (step : Duration) (horizon minute : ℕ)
        (start other : Option ℕ) → IsLastStart zone first step horizon minute start
        → IsLastStart zone first step horizon minute other → start ≡ other }
{}

/// Where the starts are a list, the last start at a minute is the greatest of the list at or before
/// it, and there is none where all of the list are after it.
pub fn the_last_start_is_that_of_the_list()
    ensures { (zone : ZoneText) (first : Civil) (step : Duration) (horizon minute : ℕ)
        (list : List ℕ) (start : Option ℕ) → AreStarts zone first step horizon list
        → IsLastStart zone first step horizon minute start ↔ IsLastOf list minute start }
{}
