//! Where the window over which a budget is counted begins.
ghost use Rattle.std.specs.Prelude.{◌≡◌, ◌<◌, ◌^◌, IfSome, Some};
ghost use Rattle.std.specs.Str.{bytes_eq};
ghost use Rattle.zone_calendar.specs.Starts.{IsCalendarStep};
ghost use Rattle.office_history.specs.Windows.{BeginsIn, WindowBegins};
ghost use Rattle.office_history.specs.Zones.{utc, zone_named};

use exact_fraction::ZoneName;
use object_terms::{Calendar, TimeWindow};
use office_derived::Zones;
use slo_duration::{Duration, rolling_minutes};
use zone_calendar::{Zone, last_start};

/// Whether a name is that of the zone that is always there.
pub(crate) fn is_utc(name: ZoneName) -> bool
    ensures { result ≡ bytes_eq name utc }
{
    name.as_bytes() == b"UTC".as_slice()
}

/// The last start of a calendar in a zone.
fn start_in_zone(
    zone: &Zone,
    calendar: &Calendar,
    step: Duration,
    horizon: u32,
    minute: u32,
) -> Option<u32>
    requires step { IsCalendarStep step }
    requires horizon { horizon < 2 ^ 27 }
    ensures { BeginsIn (Some zone.now) calendar.now step horizon minute result }
{
    last_start(zone, &calendar.start_time, step, horizon, minute)
}

/// The last start of a calendar: none where there is no zone of its name.
fn calendar_start(
    zones: &Zones,
    calendar: &Calendar,
    step: Duration,
    horizon: u32,
    minute: u32,
) -> Option<u32>
    requires step { IsCalendarStep step }
    requires horizon { horizon < 2 ^ 27 }
    ensures { BeginsIn (zone_named zones.now.kept calendar.now.time_zone) calendar.now step horizon
        minute result }
{
    if is_utc(calendar.time_zone) {
        return start_in_zone(&Zone::utc(), calendar, step, horizon, minute);
    }
    let zone = zones.zone_of(calendar.time_zone)?;
    start_in_zone(zone, calendar, step, horizon, minute)
}

/// Where the window at a minute begins, none where no window of its calendar has begun.
pub(crate) fn window_start(
    zones: &Zones,
    window: &TimeWindow,
    horizon: u32,
    minute: u32,
) -> Option<u32>
    requires step { IfSome window.now.calendar (λ _. IsCalendarStep window.now.duration.span) }
    requires horizon { horizon < 2 ^ 27 }
    ensures { WindowBegins zones.now.kept window.now horizon minute result }
{
    match &window.calendar {
        Some(calendar) => calendar_start(zones, calendar, window.duration.span, horizon, minute),
        None => Some(minute.saturating_sub(rolling_minutes(window.duration.span))),
    }
}
