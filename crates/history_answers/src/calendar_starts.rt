//! The starts of a calendar's windows in a stretch of minutes, and the first one behind it.
ghost use Rattle.std.specs.Prelude.{◌≡◌, ◌<◌, ◌≤◌, ◌^◌, IfOk, Some};
ghost use Rattle.zone_calendar.specs.Starts.{IsCalendarStep};
ghost use Rattle.office_history.specs.Windows.{AreStartsIn, IsFirstFrom, IsStartIn};
ghost use Rattle.history_answers.specs.Starts.{IsLastFrom};

use object_terms::Calendar;
use slo_duration::Duration;
use std::alloc::{AllocError, Global};
use zone_calendar::{Zone, last_start, laws};

/// The last start from a minute to another, if there is one.
fn last_from(
    zone: &Zone,
    calendar: &Calendar,
    step: Duration,
    horizon: u32,
    from: u32,
    at: u32,
) -> Option<u32>
    requires step { IsCalendarStep step }
    requires horizon { horizon < 2 ^ 27 }
    ensures { IsLastFrom (IsStartIn (Some zone.now) calendar.now step horizon) from at result }
{
    match last_start(zone, &calendar.start_time, step, horizon, at) {
        Some(start) => { if start < from { None } else { Some(start) } }
        None => None,
    }
}

/// The starts in [from, to), each once, in order. They are looked for from the last one on.
pub(crate) fn starts_in(
    alloc: Global,
    zone: &Zone,
    calendar: &Calendar,
    step: Duration,
    horizon: u32,
    from: u32,
    to: u32,
) -> Result<Vec<u32>, AllocError>
    requires step { IsCalendarStep step }
    requires horizon { horizon < 2 ^ 27 }
    requires order { from ≤ to }
    ensures { IfOk result (λ starts. AreStartsIn
        (IsStartIn (Some zone.now) calendar.now step horizon) from to starts.items) }
{
    let mut starts = Vec::new(alloc);
    let mut end = to;
    'starts: while from < end {
        match last_from(zone, calendar, step, horizon, from, end - 1) {
            Some(start) => {
                starts.push(start)?;
                end = start;
            }
            None => end = from,
        }
    }
    starts.reverse();
    Ok(starts)
}

/// The first start from a minute on, where there is one: it is looked for between the minute and
/// that start, by halves.
fn first_up_to(
    zone: &Zone,
    calendar: &Calendar,
    step: Duration,
    horizon: u32,
    from: u32,
    start: u32,
) -> u32
    requires step { IsCalendarStep step }
    requires horizon { horizon < 2 ^ 27 }
    requires start { IsStartIn (Some zone.now) calendar.now step horizon start }
    requires later { from ≤ start }
    ensures { IsFirstFrom (IsStartIn (Some zone.now) calendar.now step horizon) from
        (Some result) }
{
    let mut low = from;
    let mut first = start;
    'halves: while low < first {
        let middle = low + (first - low) / 2;
        match last_from(zone, calendar, step, horizon, from, middle) {
            Some(found) => first = found,
            None => low = middle + 1,
        }
    }
    first
}

/// The first start from a minute on, if there is one.
pub(crate) fn first_start(
    zone: &Zone,
    calendar: &Calendar,
    step: Duration,
    horizon: u32,
    from: u32,
) -> Option<u32>
    requires step { IsCalendarStep step }
    requires horizon { horizon < 2 ^ 27 }
    ensures { IsFirstFrom (IsStartIn (Some zone.now) calendar.now step horizon) from result }
{
    laws::a_clock_is_less_than_26_hours_from_utc(zone);
    match last_from(zone, calendar, step, horizon, from, u32::MAX) {
        Some(last) => Some(first_up_to(zone, calendar, step, horizon, from, last)),
        None => None,
    }
}
