//! The starts of calendar windows.
ghost use Rattle.std.specs.Prelude.{◌≡◌, ◌↔◌, ◌+◌, ◌*◌, ◌<◌, ◌≤◌, ◌^◌, ℕ, pos, ◌+ℤ◌, ◌≤ℤ◌, IsTrue};
ghost use Rattle.std.specs.Prelude.{IfOk, IfErr, IfSome, IfNone, Err, true, false, map, vec_len};
ghost use Rattle.std.specs.Prelude.{IsPermutation};
ghost use Rattle.std.specs.List.Sorted.{IsNonDecreasing};
ghost use Rattle.std.specs.List.{range_with_len};
ghost use Rattle.jiff_core.specs.Date.{epoch_day};
ghost use Rattle.slo_limits.specs.declared.TheConstants.{MAX_STARTS};
ghost use Rattle.zone_calendar.specs.Starts.{IsCalendarStep, AreStarts, AreTooMany, day_of};
ghost use Rattle.zone_calendar.specs.Starts.{month_of, clamped_day, date_after, is_counted};
ghost use Rattle.zone_calendar.specs.Starts.{start_at};
ghost use Rattle.zone_calendar.specs.Moments.{IsMomentOf};

use crate::{Civil, Zone};
use jiff_core::civil::{Date, DateTime, Time};
use jiff_span::date::add_months;
use slo_duration::{Duration, Unit, rolling_minutes};
use slo_limits::{MAX_STARTS, MAX_WINDOW};
use std::alloc::Global;

/// More months than the library's years have after a first moment.
const MOST_MONTHS: u32 = 480_000;

/// The minutes past the horizon up to which civil moments count: 26 hours, further than any zone is
/// from UTC.
const MARGIN_MINUTES: u32 = 1_560;

/// Why there is no list of starts.
#[derive(Clone, Copy, Debug, PartialEq, Eq)]
pub enum StartsFault {
    /// More than 40,000 starts count.
    TooManyStarts,
    /// Memory ran out.
    NoMemory,
}

/// The starts of the windows that begin at a first moment and follow each other by a duration, in
/// minutes since 1970-01-01T00:00Z: all whose civil moment, read as UTC, is below the horizon plus
/// 1,560 minutes, in order.
///
/// # Errors
///
/// `TooManyStarts` exactly where more than 40,000 count, which takes no memory; else `NoMemory` may
/// come.
pub fn starts(
    alloc: Global,
    zone: &Zone,
    first: &Civil,
    step: Duration,
    horizon: u32,
) -> Result<Vec<u32>, StartsFault>
    requires step { IsCalendarStep step }
    requires horizon { horizon < 2 ^ 27 }
    ensures ok { IfOk result (λ list. AreStarts zone.now first.now step horizon list.items) }
    ensures few { IfOk result (λ list. vec_len list ≤ MAX_STARTS) }
    ensures many { (result ≡ Err StartsFault.TooManyStarts) ↔ AreTooMany first.now step horizon }
{
    if has_too_many_starts(first, step, horizon) {
        return Err(StartsFault::TooManyStarts);
    }
    let count = count_starts(first, step, horizon, MAX_STARTS);
    starts_from(alloc, zone, first, step, horizon, count)
}

/// Whether calendar windows may follow each other by a duration: by days, weeks, months, quarters
/// or years, not zero, and by at most 366 days where a month counts 30, a quarter 90 and a year
/// 365.
pub fn is_calendar_step(step: Duration) -> bool
    ensures { IsTrue result ↔ IsCalendarStep step }
{
    match step.unit {
        Unit::Minute | Unit::Hour => false,
        Unit::Day | Unit::Week | Unit::Month | Unit::Quarter | Unit::Year => {
            step.count > 0 && rolling_minutes(step) <= MAX_WINDOW
        }
    }
}

/// Whether more than 40,000 starts count, so that there is no list of them. It takes no memory, and
/// looks at one start: dates rise with the number of the start.
#[tactic(auto, using(crate::proofs::StartLemmas::all_counted))]
pub fn has_too_many_starts(first: &Civil, step: Duration, horizon: u32) -> bool
    requires step { IsCalendarStep step }
    requires horizon { horizon < 2 ^ 27 }
    ensures all { IsTrue result ↔ AreTooMany first.now step horizon }
    ensures last { result ≡ is_counted first.now step horizon MAX_STARTS }
{
    counts(first, step, horizon, MAX_STARTS)
}

/// How many starts count, by a binary search, where at most so many do.
#[tactic(auto, using(crate::proofs::StartLemmas::counted_up_to))]
pub(crate) fn count_starts(first: &Civil, step: Duration, horizon: u32, most: u32) -> u32
    requires step { IsCalendarStep step }
    requires horizon { horizon < 2 ^ 27 }
    requires number { most ≤ 100_000 }
    requires few { is_counted first.now step horizon most ≡ false }
    ensures within { result ≤ most }
    ensures below { (k : ℕ) → k < result → is_counted first.now step horizon k ≡ true }
    ensures end { is_counted first.now step horizon result ≡ false }
{
    let mut low = 0;
    let mut high = most;
    while low < high {
        let middle = low + (high - low) / 2;
        if counts(first, step, horizon, middle) {
            low = middle + 1;
        } else {
            high = middle;
        }
    }
    low
}

fn starts_from(
    alloc: Global,
    zone: &Zone,
    first: &Civil,
    step: Duration,
    horizon: u32,
    count: u32,
) -> Result<Vec<u32>, StartsFault>
    requires step { IsCalendarStep step }
    requires horizon { horizon < 2 ^ 27 }
    requires few { count ≤ MAX_STARTS }
    requires below { (k : ℕ) → k < count → is_counted first.now step horizon k ≡ true }
    requires end { is_counted first.now step horizon count ≡ false }
    ensures ok { IfOk result (λ list. AreStarts zone.now first.now step horizon list.items) }
    ensures few { IfOk result (λ list. vec_len list ≤ MAX_STARTS) }
    ensures fault { IfErr result (λ fault. fault ≡ StartsFault.NoMemory) }
{
    let Ok(mut list) = Vec::with_capacity(alloc, count as usize) else {
        return Err(StartsFault::NoMemory);
    };
    for k in 0..count {
        let Ok(()) = list.push(start(zone, first, step, horizon, k)) else {
            return Err(StartsFault::NoMemory);
        };
    }
    list.sort_unstable();
    Ok(list)
}

/// Whether the start number `k` counts.
fn counts(first: &Civil, step: Duration, horizon: u32, k: u32) -> bool
    requires step { IsCalendarStep step }
    requires horizon { horizon < 2 ^ 27 }
    requires number { k ≤ 100_000 }
    ensures { result ≡ is_counted first.now step horizon k }
{
    let end = (i64::from(horizon) + i64::from(MARGIN_MINUTES)) * 60;
    match moment_after(first, step, k) {
        Some(moment) => moment.to_second() < end,
        None => false,
    }
}

/// The minute of the start number `k`, which counts.
pub(crate) fn start(zone: &Zone, first: &Civil, step: Duration, horizon: u32, k: u32) -> u32
    requires step { IsCalendarStep step }
    requires horizon { horizon < 2 ^ 27 }
    requires number { k ≤ 100_000 }
    requires counted { is_counted first.now step horizon k ≡ true }
    ensures { result ≡ start_at zone.now first.now step k }
{
    let moment = moment_after(first, step, k).unwrap();
    zone.instant(moment).div_euclid(60) as u32
}

/// The civil moment of the start number `k`, or `None` past the library's last year.
fn moment_after(first: &Civil, step: Duration, k: u32) -> Option<DateTime>
    requires step { IsCalendarStep step }
    requires number { k ≤ 100_000 }
    ensures some { IfSome result (IsMomentOf first.now step k) }
    ensures none { IfNone result (pos 100_000 ≤ℤ date_after first.now step.unit (k * step.count)) }
{
    let date = date_after(first, step, k)?;
    let time = Time {
        hour: first.hour,
        minute: first.minute,
        second: first.second,
        subsec_nanosecond: 0,
    };
    Some(DateTime { date, time })
}

/// The date of the start number `k`, in one step of civil arithmetic.
fn date_after(first: &Civil, step: Duration, k: u32) -> Option<Date>
    requires step { IsCalendarStep step }
    requires number { k ≤ 100_000 }
    ensures some { IfSome result (λ date. epoch_day date
        ≡ date_after first.now step.unit (k * step.count)) }
    ensures none { IfNone result (pos 100_000 ≤ℤ date_after first.now step.unit (k * step.count)) }
{
    match step.unit {
        Unit::Day => days_after(first, k * step.count),
        Unit::Week => days_after(first, 7 * (k * step.count)),
        Unit::Month => months_after(first, k * step.count),
        Unit::Quarter => months_after(first, 3 * (k * step.count)),
        Unit::Year => months_after(first, 12 * (k * step.count)),
        Unit::Minute | Unit::Hour => unreachable!(),
    }
}

fn days_after(first: &Civil, count: u32) -> Option<Date>
    ensures some { IfSome result (λ date. epoch_day date ≡ day_of first.now +ℤ pos count) }
    ensures none { IfNone result (pos 100_000 ≤ℤ (day_of first.now +ℤ pos count)) }
{
    let day = i64::from(date_of(first).to_unix_epoch_day()) + i64::from(count);
    Date::from_unix_epoch_day(day).ok()
}

/// The same day so many months later, or the month's last day.
fn months_after(first: &Civil, count: u32) -> Option<Date>
    ensures some { IfSome result (λ date. epoch_day date
        ≡ clamped_day (month_of first.now +ℤ pos count) first.now.day) }
    ensures none { IfNone result (pos 100_000 ≤ℤ clamped_day (month_of first.now +ℤ pos count)
        first.now.day) }
{
    if count > MOST_MONTHS {
        return None;
    }
    add_months(date_of(first), count as i32).ok()
}

fn date_of(first: &Civil) -> Date
    ensures year { result.year ≡ first.now.year }
    ensures month { result.month ≡ first.now.month }
    ensures day { result.day ≡ first.now.day }
{
    Date {
        year: first.year,
        month: first.month,
        day: first.day,
    }
}
