//! The window that holds a minute.
ghost use Rattle.std.specs.Prelude.{◌≡◌, ◌↔◌, ◌<◌, ◌≤◌, ◌-◌, ◌^◌, ℕ, length, true, None, IfSome};
ghost use Rattle.std.specs.Prelude.{EachIndex, slice_index, nat_le};
ghost use Rattle.std.specs.List.Sorted.{IsNonDecreasing};
ghost use Rattle.zone_calendar.specs.Starts.{IsCalendarStep, is_counted, start_at};
ghost use Rattle.zone_calendar.specs.Window.{IsWindow, IsLastAmong, IsLastStart};

use crate::calendar::{count_starts, start};
use crate::{Civil, Zone, laws};
use slo_duration::Duration;

/// The starts that are looked at: those of the last numbers that may have begun. A zone moves a
/// start by less than 26 hours to either side, and from one start to the next there is a day or
/// more. So the last three may be after the minute, the one before them isn't, and of those before
/// it two at most can be later than it.
const LOOKED_AT: u32 = 6;

/// More days than lie below any horizon of 27 bits, so more than the starts that count there.
const MOST_DAYS: u32 = 100_000;

/// The start of the window that holds the minute, and where the next window starts: the greatest
/// start at or before the minute, and the least start after that one, if there is one. It takes no
/// memory, and a number of steps that grows with the logarithm of the number of starts.
///
/// `None` where no start is at or before the minute.
pub fn window_at(starts: &[u32], minute: u32) -> Option<(u32, Option<u32>)>
    requires { IsNonDecreasing starts.now }
    ensures none { (result ≡ None) ↔ EachIndex starts.now (λ k. minute < slice_index starts.now k) }
    ensures some { IfSome result (IsWindow starts.now minute) }
{
    let begun = begun_by(starts, minute);
    if begun == 0 {
        return None;
    }
    Some((starts[begun - 1], starts.get(begun).copied()))
}

/// How many starts are at or before the minute.
fn begun_by(starts: &[u32], minute: u32) -> usize
    requires { IsNonDecreasing starts.now }
    ensures within { result ≤ length starts.now }
    ensures before { (k : ℕ) → k < result → slice_index starts.now k ≤ minute }
    ensures after { (k : ℕ) → result ≤ k → k < length starts.now
        → minute < slice_index starts.now k }
{
    starts.partition_point(
        |start: &u32| -> bool
            ensures { result ≡ nat_le start.now minute }
        { *start <= minute },
    )
}

/// Where the calendar window that holds a minute starts: at the greatest start at or before the
/// minute, of those that count below the horizon. `None` where none is at or before it.
///
/// It takes no memory: the number of the starts that may have begun is found by a binary search, in
/// 17 dates, and then six starts at most are read in the zone.
#[tactic(auto, using(crate::proofs::StartLemmas::few))]
pub fn last_start(
    zone: &Zone,
    first: &Civil,
    step: Duration,
    horizon: u32,
    minute: u32,
) -> Option<u32>
    requires step { IsCalendarStep step }
    requires horizon { horizon < 2 ^ 27 }
    ensures { IsLastStart zone.now first.now step horizon minute result }
{
    laws::a_clock_is_less_than_26_hours_from_utc(zone);
    let end = horizon.min(minute.saturating_add(1));
    let count = count_starts(first, step, end, MOST_DAYS);
    last_among(zone, first, step, end, count, minute)
}

/// The greatest start at or before a minute among those of the last numbers below a count.
fn last_among(
    zone: &Zone,
    first: &Civil,
    step: Duration,
    horizon: u32,
    count: u32,
    minute: u32,
) -> Option<u32>
    requires step { IsCalendarStep step }
    requires horizon { horizon < 2 ^ 27 }
    requires few { count ≤ 100_000 }
    requires counted { (k : ℕ) → k < count → is_counted first.now step horizon k ≡ true }
    ensures { IsLastAmong zone.now first.now step (count - 6) count minute result }
{
    let mut last = None;
    for k in count.saturating_sub(LOOKED_AT)..count {
        let start = start(zone, first, step, horizon, k);
        if start <= minute {
            last = Some(start.max(last.unwrap_or(0)));
        }
    }
    last
}
