//! Slices that lie wholly in the range of an exclusion, looked up in the sums.
ghost use Rattle.std.specs.Prelude.{◌≡◌, ◌≢◌, ◌*◌, ◌<◌, ◌≤◌, ℕ};
ghost use Rattle.burn_core.specs.Alert.{IsRule, reach_of};
ghost use Rattle.window_sums.specs.Slices.{no_counts, slices_a_day};
ghost use Rattle.line_forgetting.specs.Touched.{IsCountedIn, IsCountedOn, IsRunIf, IsThatOne};
ghost use Rattle.line_forgetting.specs.Touched.{LAST_MINUTE, TouchesEach};

use crate::run::{SliceRun, touch};
use alert_line::AlertLine;
use burn_core::AlertRule;
use kept_sums::NO_COUNTS;
use slice_method::Counts;
use window_sums::WindowSums;

/// The run that waits once a slice is passed, which is touched where it has counts.
fn touch_counted(
    line: &mut AlertLine,
    rule: &AlertRule,
    width: u32,
    waiting: Option<SliceRun>,
    slice: u32,
    counts: Counts,
) -> Option<SliceRun>
    requires rule { line.old.rule ≡ rule.now }
    requires ranges { IsRule rule.now }
    requires some { 0 < width }
    requires small { width ≤ 60 }
    requires early { counts ≢ no_counts → slice * width ≤ LAST_MINUTE }
    requires run { IsRunIf width (reach_of rule.now) waiting }
    ensures { TouchesEach (IsThatOne slice counts) width (reach_of rule.now) waiting result line.old
        line.new }
{
    if counts != NO_COUNTS {
        return Some(touch(line, rule, width, waiting, slice));
    }
    waiting
}

/// The run that waits once those slices of a day are passed that lie from the first up to the end.
fn forget_on_day(
    line: &mut AlertLine,
    rule: &AlertRule,
    width: u32,
    sums: &WindowSums,
    waiting: Option<SliceRun>,
    day: u32,
    first: u32,
    end: u32,
) -> Option<SliceRun>
    requires rule { line.old.rule ≡ rule.now }
    requires ranges { IsRule rule.now }
    requires some { 0 < width }
    requires small { width ≤ 60 }
    requires early { (slice : ℕ) → IsCountedIn sums.now first end slice
        → slice * width ≤ LAST_MINUTE }
    requires day { day * slices_a_day sums.now.method < end }
    requires run { IsRunIf width (reach_of rule.now) waiting }
    ensures { TouchesEach (IsCountedOn sums.now first end day) width (reach_of rule.now) waiting
        result line.old line.new }
{
    if !sums.has_day(day) {
        return waiting;
    }
    let slices = sums.slices_a_day();
    let start = day * slices;
    let begin = first.saturating_sub(start);
    let until = slices.min(end - start);
    let mut run = waiting;
    for place in begin..until {
        let slice = start + place;
        run = touch_counted(line, rule, width, run, slice, sums.counts_at(slice));
    }
    run
}

/// The run that waits once the slices from the first up to the end are passed: each is touched that
/// has counts.
pub(crate) fn forget_whole(
    line: &mut AlertLine,
    rule: &AlertRule,
    width: u32,
    sums: &WindowSums,
    waiting: Option<SliceRun>,
    first: u32,
    end: u32,
) -> Option<SliceRun>
    requires rule { line.old.rule ≡ rule.now }
    requires ranges { IsRule rule.now }
    requires some { 0 < width }
    requires small { width ≤ 60 }
    requires early { (slice : ℕ) → IsCountedIn sums.now first end slice
        → slice * width ≤ LAST_MINUTE }
    requires run { IsRunIf width (reach_of rule.now) waiting }
    ensures { TouchesEach (IsCountedIn sums.now first end) width (reach_of rule.now) waiting result
        line.old line.new }
{
    let slices = sums.slices_a_day();
    let mut run = waiting;
    for day in first / slices..end.div_ceil(slices) {
        run = forget_on_day(line, rule, width, sums, run, day, first, end);
    }
    run
}
