//! Runs of neighbouring slices, near which a line forgets at once.
ghost use Rattle.std.specs.Prelude.{◌≡◌, ◌<◌, ◌≤◌, ◌*◌, ◌⊎◌, ℕ, IfSome};
ghost use Rattle.burn_core.specs.Alert.{IsRule, reach_of};
ghost use Rattle.line_forgetting.specs.Touched.{Forgets, ForgetsOnly, IsClear, IsInIf, IsInRun};
ghost use Rattle.line_forgetting.specs.Touched.{IsRun, IsRunIf, LAST_MINUTE};

use alert_line::AlertLine;
use burn_core::AlertRule;

/// The slices from the first to the last.
#[derive(Clone, Copy)]
pub(crate) struct SliceRun {
    pub(crate) first: u32,
    pub(crate) last: u32,
}

/// Forgets what is near the slices of a run.
pub(crate) fn forget_run(line: &mut AlertLine, rule: &AlertRule, width: u32, run: SliceRun)
    requires rule { line.old.rule ≡ rule.now }
    requires ranges { IsRule rule.now }
    requires some { 0 < width }
    requires small { width ≤ 60 }
    requires run { IsRun width (reach_of rule.now) run }
    ensures { Forgets (IsInRun run.first run.last) width line.old line.new }
{
    line.mark(
        run.first * width + width,
        run.last * width + rule.reach() + 1,
    );
}

/// Forgets what is near the slices of the run that waits, if one does.
pub(crate) fn forget_waiting(
    line: &mut AlertLine,
    rule: &AlertRule,
    width: u32,
    run: Option<SliceRun>,
)
    requires rule { line.old.rule ≡ rule.now }
    requires ranges { IsRule rule.now }
    requires some { 0 < width }
    requires small { width ≤ 60 }
    requires run { IsRunIf width (reach_of rule.now) run }
    ensures { Forgets (IsInIf run) width line.old line.new }
{
    match run {
        Some(run) => forget_run(line, rule, width, run),
        None => {}
    }
}

/// A run with one slice more, where that is in it or beside it, and no gap comes of it.
fn joined(run: Option<SliceRun>, rule: &AlertRule, width: u32, slice: u32) -> Option<SliceRun>
    requires small { width ≤ 60 }
    requires ranges { IsRule rule.now }
    requires early { slice * width ≤ LAST_MINUTE }
    requires run { IsRunIf width (reach_of rule.now) run }
    requires some { 0 < width }
    ensures run { IsRunIf width (reach_of rule.now) result }
    ensures has { IfSome result (λ more. IsInRun more.first more.last slice) }
    ensures own { (other : ℕ) → IsInIf result other → IsInIf run other ⊎ (other ≡ slice) }
    ensures all { IfSome result (λ more. (other : ℕ) → IsInIf run other
        → IsInRun more.first more.last other) }
{
    let run = run?;
    if run.first <= slice && slice <= run.last {
        return Some(run);
    }
    if rule.reach() + 1 < 2 * width {
        return None;
    }
    if slice == run.last + 1 {
        return Some(SliceRun {
            first: run.first,
            last: slice,
        });
    }
    if slice + 1 == run.first {
        return Some(SliceRun {
            first: slice,
            last: run.last,
        });
    }
    None
}

/// The run that waits once a slice more is touched. Where the slice doesn't join the one that
/// waited, what is near that one is forgotten.
pub(crate) fn touch(
    line: &mut AlertLine,
    rule: &AlertRule,
    width: u32,
    waiting: Option<SliceRun>,
    slice: u32,
) -> SliceRun
    requires rule { line.old.rule ≡ rule.now }
    requires ranges { IsRule rule.now }
    requires some { 0 < width }
    requires small { width ≤ 60 }
    requires early { slice * width ≤ LAST_MINUTE }
    requires run { IsRunIf width (reach_of rule.now) waiting }
    ensures run { IsRun width (reach_of rule.now) result }
    ensures has { IsInRun result.first result.last slice }
    ensures own { (other : ℕ) → IsInRun result.first result.last other
        → IsInIf waiting other ⊎ (other ≡ slice) }
    ensures all { (other : ℕ) → IsInIf waiting other
        → IsInRun result.first result.last other ⊎ IsClear line.new width other }
    ensures only { ForgetsOnly (IsInIf waiting) width line.old line.new }
{
    if let Some(run) = joined(waiting, rule, width, slice) {
        return run;
    }
    forget_waiting(line, rule, width, waiting);
    SliceRun {
        first: slice,
        last: slice,
    }
}
