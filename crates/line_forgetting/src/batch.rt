//! What a line forgets before the rows of a batch are followed.
ghost use Rattle.std.specs.Prelude.{◌≡◌, ◌<◌, ◌≤◌, ◌/◌, ◌⊎◌, IfSome};
ghost use Rattle.std.specs.List.{AllByRecursion};
ghost use Rattle.sample_book.specs.declared.Row.{Row};
ghost use Rattle.sample_book.specs.Puts.{verdicts as verdicts_def};
ghost use Rattle.burn_core.specs.Alert.{IsRule, reach_of};
ghost use Rattle.window_sums.specs.Slices.{width_of};
ghost use Rattle.kept_sums.specs.Replacing.{HasMoved};
ghost use Rattle.line_forgetting.specs.Moves.{AreFilled, AreTold, IsMovedMinute, IsToldOf};
ghost use Rattle.line_forgetting.specs.Touched.{Forgets, IsMinuteOfRow, IsRunIf, LAST_MINUTE};

use crate::moves::{IndicatorMoves, MovedMinutes, moves_of};
use crate::run::{SliceRun, forget_run, forget_waiting, touch};
use alert_line::AlertLine;
use burn_core::AlertRule;
use kept_sums::changes_counts;
use office_history::Measure;
use sample_book::{Row, RowVerdict, SampleBook};

/// The earliest minute of the rows of a batch, and the last number where there is no row.
pub fn earliest_minute(rows: &[Row]) -> u32
    ensures bound { AllByRecursion (λ (row : Row). result ≤ row.minute) rows.now }
    ensures own { (result ≡ 4294967295) ⊎ IsMinuteOfRow rows.now result }
{
    let mut earliest = u32::MAX;
    for row in rows {
        earliest = earliest.min(row.minute);
    }
    earliest
}

/// A line forgets what is near the slices of the rows that move, row by row. Marks are merged: what
/// is near neighbouring slices is forgotten at once.
fn forget_near_rows(
    line: &mut AlertLine,
    rule: &AlertRule,
    measure: &Measure,
    width: u32,
    book: &SampleBook,
    rows: &[Row],
    verdicts: &[RowVerdict],
)
    requires rule { line.old.rule ≡ rule.now }
    requires ranges { IsRule rule.now }
    requires width { width ≡ width_of measure.now.method }
    requires some { 0 < width }
    requires small { width ≤ 60 }
    requires early { AllByRecursion (λ (row : Row). row.minute ≤ LAST_MINUTE) rows.now }
    requires verdicts { verdicts.now ≡ verdicts_def book.now.rows rows.now }
    ensures { Forgets (HasMoved measure.now rows.now verdicts.now) width line.old line.new }
{
    let mut waiting = None;
    for (place, row) in rows.iter().enumerate() {
        if changes_counts(measure, row, &verdicts[place]) {
            waiting = Some(touch(line, rule, width, waiting, row.minute / width));
        }
    }
    forget_waiting(line, rule, width, waiting);
}

/// The slices in which these minutes lie, where they are a run.
fn slices_of(rule: &AlertRule, width: u32, first: u32, last: u32) -> Option<SliceRun>
    requires ranges { IsRule rule.now }
    requires some { 0 < width }
    requires small { width ≤ 60 }
    requires order { first ≤ last }
    requires early { last ≤ LAST_MINUTE }
    ensures run { IsRunIf width (reach_of rule.now) result }
    ensures bounds { IfSome result (λ run.
        (run.first ≡ first / width) × (run.last ≡ last / width)) }
{
    let run = SliceRun {
        first: first / width,
        last: last / width,
    };
    if run.first < run.last && rule.reach() + 1 < 2 * width {
        return None;
    }
    Some(run)
}

/// A line forgets what is near the slices of the rows that move, which fill a stretch of minutes:
/// at once, where these slices are a run.
fn forget_near_stretch(
    line: &mut AlertLine,
    rule: &AlertRule,
    measure: &Measure,
    width: u32,
    first: u32,
    last: u32,
    book: &SampleBook,
    rows: &[Row],
    verdicts: &[RowVerdict],
)
    requires rule { line.old.rule ≡ rule.now }
    requires ranges { IsRule rule.now }
    requires width { width ≡ width_of measure.now.method }
    requires some { 0 < width }
    requires small { width ≤ 60 }
    requires filled { AreFilled (IsMovedMinute measure.now.sli rows.now verdicts.now) first last }
    requires early { AllByRecursion (λ (row : Row). row.minute ≤ LAST_MINUTE) rows.now }
    requires verdicts { verdicts.now ≡ verdicts_def book.now.rows rows.now }
    ensures { Forgets (HasMoved measure.now rows.now verdicts.now) width line.old line.new }
{
    match slices_of(rule, width, first, last) {
        Some(slices) => forget_run(line, rule, width, slices),
        None => forget_near_rows(line, rule, measure, width, book, rows, verdicts),
    }
}

/// A line forgets what is near the slices of the rows that move, of which this is told.
fn forget_near_moves(
    line: &mut AlertLine,
    rule: &AlertRule,
    measure: &Measure,
    width: u32,
    minutes: MovedMinutes,
    book: &SampleBook,
    rows: &[Row],
    verdicts: &[RowVerdict],
)
    requires rule { line.old.rule ≡ rule.now }
    requires ranges { IsRule rule.now }
    requires width { width ≡ width_of measure.now.method }
    requires some { 0 < width }
    requires small { width ≤ 60 }
    requires told { AreTold (IsMovedMinute measure.now.sli rows.now verdicts.now) minutes }
    requires early { AllByRecursion (λ (row : Row). row.minute ≤ LAST_MINUTE) rows.now }
    requires verdicts { verdicts.now ≡ verdicts_def book.now.rows rows.now }
    ensures { Forgets (HasMoved measure.now rows.now verdicts.now) width line.old line.new }
{
    match minutes {
        MovedMinutes::Nothing => {}
        MovedMinutes::Stretch { first, last } => forget_near_stretch(
            line, rule, measure, width, first, last, book, rows, verdicts,
        ),
        MovedMinutes::Scattered => {
            forget_near_rows(line, rule, measure, width, book, rows, verdicts);
        }
    }
}

/// A line of the objective forgets what is near the slices of the rows that move, and nothing else,
/// before its sums follow the batch. The rows aren't looked at where the line knows nothing from
/// the earliest of their minutes on, since what is near a slice lies behind its minutes; nor where
/// it is told already which rows of the indicator move, and at which minutes. Gives what is told
/// then. `width` is that of the objective's slices.
pub fn forget_near_batch(
    line: &mut AlertLine,
    rule: &AlertRule,
    measure: &Measure,
    width: u32,
    earliest: u32,
    told: Option<IndicatorMoves>,
    book: &SampleBook,
    rows: &[Row],
    verdicts: &[RowVerdict],
) -> Option<IndicatorMoves>
    requires rule { line.old.rule ≡ rule.now }
    requires ranges { IsRule rule.now }
    requires width { width ≡ width_of measure.now.method }
    requires some { 0 < width }
    requires small { width ≤ 60 }
    requires earliest { AllByRecursion (λ (row : Row). earliest ≤ row.minute) rows.now }
    requires told { IfSome told (IsToldOf rows.now verdicts.now) }
    requires early { AllByRecursion (λ (row : Row). row.minute ≤ LAST_MINUTE) rows.now }
    requires verdicts { verdicts.now ≡ verdicts_def book.now.rows rows.now }
    ensures forgets { Forgets (HasMoved measure.now rows.now verdicts.now) width line.old line.new }
    ensures told { IfSome result (IsToldOf rows.now verdicts.now) }
{
    if line.knows_nothing_from(earliest) {
        return told;
    }
    let moves = moves_of(told, measure, rows, verdicts);
    forget_near_moves(
        line,
        rule,
        measure,
        width,
        moves.minutes,
        book,
        rows,
        verdicts,
    );
    Some(moves)
}
