//! What a line forgets before an exclusion or a lifting is followed.
ghost use Rattle.std.specs.Prelude.{true, false, None, ◌≡◌, ◌≢◌, ◌/◌, ◌<◌, ◌≤◌, ℕ};
ghost use Rattle.std.specs.List.{AllByRecursion};
ghost use Rattle.std.specs.Str.{bytes_eq};
ghost use Rattle.sample_book.specs.declared.Row.{Row};
ghost use Rattle.burn_core.specs.Alert.{IsRule, reach_of};
ghost use Rattle.window_sums.specs.Slices.{day_of, width_of};
ghost use Rattle.kept_sums.specs.Sums.{RowFits, SumsAreKept, row_counts as row_counts_def};
ghost use Rattle.kept_sums.specs.Walks.{IsChanged, made_on};
ghost use Rattle.line_forgetting.specs.Touched.{Forgets, HasChanged, IsChangedRow, IsCut, IsRunIf};
ghost use Rattle.line_forgetting.specs.Touched.{LAST_MINUTE, TouchesEach};

use crate::run::{SliceRun, forget_waiting, touch};
use crate::whole::forget_whole;
use alert_line::AlertLine;
use burn_core::AlertRule;
use kept_sums::{NO_COUNTS, excludes_minute, row_at, row_counts};
use office_history::Measure;
use sample_book::{Exclusion, Row, SampleBook};
use slo_limits::MINUTES_A_DAY;
use window_sums::WindowSums;

/// Whether a row counts otherwise with an exclusion than without it. Outside its range it doesn't,
/// so such a row is passed over first: whether it is excluded is asked of all exclusions.
fn is_changed(measure: &Measure, book: &SampleBook, value: &Exclusion, row: &Row) -> bool
    requires { RowFits measure.now row.now }
    ensures changed { result ≡ true
        → row_counts_def measure.now (made_on book.now.exclusions value.now false) row.now
        ≢ row_counts_def measure.now (made_on book.now.exclusions value.now true) row.now }
    ensures same { result ≡ false
        → row_counts_def measure.now (made_on book.now.exclusions value.now false) row.now
        ≡ row_counts_def measure.now (made_on book.now.exclusions value.now true) row.now }
{
    if !excludes_minute(value, measure.slo, row.minute) {
        return false;
    }
    row_counts(measure, book, row) != NO_COUNTS
}

/// So does a row of the minutes from `from` up to `to`.
fn is_changed_between(
    measure: &Measure,
    book: &SampleBook,
    value: &Exclusion,
    from: u32,
    to: u32,
    row: &Row,
) -> bool
    requires { RowFits measure.now row.now }
    ensures changed { result ≡ true
        → IsChangedRow measure.now book.now.exclusions value.now from to row.now }
    ensures same { result ≡ false
        → IsChangedRow measure.now book.now.exclusions value.now from to row.now → ⊥ }
{
    if row.minute < from || to <= row.minute {
        return false;
    }
    is_changed(measure, book, value, row)
}

/// Whether there is such a row, where these minutes all lie on one day.
fn has_changed(measure: &Measure, book: &SampleBook, value: &Exclusion, from: u32, to: u32) -> bool
    requires one_day { (minute : ℕ) → from ≤ minute → minute < to → day_of minute ≡ day_of from }
    requires forms { AllByRecursion (RowFits measure.now) book.now.rows }
    ensures some { result ≡ true
        → HasChanged measure.now book.now.exclusions value.now book.now.rows from to }
    ensures none { result ≡ false
        → HasChanged measure.now book.now.exclusions value.now book.now.rows from to → ⊥ }
{
    let mut next = book.last_row_on(measure.sli, from / MINUTES_A_DAY);
    while let Some(place) = next {
        let row = row_at(book, place);
        if is_changed_between(measure, book, value, from, to, &row) {
            return true;
        }
        next = book.row_before_on(place);
    }
    false
}

/// The run that waits once a slice is passed that the range cuts. Its minutes in the range are
/// those from `from` up to `to`, of which there may be none, and their rows are looked at.
fn touch_cut(
    line: &mut AlertLine,
    rule: &AlertRule,
    measure: &Measure,
    width: u32,
    book: &SampleBook,
    value: &Exclusion,
    waiting: Option<SliceRun>,
    from: u32,
    to: u32,
) -> Option<SliceRun>
    requires rule { line.old.rule ≡ rule.now }
    requires ranges { IsRule rule.now }
    requires some { 0 < width }
    requires small { width ≤ 60 }
    requires one_day { (minute : ℕ) → from ≤ minute → minute < to → day_of minute ≡ day_of from }
    requires early { AllByRecursion (λ (row : Row). row.minute ≤ LAST_MINUTE) book.now.rows }
    requires forms { AllByRecursion (RowFits measure.now) book.now.rows }
    requires run { IsRunIf width (reach_of rule.now) waiting }
    ensures { TouchesEach (IsCut measure.now book.now.exclusions value.now book.now.rows width from
        to) width (reach_of rule.now) waiting result line.old line.new }
{
    if to <= from {
        return waiting;
    }
    if has_changed(measure, book, value, from, to) {
        return Some(touch(line, rule, width, waiting, from / width));
    }
    waiting
}

/// The run that waits once all slices of the range are passed.
fn touch_range(
    line: &mut AlertLine,
    rule: &AlertRule,
    measure: &Measure,
    width: u32,
    book: &SampleBook,
    sums: &WindowSums,
    value: &Exclusion,
) -> Option<SliceRun>
    requires rule { line.old.rule ≡ rule.now }
    requires ranges { IsRule rule.now }
    requires width { width ≡ width_of measure.now.method }
    requires some { 0 < width }
    requires small { width ≤ 60 }
    requires early { AllByRecursion (λ (row : Row). row.minute ≤ LAST_MINUTE) book.now.rows }
    requires forms { AllByRecursion (RowFits measure.now) book.now.rows }
    requires kept { SumsAreKept measure.now book.now.exclusions book.now.rows sums.now }
    requires own { bytes_eq value.now.slo measure.now.slo ≡ true }
    requires order { value.now.from < value.now.to }
    ensures { TouchesEach (IsChanged measure.now book.now.exclusions value.now book.now.rows) width
        (reach_of rule.now) None result line.old line.new }
{
    // The width divides an hour, as sums know of themselves.
    let _ = sums.width();
    let first = value.from.div_ceil(width);
    let end = value.to / width;
    if end < first {
        return touch_cut(
            line, rule, measure, width, book, value, None, value.from, value.to,
        );
    }
    let whole_from = first * width;
    let whole_to = end * width;
    let run = touch_cut(
        line, rule, measure, width, book, value, None, value.from, whole_from,
    );
    let run = forget_whole(line, rule, width, sums, run, first, end);
    touch_cut(
        line, rule, measure, width, book, value, run, whole_to, value.to,
    )
}

/// A line of the objective forgets what is near the slices of the rows that count otherwise with an
/// exclusion than without it, and nothing else, before its sums follow the exclusion or its
/// lifting. The book is the one without it, and so are the sums. A slice that lies wholly in the
/// range is looked up in the sums; only the rows of the slices that the range cuts are looked at.
/// Marks are merged: what is near neighbouring slices is forgotten at once. `width` is that of the
/// objective's slices.
pub fn forget_near_exclusion(
    line: &mut AlertLine,
    rule: &AlertRule,
    measure: &Measure,
    width: u32,
    book: &SampleBook,
    sums: &WindowSums,
    value: &Exclusion,
)
    requires rule { line.old.rule ≡ rule.now }
    requires ranges { IsRule rule.now }
    requires width { width ≡ width_of measure.now.method }
    requires some { 0 < width }
    requires small { width ≤ 60 }
    requires early { AllByRecursion (λ (row : Row). row.minute ≤ LAST_MINUTE) book.now.rows }
    requires forms { AllByRecursion (RowFits measure.now) book.now.rows }
    requires kept { SumsAreKept measure.now book.now.exclusions book.now.rows sums.now }
    ensures { Forgets (IsChanged measure.now book.now.exclusions value.now book.now.rows) width
        line.old line.new }
{
    if value.slo != measure.slo {
        return;
    }
    if value.to <= value.from {
        return;
    }
    let waiting = touch_range(line, rule, measure, width, book, sums, value);
    forget_waiting(line, rule, width, waiting);
}
