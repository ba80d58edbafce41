//! Exclusions and liftings, followed by the sums of an objective.
ghost use Rattle.std.specs.Prelude.{◌≡◌, ◌/◌, ◌≤◌, ◌<◌, ◌&&◌, ℕ, List, not, length, IsTrue};
ghost use Rattle.std.specs.Prelude.{nat_le, nat_lt, true, false};
ghost use Rattle.std.specs.List.{AllByRecursion};
ghost use Rattle.std.specs.Str.{bytes_eq};
ghost use Rattle.slo_limits.specs.declared.TheConstants.{MAX_SUMMED_ROWS};
ghost use Rattle.sample_book.specs.Counting.{is_of};
ghost use Rattle.window_sums.specs.Shares.{IsSumOf, Share};
ghost use Rattle.window_sums.specs.Slices.{counts_of, day_of, has_day};
ghost use Rattle.kept_sums.specs.Replacing.{MayReplace, among};
ghost use Rattle.kept_sums.specs.Sums.{RowFits, HasItsDay, SumsAreKept, shares_by};
ghost use Rattle.kept_sums.specs.Walks.{IsChanged, followed, made_on};

use crate::counting::{counts_on, row_at};
use crate::exchange::exchange;
use office_history::Measure;
use sample_book::{Exclusion, ExclusionHint, Row, SampleBook};
use slo_limits::MINUTES_A_DAY;
use window_sums::WindowSums;

/// Whether a minute lies in a range.
fn is_between(from: u32, to: u32, minute: u32) -> bool
    ensures { result ≡ (nat_le from minute && nat_lt minute to) }
{
    from <= minute && minute < to
}

/// A row of the minutes from `from` up to `to` follows an exclusion that is made (`taken`), or one
/// that is lifted. Another is passed over: whether it is excluded is asked of all exclusions.
fn follow_on_row(
    sums: &mut WindowSums,
    measure: &Measure,
    book: &SampleBook,
    value: &Exclusion,
    taken: bool,
    from: u32,
    to: u32,
    row: &Row,
    hint: &mut ExclusionHint,
)
    requires begun { value.now.from ≤ from }
    requires order { from ≤ to }
    requires own { is_of measure.now.sli row.now ≡ true }
    requires fits { RowFits measure.now row.now }
    requires day { IsTrue (has_day sums.old (day_of row.now.minute)) }
    requires may { (before : List Share) × (after : List Share)
        × MayReplace sums.old row.now.minute
        (followed measure.now book.now.exclusions value.now taken from row.now)
        (followed measure.now book.now.exclusions value.now taken to row.now) before after }
    ensures method { sums.new.method ≡ sums.old.method }
    ensures counted { (before after : List Share) → IsSumOf sums.old (among before row.now.minute
        (followed measure.now book.now.exclusions value.now taken from row.now) after)
        → IsSumOf sums.new (among before row.now.minute
        (followed measure.now book.now.exclusions value.now taken to row.now) after) }
    ensures days { (day : ℕ) → has_day sums.new day ≡ has_day sums.old day }
{
    if !is_between(from, to, row.minute) {
        return;
    }
    let old = counts_on(measure, book, value, !taken, row, hint);
    let new = counts_on(measure, book, value, taken, row, hint);
    exchange(sums, row.minute, old, new);
}

/// The rows of the minutes from `from` up to `to`, which all lie on one day, follow an exclusion
/// that is made (`taken`), or one that is lifted.
fn follow_between(
    sums: &mut WindowSums,
    measure: &Measure,
    book: &SampleBook,
    value: &Exclusion,
    taken: bool,
    from: u32,
    to: u32,
)
    requires begun { value.now.from ≤ from }
    requires order { from ≤ to }
    requires one_day { (minute : ℕ) → from ≤ minute → minute < to → day_of minute ≡ day_of from }
    requires counted { IsSumOf sums.old
        (shares_by (followed measure.now book.now.exclusions value.now taken from) book.now.rows) }
    requires days { AllByRecursion (HasItsDay measure.now sums.old) book.now.rows }
    requires forms { AllByRecursion (RowFits measure.now) book.now.rows }
    requires few { length book.now.rows ≤ MAX_SUMMED_ROWS }
    ensures counted { IsSumOf sums.new
        (shares_by (followed measure.now book.now.exclusions value.now taken to) book.now.rows) }
    ensures method { sums.new.method ≡ sums.old.method }
    ensures days { (day : ℕ) → has_day sums.new day ≡ has_day sums.old day }
{
    if to <= from {
        return;
    }
    let mut hint = ExclusionHint::new();
    let mut next = book.last_row_on(measure.sli, from / MINUTES_A_DAY);
    while let Some(place) = next {
        let row = row_at(book, place);
        follow_on_row(sums, measure, book, value, taken, from, to, &row, &mut hint);
        next = book.row_before_on(place);
    }
}

/// The rows of the range of an exclusion that is lifted count again, day by day.
fn follow_lifting(sums: &mut WindowSums, measure: &Measure, book: &SampleBook, value: &Exclusion)
    requires some { value.now.from < value.now.to }
    requires counted { IsSumOf sums.old (shares_by
        (followed measure.now book.now.exclusions value.now false value.now.from) book.now.rows) }
    requires days { AllByRecursion (HasItsDay measure.now sums.old) book.now.rows }
    requires forms { AllByRecursion (RowFits measure.now) book.now.rows }
    requires few { length book.now.rows ≤ MAX_SUMMED_ROWS }
    ensures counted { IsSumOf sums.new (shares_by
        (followed measure.now book.now.exclusions value.now false value.now.to) book.now.rows) }
    ensures method { sums.new.method ≡ sums.old.method }
    ensures days { (day : ℕ) → has_day sums.new day ≡ has_day sums.old day }
{
    let end = value.to;
    let mut from = value.from;
    while from < end {
        let rest = MINUTES_A_DAY - from % MINUTES_A_DAY;
        let to = from + rest.min(end - from);
        follow_between(sums, measure, book, value, false, from, to);
        from = to;
    }
}

/// Nothing counts any more in the range of an exclusion that is made. A slice that lies wholly in
/// it has no counts then, so that its rows aren't looked at; those of a slice that the range cuts
/// are.
fn follow_taking(sums: &mut WindowSums, measure: &Measure, book: &SampleBook, value: &Exclusion)
    requires some { value.now.from < value.now.to }
    requires own { bytes_eq value.now.slo measure.now.slo ≡ true }
    requires method { sums.old.method ≡ measure.now.method }
    requires counted { IsSumOf sums.old (shares_by
        (followed measure.now book.now.exclusions value.now true value.now.from) book.now.rows) }
    requires days { AllByRecursion (HasItsDay measure.now sums.old) book.now.rows }
    requires forms { AllByRecursion (RowFits measure.now) book.now.rows }
    requires few { length book.now.rows ≤ MAX_SUMMED_ROWS }
    ensures counted { IsSumOf sums.new (shares_by
        (followed measure.now book.now.exclusions value.now true value.now.to) book.now.rows) }
    ensures method { sums.new.method ≡ sums.old.method }
    ensures days { (day : ℕ) → has_day sums.new day ≡ has_day sums.old day }
{
    let width = sums.width();
    let first = value.from.div_ceil(width);
    let end = value.to / width;
    if end < first {
        follow_between(sums, measure, book, value, true, value.from, value.to);
        return;
    }
    let whole_from = first * width;
    let whole_to = end * width;
    follow_between(sums, measure, book, value, true, value.from, whole_from);
    sums.clear(whole_from, whole_to);
    follow_between(sums, measure, book, value, true, whole_to, value.to);
}

/// The sums of an objective follow an exclusion that is made (`taken`), or one that is lifted. The
/// book is the one without it. Only rows of the days of its range are looked at: at a lifting all
/// of them, else those of the slices that the range cuts. No memory is taken.
pub(crate) fn follow_exclusion(
    sums: &mut WindowSums,
    measure: &Measure,
    book: &SampleBook,
    value: &Exclusion,
    taken: bool,
)
    requires kept { SumsAreKept measure.now (made_on book.now.exclusions value.now (not taken))
        book.now.rows sums.old }
    requires forms { AllByRecursion (RowFits measure.now) book.now.rows }
    requires few { length book.now.rows ≤ MAX_SUMMED_ROWS }
    ensures kept { SumsAreKept measure.now (made_on book.now.exclusions value.now taken)
        book.now.rows sums.new }
    ensures days { (day : ℕ) → has_day sums.new day ≡ has_day sums.old day }
    // Only slices of rows that count otherwise with the exclusion are touched.
    ensures touched { (slice : ℕ)
        → (IsChanged measure.now book.now.exclusions value.now book.now.rows slice → ⊥)
        → counts_of sums.new slice ≡ counts_of sums.old slice }
{
    if value.slo != measure.slo {
        return;
    }
    if value.to <= value.from {
        return;
    }
    if taken {
        follow_taking(sums, measure, book, value);
    } else {
        follow_lifting(sums, measure, book, value);
    }
}
