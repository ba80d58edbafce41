//! What rows count for in an objective.
ghost use Rattle.std.specs.Prelude.{◌≡◌, ◌<◌, Some, length, slice_get, true};
ghost use Rattle.sample_book.specs.Counting.{is_of};
ghost use Rattle.sample_book.specs.Exclusions.{excludes};
ghost use Rattle.sample_book.specs.History.{is_put as is_put_def};
ghost use Rattle.kept_sums.specs.Objectives.{made_for};
ghost use Rattle.kept_sums.specs.Replacing.{FitsReplaced, changes_counts as changes_counts_def};
ghost use Rattle.kept_sums.specs.Replacing.{replaced_counts as replaced_counts_def};
ghost use Rattle.kept_sums.specs.Sums.{RowFits, row_counts as row_counts_def};
ghost use Rattle.kept_sums.specs.Walks.{made_on};

use exact_fraction::Label;
use office_history::Measure;
use sample_book::{Exclusion, ExclusionHint, Row, RowVerdict, SampleBook};
use slice_method::{Counts, counts_of};

/// What a row counts for that is of another indicator, or whose minute is excluded.
pub const NO_COUNTS: Counts = Counts { good: 0, total: 0 };

/// The row at a place of the book.
pub fn row_at(book: &SampleBook, place: u32) -> Row
    requires { place < length book.now.rows }
    ensures { slice_get book.now.rows place ≡ Some result }
{
    match book.row_at(place) {
        Some(row) => row,
        None => unreachable!(),
    }
}

/// What a row of the objective's indicator counts for in it, in a walk over rows: whether its
/// minute is excluded is looked for first where the look before ended. From sums that are pooled
/// nothing is excluded.
pub(crate) fn own_counts(
    measure: &Measure,
    pool: bool,
    book: &SampleBook,
    row: &Row,
    hint: &mut ExclusionHint,
) -> Counts
    requires own { is_of measure.now.sli row.now ≡ true }
    requires fits { RowFits measure.now row.now }
    ensures { result ≡ row_counts_def measure.now (made_for pool book.now.exclusions) row.now }
{
    if pool {
        return counts_of(measure.reading, measure.op, measure.value, row.amount);
    }
    let excluded = book.excluded_near(measure.slo, row.minute, hint);
    if excluded {
        return NO_COUNTS;
    }
    counts_of(measure.reading, measure.op, measure.value, row.amount)
}

/// What a row counts for in an objective, in a walk over rows.
pub(crate) fn counts_near(
    measure: &Measure,
    pool: bool,
    book: &SampleBook,
    row: &Row,
    hint: &mut ExclusionHint,
) -> Counts
    requires { RowFits measure.now row.now }
    ensures { result ≡ row_counts_def measure.now (made_for pool book.now.exclusions) row.now }
{
    if row.sli == measure.sli {
        own_counts(measure, pool, book, row, hint)
    } else {
        NO_COUNTS
    }
}

/// What a row counts for in an objective.
pub fn row_counts(measure: &Measure, book: &SampleBook, row: &Row) -> Counts
    requires { RowFits measure.now row.now }
    ensures { result ≡ row_counts_def measure.now book.now.exclusions row.now }
{
    let mut hint = ExclusionHint::new();
    counts_near(measure, false, book, row, &mut hint)
}

/// What the row counts for whose place another takes.
pub(crate) fn replaced_counts(
    measure: &Measure,
    pool: bool,
    book: &SampleBook,
    verdict: &RowVerdict,
    hint: &mut ExclusionHint,
) -> Counts
    requires { FitsReplaced measure.now verdict.now }
    ensures { result
        ≡ replaced_counts_def measure.now (made_for pool book.now.exclusions) verdict.now }
{
    match verdict {
        RowVerdict::Newer(kept) => counts_near(measure, pool, book, kept, hint),
        _ => NO_COUNTS,
    }
}

/// Whether a row of this verdict is put.
fn is_put(verdict: &RowVerdict) -> bool
    ensures { result ≡ is_put_def verdict.now }
{
    match verdict {
        RowVerdict::New => true,
        RowVerdict::Newer(_) => true,
        _ => false,
    }
}

/// Whether a row is of the objective's indicator and is put, where this becomes of it.
pub fn changes_counts(measure: &Measure, row: &Row, verdict: &RowVerdict) -> bool
    ensures { result ≡ changes_counts_def measure.now row.now verdict.now }
{
    row.sli == measure.sli && is_put(verdict)
}

/// Whether an exclusion takes this minute from an objective of an SLO.
pub fn excludes_minute(value: &Exclusion, slo: Label, minute: u32) -> bool
    ensures { result ≡ excludes slo minute (value.now, true) }
{
    value.slo == slo && value.from <= minute && minute < value.to
}

/// What a row of the objective's indicator counts for with an exclusion beside those of the book,
/// or without it.
pub(crate) fn counts_on(
    measure: &Measure,
    book: &SampleBook,
    value: &Exclusion,
    taken: bool,
    row: &Row,
    hint: &mut ExclusionHint,
) -> Counts
    requires own { is_of measure.now.sli row.now ≡ true }
    requires fits { RowFits measure.now row.now }
    ensures { result
        ≡ row_counts_def measure.now (made_on book.now.exclusions value.now taken) row.now }
{
    if taken && excludes_minute(value, measure.slo, row.minute) {
        return NO_COUNTS;
    }
    own_counts(measure, false, book, row, hint)
}
