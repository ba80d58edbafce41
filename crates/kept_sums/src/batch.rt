//! The rows of a batch, followed by the sums of an objective.
ghost use Rattle.std.specs.Prelude.{true, ◌≡◌, ◌≢◌, ◌+◌, ◌≤◌, ◌<◌, ◌++◌, ◌∷◌, [], ℕ, Bool, List};
ghost use Rattle.std.specs.Prelude.{IsTrue, OnOk, length};
ghost use Rattle.std.specs.List.{AllByRecursion};
ghost use Rattle.slo_limits.specs.declared.TheConstants.{MAX_SUMMED_ROWS};
ghost use Rattle.sample_book.specs.declared.Exclusion.{Exclusion};
ghost use Rattle.sample_book.specs.declared.Row.{Row};
ghost use Rattle.sample_book.specs.Puts.{verdicts as verdicts_def};
ghost use Rattle.sample_book.specs.Rows.{current_rows};
ghost use Rattle.window_sums.specs.Slices.{counts_of, has_day, slice_of};
ghost use Rattle.kept_sums.specs.Objectives.{made_for};
ghost use Rattle.kept_sums.specs.Replacing.{HasMoved, MayFollow};
ghost use Rattle.kept_sums.specs.Replacing.{changes_counts as changes_counts_def};
ghost use Rattle.kept_sums.specs.Sums.{RowFits, HasItsDay, SumsAreKept};

use crate::counting::{changes_counts, counts_near, replaced_counts};
use crate::exchange::exchange;
use office_history::Measure;
use sample_book::{ExclusionHint, Row, RowVerdict, SampleBook};
use std::alloc::AllocError;
use window_sums::WindowSums;

/// The sums follow a row that comes over those that came: the row whose place it takes doesn't
/// count any more, and it counts.
fn follow_row(
    sums: &mut WindowSums,
    measure: &Measure,
    pool: bool,
    book: &SampleBook,
    row: &Row,
    verdict: &RowVerdict,
    hint: &mut ExclusionHint,
)
    requires may { (came : List Row) × MayFollow measure.now (made_for pool book.now.exclusions)
        row.now verdict.now sums.old came }
    ensures kept { (came : List Row) → MayFollow measure.now (made_for pool book.now.exclusions)
        row.now verdict.now sums.old came
        → SumsAreKept measure.now (made_for pool book.now.exclusions)
        (current_rows (came ++ row.now ∷ []))
        sums.new }
    ensures days { (day : ℕ) → has_day sums.new day ≡ has_day sums.old day }
    ensures touched { (slice : ℕ) → (changes_counts_def measure.now row.now verdict.now ≡ true
        → slice ≢ slice_of sums.old.method row.now.minute)
        → counts_of sums.new slice ≡ counts_of sums.old slice }
{
    if !changes_counts(measure, row, verdict) {
        return;
    }
    let old = replaced_counts(measure, pool, book, verdict, hint);
    let new = counts_near(measure, pool, book, row, hint);
    exchange(sums, row.minute, old, new);
}

/// The sums of an objective follow the rows of a batch, each of which becomes this over those
/// before it. The book doesn't have them yet. From sums that are pooled nothing is excluded. No
/// memory is taken.
pub(crate) fn count_batch(
    sums: &mut WindowSums,
    measure: &Measure,
    pool: bool,
    book: &SampleBook,
    rows: &[Row],
    verdicts: &[RowVerdict],
)
    requires kept { SumsAreKept measure.now (made_for pool book.now.exclusions) book.now.rows
        sums.old }
    requires verdicts { verdicts.now ≡ verdicts_def book.now.rows rows.now }
    requires forms { AllByRecursion (RowFits measure.now) book.now.rows }
    requires fit { AllByRecursion (RowFits measure.now) rows.now }
    requires days { AllByRecursion (HasItsDay measure.now sums.old) rows.now }
    requires few { length (current_rows (book.now.rows ++ rows.now)) ≤ MAX_SUMMED_ROWS }
    ensures kept { SumsAreKept measure.now (made_for pool book.now.exclusions)
        (current_rows (book.now.rows ++ rows.now))
        sums.new }
    ensures days { (day : ℕ) → has_day sums.new day ≡ has_day sums.old day }
    // Only slices of rows that move are touched.
    ensures touched { (slice : ℕ) → (HasMoved measure.now rows.now verdicts.now slice → ⊥)
        → counts_of sums.new slice ≡ counts_of sums.old slice }
{
    book.rows_are_current();
    let mut hint = ExclusionHint::new();
    for (place, row) in rows.iter().enumerate() {
        follow_row(sums, measure, pool, book, row, &verdicts[place], &mut hint);
    }
}

/// The day of a row of the objective's indicator is made ready.
fn reserve_row(sums: &mut WindowSums, measure: &Measure, row: &Row) -> Result<(), AllocError>
    ensures day { OnOk result (HasItsDay measure.now sums.new row.now) }
    ensures days { (other : Row) → HasItsDay measure.now sums.old other
        → HasItsDay measure.now sums.new other }
    ensures kept { (made : List (Exclusion × Bool)) (rows : List Row)
        → SumsAreKept measure.now made rows sums.old → SumsAreKept measure.now made rows sums.new }
{
    if row.sli == measure.sli {
        return sums.reserve(row.minute);
    }
    Ok(())
}

/// Makes the days of the rows of a batch be there, and leaves all counts as they are.
///
/// # Errors
///
/// Memory ran out.
pub(crate) fn reserve_batch(
    sums: &mut WindowSums,
    measure: &Measure,
    rows: &[Row],
) -> Result<(), AllocError>
    ensures days { OnOk result (AllByRecursion (HasItsDay measure.now sums.new) rows.now) }
    ensures kept { (made : List (Exclusion × Bool)) (before : List Row)
        → SumsAreKept measure.now made before sums.old
        → SumsAreKept measure.now made before sums.new }
{
    for row in rows {
        reserve_row(sums, measure, row)?;
    }
    Ok(())
}
