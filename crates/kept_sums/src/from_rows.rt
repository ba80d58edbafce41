//! The sums of an objective, made from the rows of the book.
ghost use Rattle.std.specs.Prelude.{◌≡◌, ◌≤◌, IfOk, length};
ghost use Rattle.std.specs.Int.{◌∣◌};
ghost use Rattle.std.specs.List.{AllByRecursion};
ghost use Rattle.slo_limits.specs.declared.TheConstants.{MAX_SUMMED_ROWS};
ghost use Rattle.window_sums.specs.Slices.{width_of};
ghost use Rattle.kept_sums.specs.Objectives.{made_for};
ghost use Rattle.kept_sums.specs.Sums.{RowFits, SumsAreKept};

use crate::counting::{NO_COUNTS, counts_near, row_at};
use crate::exchange::exchange;
use office_history::Measure;
use sample_book::{ExclusionHint, SampleBook};
use std::alloc::{AllocError, Global};
use window_sums::WindowSums;

/// The sums of an objective, from the rows of its indicator alone. From sums that are pooled
/// nothing is excluded.
///
/// # Errors
///
/// Memory ran out.
pub(crate) fn sums_over(
    alloc: Global,
    measure: &Measure,
    pool: bool,
    book: &SampleBook,
) -> Result<WindowSums, AllocError>
    requires width { width_of measure.now.method ∣ 60 }
    requires forms { AllByRecursion (RowFits measure.now) book.now.rows }
    requires few { length book.now.rows ≤ MAX_SUMMED_ROWS }
    ensures { IfOk result
        (SumsAreKept measure.now (made_for pool book.now.exclusions) book.now.rows) }
{
    let mut sums = WindowSums::new(alloc, measure.method);
    let mut hint = ExclusionHint::new();
    let mut next = book.last_row(measure.sli);
    while let Some(place) = next {
        let row = row_at(book, place);
        sums.reserve(row.minute)?;
        let counts = counts_near(measure, pool, book, &row, &mut hint);
        exchange(&mut sums, row.minute, NO_COUNTS, counts);
        next = book.row_before(place);
    }
    Ok(sums)
}
