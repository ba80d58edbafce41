//! Sums that are to be kept, copied from others that count the same, or made from the rows.
ghost use Rattle.std.specs.Prelude.{◌≤◌, [], IfOk, length};
ghost use Rattle.std.specs.Int.{◌∣◌};
ghost use Rattle.std.specs.List.{AllByRecursion};
ghost use Rattle.slo_limits.specs.declared.TheConstants.{MAX_SUMMED_ROWS};
ghost use Rattle.window_sums.specs.Slices.{width_of};
ghost use Rattle.kept_sums.specs.Objectives.{AreKept, made_for};
ghost use Rattle.kept_sums.specs.Sums.{RowFits, SumsAreKept};

use crate::from_rows::sums_over;
use crate::kept::KeptSums;
use office_history::Measure;
use sample_book::SampleBook;
use std::alloc::{AllocError, Global};
use window_sums::WindowSums;

impl KeptSums {
    /// Sums of an objective, of its SLO or to be pooled, as `sums_over` makes them from the rows.
    /// While no exclusion of the SLO is live, both are one, so they are a copy of those that are
    /// kept: then no row is looked at.
    ///
    /// # Errors
    ///
    /// Memory ran out.
    pub fn new_sums(
        &self,
        alloc: Global,
        measure: &Measure,
        pool: bool,
        book: &SampleBook,
    ) -> Result<WindowSums, AllocError>
        requires own { AreKept book.now.exclusions book.now.rows self.now.own }
        requires pooled { AreKept [] book.now.rows self.now.pooled }
        requires width { width_of measure.now.method ∣ 60 }
        requires forms { AllByRecursion (RowFits measure.now) book.now.rows }
        requires few { length book.now.rows ≤ MAX_SUMMED_ROWS }
        ensures { IfOk result
            (SumsAreKept measure.now (made_for pool book.now.exclusions) book.now.rows) }
    {
        let excluded = book.has_exclusions(measure.slo);
        if excluded {
            return sums_over(alloc, measure, pool, book);
        }
        match self.find(measure) {
            Some(sums) => sums.copy(),
            None => sums_over(alloc, measure, pool, book),
        }
    }
}
