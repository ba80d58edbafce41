//! Rows and exclusions, followed by all sums.
ghost use Rattle.std.specs.Prelude.{◌≡◌, ◌+◌, ◌≤◌, ◌++◌, [], Bool, List, OnOk, length, not};
ghost use Rattle.std.specs.Prelude.{vec_capacity, vec_len};
ghost use Rattle.sample_book.specs.declared.Exclusion.{Exclusion};
ghost use Rattle.sample_book.specs.declared.Row.{Row};
ghost use Rattle.sample_book.specs.Puts.{verdicts as verdicts_def};
ghost use Rattle.sample_book.specs.Rows.{current_rows};
ghost use Rattle.slo_limits.specs.declared.TheConstants.{MAX_SUMMED_ROWS};
ghost use Rattle.kept_sums.specs.Walks.{made_on};
ghost use Rattle.kept_sums.specs.Objectives.{AreKept, HaveDays, HaveForms, made_for, measures_of};

use crate::batch::{count_batch, reserve_batch};
use crate::kept::{KeptSums, ObjectiveSums};
use crate::range::follow_exclusion;
use sample_book::{Exclusion, Row, RowVerdict, SampleBook};
use std::alloc::AllocError;

/// Makes the days of the rows of a batch be there in all of these sums.
fn reserve_all(objectives: &mut Vec<ObjectiveSums>, rows: &[Row]) -> Result<(), AllocError>
    ensures days { OnOk result (HaveDays rows.now objectives.new.items) }
    ensures kept { (made : List (Exclusion × Bool)) (before : List Row)
        → AreKept made before objectives.old.items → AreKept made before objectives.new.items }
    ensures measures { measures_of objectives.new.items ≡ measures_of objectives.old.items }
    ensures spare { vec_capacity objectives.new ≡ vec_capacity objectives.old }
{
    for kept in objectives.iter_mut() {
        reserve_batch(&mut kept.sums, &kept.measure, rows)?;
    }
    Ok(())
}

/// All of these sums follow the rows of a batch.
fn count_all(
    objectives: &mut Vec<ObjectiveSums>,
    pool: bool,
    book: &SampleBook,
    rows: &[Row],
    verdicts: &[RowVerdict],
)
    requires kept { AreKept (made_for pool book.now.exclusions) book.now.rows objectives.old.items }
    requires verdicts { verdicts.now ≡ verdicts_def book.now.rows rows.now }
    requires forms { HaveForms book.now.rows objectives.old.items }
    requires fit { HaveForms rows.now objectives.old.items }
    requires days { HaveDays rows.now objectives.old.items }
    requires few { length (current_rows (book.now.rows ++ rows.now)) ≤ MAX_SUMMED_ROWS }
    ensures kept { AreKept (made_for pool book.now.exclusions)
        (current_rows (book.now.rows ++ rows.now)) objectives.new.items }
    ensures measures { measures_of objectives.new.items ≡ measures_of objectives.old.items }
    ensures spare { vec_capacity objectives.new ≡ vec_capacity objectives.old }
{
    for kept in objectives.iter_mut() {
        count_batch(&mut kept.sums, &kept.measure, pool, book, rows, verdicts);
    }
}

/// All of these sums follow an exclusion that is made (`taken`), or one that is lifted.
fn turn_all(objectives: &mut Vec<ObjectiveSums>, book: &SampleBook, value: &Exclusion, taken: bool)
    requires kept { AreKept (made_on book.now.exclusions value.now (not taken)) book.now.rows
        objectives.old.items }
    requires forms { HaveForms book.now.rows objectives.old.items }
    requires few { length book.now.rows ≤ MAX_SUMMED_ROWS }
    ensures kept { AreKept (made_on book.now.exclusions value.now taken) book.now.rows
        objectives.new.items }
    ensures measures { measures_of objectives.new.items ≡ measures_of objectives.old.items }
    ensures spare { vec_capacity objectives.new ≡ vec_capacity objectives.old }
{
    for kept in objectives.iter_mut() {
        follow_exclusion(&mut kept.sums, &kept.measure, book, value, taken);
    }
}

impl KeptSums {
    /// Makes the days of the rows of a batch be there in all sums, and leaves all counts as they
    /// are.
    ///
    /// # Errors
    ///
    /// Memory ran out.
    pub fn reserve_rows(&mut self, rows: &[Row]) -> Result<(), AllocError>
        ensures days { OnOk result (HaveDays rows.now self.new.own) }
        ensures pooled_days { OnOk result (HaveDays rows.now self.new.pooled) }
        ensures kept { (made : List (Exclusion × Bool)) (before : List Row)
            → AreKept made before self.old.own → AreKept made before self.new.own }
        ensures pooled { (made : List (Exclusion × Bool)) (before : List Row)
            → AreKept made before self.old.pooled → AreKept made before self.new.pooled }
        ensures measures { measures_of self.new.own ≡ measures_of self.old.own }
        ensures pooled_measures { measures_of self.new.pooled ≡ measures_of self.old.pooled }
    {
        reserve_all(&mut self.own, rows)?;
        reserve_all(&mut self.pooled, rows)
    }

    /// The sums follow the rows of a batch, each of which becomes this over those before it. The
    /// book doesn't have them yet. No memory is taken.
    pub fn follow_rows(&mut self, book: &SampleBook, rows: &[Row], verdicts: &[RowVerdict])
        requires kept { AreKept book.now.exclusions book.now.rows self.old.own }
        requires pooled { AreKept [] book.now.rows self.old.pooled }
        requires verdicts { verdicts.now ≡ verdicts_def book.now.rows rows.now }
        requires forms { HaveForms book.now.rows self.old.own }
        requires pooled_forms { HaveForms book.now.rows self.old.pooled }
        requires fit { HaveForms rows.now self.old.own }
        requires pooled_fit { HaveForms rows.now self.old.pooled }
        requires days { HaveDays rows.now self.old.own }
        requires pooled_days { HaveDays rows.now self.old.pooled }
        requires few { length (current_rows (book.now.rows ++ rows.now)) ≤ MAX_SUMMED_ROWS }
        ensures kept { AreKept book.now.exclusions (current_rows (book.now.rows ++ rows.now))
            self.new.own }
        ensures pooled { AreKept [] (current_rows (book.now.rows ++ rows.now)) self.new.pooled }
        ensures measures { measures_of self.new.own ≡ measures_of self.old.own }
        ensures pooled_measures { measures_of self.new.pooled ≡ measures_of self.old.pooled }
    {
        count_all(&mut self.own, false, book, rows, verdicts);
        count_all(&mut self.pooled, true, book, rows, verdicts);
    }

    /// The sums follow an exclusion that is made (`taken`), or one that is lifted. The book is the
    /// one without it. Those that are pooled stay: nothing is excluded from them. No memory is
    /// taken.
    pub fn follow_exclusion(&mut self, book: &SampleBook, value: &Exclusion, taken: bool)
        requires kept { AreKept (made_on book.now.exclusions value.now (not taken)) book.now.rows
            self.old.own }
        requires forms { HaveForms book.now.rows self.old.own }
        requires few { length book.now.rows ≤ MAX_SUMMED_ROWS }
        ensures kept { AreKept (made_on book.now.exclusions value.now taken) book.now.rows
            self.new.own }
        ensures measures { measures_of self.new.own ≡ measures_of self.old.own }
        ensures pooled { self.new.pooled ≡ self.old.pooled }
    {
        turn_all(&mut self.own, book, value, taken);
    }
}
