//! The sums of an objective, which the machine keeps.
ghost use Rattle.std.specs.Prelude.{◌≡◌, ℕ};
ghost use Rattle.window_sums.specs.Slices.{counts_of};
ghost use Rattle.office_history.specs.Counts.{slice_counts};
ghost use Rattle.office_derived.specs.Derived.{IsSound};
ghost use Rattle.kept_sums.specs.Found.{IsTold};
ghost use Rattle.kept_sums.specs.Objectives.{IsObjective};
ghost use Rattle.kept_sums.specs.Sums.{SumsAreKept};
ghost use Rattle.kept_lines.specs.Sums.{AreSums, samples_of};

use kept_sums::laws;
use office_derived::Derived;
use office_history::Measure;
use window_sums::WindowSums;

/// The sums that are kept of an objective of the catalog: each slice has the counts of its minutes.
/// Takes no memory, and looks at no row.
pub fn objective_sums<'a>(derived: &'a Derived, measure: &Measure) -> &'a WindowSums
    requires sound { IsSound derived.now }
    requires objective { IsObjective derived.now.catalog measure.now }
    ensures sums { AreSums (samples_of derived.now.book) measure.now result.now }
    ensures counts { (slice : ℕ) → counts_of result.now slice
        ≡ slice_counts (samples_of derived.now.book) measure.now slice }
    ensures kept { SumsAreKept measure.now derived.now.book.exclusions derived.now.book.rows
        result.now }
    ensures told { IsTold derived.now.sums measure.now result.now }
{
    objective_sums_at(derived, measure, 0)
}

/// The same, looked for at a place first.
pub(crate) fn objective_sums_at<'a>(
    derived: &'a Derived,
    measure: &Measure,
    place: usize,
) -> &'a WindowSums
    requires sound { IsSound derived.now }
    requires objective { IsObjective derived.now.catalog measure.now }
    ensures sums { AreSums (samples_of derived.now.book) measure.now result.now }
    ensures counts { (slice : ℕ) → counts_of result.now slice
        ≡ slice_counts (samples_of derived.now.book) measure.now slice }
    ensures kept { SumsAreKept measure.now derived.now.book.exclusions derived.now.book.rows
        result.now }
    ensures told { IsTold derived.now.sums measure.now result.now }
{
    laws::kept_counts_are_those_of_the_minutes();
    match derived.sums.find_at(measure, place) {
        Some(sums) => {
            // A slice has a minute at least, as sums know of themselves.
            let _ = sums.width();
            sums
        }
        None => unreachable!(),
    }
}
