//! What the kept counts are.
ghost use Rattle.std.specs.Prelude.{◌≡◌, ◌<◌, ℕ, Bool, List};
ghost use Rattle.sample_book.specs.declared.Exclusion.{Exclusion};
ghost use Rattle.sample_book.specs.declared.Row.{Row};
ghost use Rattle.window_sums.specs.Slices.{CountedDays, counts_of, width_of};
ghost use Rattle.office_history.specs.Counts.{slice_counts};
ghost use Rattle.office_history.specs.declared.Measure.{Measure};
ghost use Rattle.kept_sums.specs.Sums.{SumsAreKept};

/// No work, and a law: the counts of a slice are what the objective counts in its minutes, added
/// up.
pub fn kept_counts_are_those_of_the_minutes()
    ensures { (m : Measure) (made : List (Exclusion × Bool)) (rows : List Row) (sums : CountedDays)
        (slice : ℕ) → 0 < width_of m.method → SumsAreKept m made rows sums
        → counts_of sums slice ≡ slice_counts (record { rows = rows; exclusions = made }) m slice }
{}
