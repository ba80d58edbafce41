//! The laws on what the rows of a counter count for.
ghost use Rattle.std.specs.Prelude.{◌≡◌, ℕ, List, false, filter, map};
ghost use Rattle.csv_records.specs.Records.{Fields};
ghost use Rattle.exact_fraction.specs.declared.Op.{Op};
ghost use Rattle.slice_method.specs.declared.Reading.TheVariants.{Good};
ghost use Rattle.sample_book.specs.Counting.{counts_of_minute, is_of};
ghost use Rattle.sample_book.specs.Exclusions.{is_excluded};
ghost use Rattle.sample_book.specs.Rows.{current_rows};
ghost use Rattle.sample_book.specs.declared.Row.{Row};
ghost use Rattle.office_history.specs.Counts.{counts_at};
ghost use Rattle.office_history.specs.History.{exclusions_in, rows_in};
ghost use Rattle.office_history.specs.Notices.{samples_in};
ghost use Rattle.office_history.specs.declared.Measure.{Measure};
ghost use Rattle.record_form.specs.declared.Entry.{Entry};
ghost use Rattle.counter_book.specs.Book.{Book};
ghost use Rattle.counter_book.specs.Laws.{HoldsReadings};
ghost use Rattle.counter_book.specs.declared.CounterReading.{CounterReading};
ghost use Rattle.counter_book.specs.declared.Difference.{Difference};
ghost use Rattle.counters_command.specs.Taking.{GivesRows};
ghost use Rattle.counter_laws.specs.Counted.{sums_of_differences};
ghost use Rattle.counter_laws.specs.Samples.{sample_of};

/// The counts of a minute are sums of the differences: where the rows of an indicator are those of
/// the differences that a book gave, and its reading is a ratio with good events, each minute
/// counts for the differences there, added up over all sources.
pub fn the_counts_are_the_sums_of_the_differences()
    ensures { (sli : List ℕ) (rows : List Row) (came : List CounterReading)
        (given : List Difference) (book : Book) → HoldsReadings came given book →
        filter (is_of sli) rows ≡ map (sample_of sli) given → (op : Op) (value minute : ℕ) →
        counts_of_minute Good op value (current_rows rows) sli minute
        ≡ sums_of_differences came minute }
{}

/// In a history whose rows of an indicator are those that `counters` wrote for it, each minute that
/// isn't excluded counts in an objective of such a ratio for the differences of the readings there.
/// It holds in each history, and so in each legal one.
pub fn what_counters_wrote_counts_for_the_differences()
    ensures { (history : List Entry) (measure : Measure) (records : List Fields) (text : List ℕ)
        (written : GivesRows measure.sli records text) →
        filter (is_of measure.sli) (rows_in history)
        ≡ map (sample_of measure.sli) written.given → measure.reading ≡ Good → (minute : ℕ) →
        is_excluded (exclusions_in history) measure.slo minute ≡ false →
        counts_at (samples_in history) measure minute
        ≡ sums_of_differences written.taken.came minute }
{}
