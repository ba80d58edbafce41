//! The law on rows.
ghost use Rattle.std.specs.Prelude.{◌≡◌, ℕ, List, filter, length, map, option_map};
ghost use Rattle.std.specs.List.{find};
ghost use Rattle.counter_book.specs.Book.{Book};
ghost use Rattle.counter_book.specs.Differences.{difference_at};
ghost use Rattle.counter_book.specs.Laws.{HoldsReadings, row_at};
ghost use Rattle.counter_book.specs.Puts.{is_difference_at};
ghost use Rattle.counter_book.specs.declared.CounterReading.{CounterReading};
ghost use Rattle.counter_book.specs.declared.Difference.{Difference};
ghost use Rattle.sample_book.specs.Counting.{is_of};
ghost use Rattle.sample_book.specs.Rows.{current_rows};
ghost use Rattle.sample_book.specs.declared.Row.{Row};
ghost use Rattle.counter_laws.specs.Samples.{is_sample_at, sample_of};

/// Where the rows of an indicator are the differences that a book gave, in their order among any
/// other rows, its current rows are the differences from scratch over the readings that the book
/// took: at each source's minute the sample of the difference, with the revision that says how
/// often it was given, and none where there is no difference.
pub fn the_samples_are_the_differences()
    ensures { (sli : List ℕ) (rows : List Row) (came : List CounterReading)
        (given : List Difference) (book : Book) → HoldsReadings came given book →
        filter (is_of sli) rows ≡ map (sample_of sli) given →
        (source : List ℕ) (minute : ℕ) →
        find (is_sample_at sli source minute) (current_rows rows)
        ≡ option_map (sample_of sli) (row_at source minute
        (length (filter (is_difference_at source minute) given))
        (difference_at came source minute)) }
{}
