//! The laws of a book: what was given over all its readings.
ghost use Rattle.std.specs.Prelude.{◌≡◌, ◌≤◌, ℕ, List, filter, length, ◌++◌};
ghost use Rattle.std.specs.List.{find};
ghost use Rattle.counter_book.specs.Book.{Book};
ghost use Rattle.counter_book.specs.Differences.{difference_at};
ghost use Rattle.counter_book.specs.Laws.{HoldsReadings, IsFront, current_differences, row_at};
ghost use Rattle.counter_book.specs.Puts.{is_difference_at, listed};
ghost use Rattle.counter_book.specs.declared.reading.Changes.{Changes};
ghost use Rattle.counter_book.specs.declared.reading.CounterReading.{CounterReading};
ghost use Rattle.counter_book.specs.declared.reading.Difference.{Difference};

/// What was given is the differences: the current rows of all that was given are the differences
/// from scratch over all readings, each at the revision that says how often it was given.
pub fn what_was_given_is_the_differences()
    ensures { (came : List CounterReading) (given : List Difference) (book : Book) →
        HoldsReadings came given book → (source : List ℕ) (minute : ℕ) →
        find (is_difference_at source minute) (current_differences given)
        ≡ row_at source minute (length (filter (is_difference_at source minute) given))
        (difference_at came source minute) }
{}

/// Each reading gives at most two differences.
pub fn a_reading_gives_at_most_two()
    ensures { (changes : Changes) → length (listed changes) ≤ 2 }
{}

/// The differences of a front of the readings are a front of the differences: so what was sent is
/// sent again, and acts once, where more readings are added to a list.
pub fn a_front_gives_a_front()
    ensures { (came more : List CounterReading) (given : List Difference) (book : Book) →
        HoldsReadings (came ++ more) given book → IsFront came given }
{}
