//! The laws of `counters`: what its rows are, from scratch.
ghost use Rattle.std.specs.Prelude.{◌≡◌, ℕ, List, ◌++◌, Option};
ghost use Rattle.csv_records.specs.Records.{Fields};
ghost use Rattle.counters_command.specs.Answer.{EndsOver};
ghost use Rattle.counters_command.specs.Laws.{AreDifferences, BeginsWithRows, GainsDifferences};
ghost use Rattle.counters_command.specs.Taking.{GivesRows};
ghost use Rattle.counters_command.specs.declared.fault.CountersEnd.TheVariants.{Done};

/// The rows of records are those of a list of differences whose current rows are the differences
/// from scratch over the readings for which the records stand.
pub fn the_rows_are_the_differences()
    ensures { (sli : List ℕ) (records : List Fields) (text : List ℕ) →
        GivesRows sli records text → AreDifferences sli records text }
{}

/// A run that is done took the records of all bytes, and wrote their rows: the differences.
pub fn what_is_done_is_the_differences()
    ensures { (sli bytes : List ℕ) (old new : Option (List ℕ)) →
        EndsOver sli bytes Done old new → GainsDifferences sli bytes old new }
{}

/// Records have one text of rows.
pub fn records_have_one_text()
    ensures { (sli : List ℕ) (records : List Fields) (text other : List ℕ) →
        GivesRows sli records text → GivesRows sli records other → text ≡ other }
{}

/// The rows of records begin with the rows of any front of them, which has no others: so what was
/// sent is sent again, and acts once, where more records are added to a file.
pub fn a_front_gives_a_front()
    ensures { (sli : List ℕ) (records more : List Fields) (text : List ℕ) →
        GivesRows sli (records ++ more) text → BeginsWithRows sli records text }
{}
