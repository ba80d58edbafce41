//! What the calls of a book come to, over everything that ever came.
ghost use Rattle.std.specs.Prelude.{◌≡◌, ◌+◌, ◌++◌, ◌∷◌, [], List, ℕ, Bool, true, false, filter};
ghost use Rattle.std.specs.Prelude.{length, slice_get, take, Some};
ghost use Rattle.sample_book.specs.Exclusions.{is_excluded, is_excluded_in};
ghost use Rattle.sample_book.specs.History.{Arrival, Holds, MayComeAll, changes_in, exclusions_of};
ghost use Rattle.sample_book.specs.History.{rows_in};
ghost use Rattle.sample_book.specs.LastRows.{IsLastPlace, last_place};
ghost use Rattle.sample_book.specs.Counting.{counts_of_minute};
ghost use Rattle.sample_book.specs.Puts.{IsPutInto, is_conflict, is_new, is_settled, replaced_rows};
ghost use Rattle.sample_book.specs.Puts.{verdicts};
ghost use Rattle.sample_book.specs.Rows.{current_rows, room_for, verdict_of};
ghost use Rattle.sample_book.specs.declared.row.RowVerdict.{RowVerdict};
ghost use Rattle.exact_fraction.specs.declared.Op.{Op};
ghost use Rattle.slice_method.specs.declared.Reading.{Reading};
ghost use Rattle.sample_book.specs.declared.exclusions.Exclusion.{Exclusion};
ghost use Rattle.sample_book.specs.declared.row.Row.{Row};

/// After any list of rows, exclusions and liftings the book's rows are the current ones of all rows
/// that came, and its exclusions are all that were made, each live unless it was lifted. So a
/// minute is excluded exactly where some exclusion of the objective that wasn't lifted has it.
pub fn a_book_is_what_came()
    ensures rows { (arrivals : List Arrival) (rows : List Row) (made : List (Exclusion × Bool))
        → Holds arrivals rows made → rows ≡ current_rows (rows_in arrivals) }
    ensures exclusions { (arrivals : List Arrival) (rows : List Row)
        (made : List (Exclusion × Bool)) → Holds arrivals rows made
        → made ≡ exclusions_of (changes_in arrivals) }
    ensures excluded { (arrivals : List Arrival) (rows : List Row) (made : List (Exclusion × Bool))
        (slo : List ℕ) (minute : ℕ) → Holds arrivals rows made
        → is_excluded made slo minute ≡ is_excluded_in (changes_in arrivals) slo minute }
{}

/// Room that was made for a batch of rows is enough for them: each of them that is new or newer, in
/// turn, may be put.
pub fn room_is_enough()
    ensures { (rows came : List Row) → MayComeAll (current_rows rows)
        (room_for (current_rows rows) came) came }
{}

/// The rows that came before others count only by the current ones among them.
pub fn only_current_rows_count()
    ensures rows { (came rows : List Row)
        → current_rows (current_rows came ++ rows) ≡ current_rows (came ++ rows) }
    ensures verdicts { (came rows : List Row)
        → verdicts (current_rows came) rows ≡ verdicts came rows }
{}

/// A batch is judged row by row, each over the rows that came and those of the batch before it; it
/// adds a cell for each of its rows that is new.
pub fn a_batch_is_judged_row_by_row()
    ensures verdicts { (came rows : List Row) (place : ℕ) (row : Row)
        → slice_get rows place ≡ Some row
        → slice_get (verdicts came rows) place
        ≡ Some (verdict_of (current_rows (came ++ take place rows)) row) }
    ensures cells { (came rows : List Row)
        → length (current_rows (came ++ rows))
        ≡ length (current_rows came) + length (filter is_new (verdicts came rows)) }
{}

/// A row that came and wasn't in conflict changes nothing when it comes again, whatever else came.
pub fn a_row_acts_once()
    ensures settled { (came : List Row) (row : Row)
        → is_conflict (verdict_of (current_rows came) row) ≡ false
        → is_settled (verdict_of (current_rows (came ++ row ∷ [])) row) ≡ true }
    ensures stays { (came rows : List Row) (row : Row)
        → is_settled (verdict_of (current_rows came) row) ≡ true
        → is_settled (verdict_of (current_rows (came ++ rows)) row) ≡ true }
{}

/// A row that is put changes the counts of a minute by what it counts for there, and by what the
/// row counted for whose place it takes; so it changes nothing but its own minute of its own
/// indicator.
pub fn a_row_changes_its_own_minute()
    ensures good { (rows after : List Row) (row : Row) (verdict : RowVerdict) (reading : Reading)
        (op : Op) (value : ℕ) (sli : List ℕ) (minute : ℕ) → IsPutInto rows row verdict after
        → (counts_of_minute reading op value after sli minute).good
        + (counts_of_minute reading op value (replaced_rows verdict) sli minute).good
        ≡ (counts_of_minute reading op value rows sli minute).good
        + (counts_of_minute reading op value (row ∷ []) sli minute).good }
    ensures total { (rows after : List Row) (row : Row) (verdict : RowVerdict) (reading : Reading)
        (op : Op) (value : ℕ) (sli : List ℕ) (minute : ℕ) → IsPutInto rows row verdict after
        → (counts_of_minute reading op value after sli minute).total
        + (counts_of_minute reading op value (replaced_rows verdict) sli minute).total
        ≡ (counts_of_minute reading op value rows sli minute).total
        + (counts_of_minute reading op value (row ∷ []) sli minute).total }
{}

/// The last place of a row that passes a test is one where a row passes it, with none behind that
/// does; there is none where no row passes. So the places of an indicator's rows, or of its rows on
/// a day, are all found by going from each to the one before it.
pub fn no_row_is_passed_over()
    ensures { (test : Row → Bool) (rows : List Row) → IsLastPlace test rows (last_place test rows) }
{}
