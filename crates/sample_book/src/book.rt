//! The book of samples and exclusions.
ghost use Rattle.std.specs.Prelude.{◌/◌, take, ℕ, List, ◌||◌, ◌≡◌, ◌≢◌, ◌+◌, ◌*◌, ◌^◌, ◌<◌, ◌≤◌};
ghost use Rattle.std.specs.Prelude.{◌++◌, ◌∷◌, [], true, false, Some, None, OnOk, OnErr, IfOk};
ghost use Rattle.std.specs.Prelude.{length, slice_get};
ghost use Rattle.slo_limits.specs.declared.TheConstants.{MAX_AMOUNT, MAX_SUMMED_ROWS};
ghost use Rattle.slo_limits.specs.declared.TheConstants.{MINUTES_A_DAY};
ghost use Rattle.sample_book.specs.Book.{Book};
ghost use Rattle.std.specs.List.{AllByRecursion};
ghost use Rattle.cell_index.specs.Chains.{below};
ghost use Rattle.sample_book.specs.LastRows.{is_on, last_place};
ghost use Rattle.sample_book.specs.Counting.{HaveForm, IsSmallRow, is_of, counted_in_minute};
ghost use Rattle.sample_book.specs.Counting.{counts_of_minute, days_with_rows, first_of};
ghost use Rattle.sample_book.specs.Exclusions.{Excluded, HaveOwnIds, IsLive, Lifted, excludes};
ghost use Rattle.sample_book.specs.Exclusions.{exclusion_of, is_excluded, after_lifting};
ghost use Rattle.sample_book.specs.History.{Came, Changed, Gains, Holds, MayComeAs, is_put};
ghost use Rattle.sample_book.specs.History.{room_after, rows_after};
ghost use Rattle.sample_book.specs.Puts.{IsPutInto, verdicts};
ghost use Rattle.sample_book.specs.Rows.{MayPutAs, cell_of, current_rows, room_for, row_of_cell};
ghost use Rattle.sample_book.specs.Rows.{verdict_of};

use crate::batch::check_batch;
use crate::current_rows::CurrentRows;
use crate::exclusions::{Exclusion, Exclusions};
use crate::reaches::ExclusionHint;
use crate::row::{Row, RowVerdict};
use crate::tally::{counts_at, first_of};
use cell_index::{Cell, CellIndex};
use exact_fraction::{Decimal, Label, Op};
use slice_method::{Counts, Reading};
use std::alloc::{AllocError, Global};
use std::marker::Model;

/// The current row of each cell, and the exclusions that were made.
#[derive(Drop)]
pub struct SampleBook {
    rows: CurrentRows,
    index: CellIndex,
    exclusions: Exclusions,
}

impl Model for SampleBook {
    ghost use Rattle.sample_book.specs.Book.{Book};
    ghost use Rattle.sample_book.specs.LastRows.{IsInOrder};

    ghost Value = { Book };

    ghost view = { λ a. record {
      rows = a.rows.rows;
      exclusions = a.exclusions.made;
      room = a.rows.room;
      spare = a.exclusions.spare;
    } };

    // The index is of the cells of the rows, and each cell with room can get its row in it without
    // memory.
    ghost invariant = { λ a. IsInOrder a.rows.rows a.rows.room a.index };
}

impl SampleBook {
    /// A book without rows and exclusions.
    pub fn new(alloc: Global) -> Result<SampleBook, AllocError>
        ensures rows { IfOk result (λ book. book.rows ≡ []) }
        ensures exclusions { IfOk result (λ book. book.exclusions ≡ []) }
        ensures room { IfOk result (λ book. book.room ≡ []) }
        ensures history { IfOk result (λ book. Holds [] book.rows book.exclusions) }
    {
        Ok(SampleBook {
            rows: CurrentRows::new(alloc),
            index: CellIndex::new(alloc),
            exclusions: Exclusions::new(alloc),
        })
    }

    /// How many current rows there are, one for each cell.
    pub fn cells(&self) -> u32
        ensures { result ≡ length self.now.rows }
    {
        self.rows.len()
    }

    /// How many exclusions were made, live or lifted.
    pub fn exclusions(&self) -> u32
        ensures { result ≡ length self.now.exclusions }
    {
        self.exclusions.count()
    }

    /// The rows are the current ones of themselves: no cell has two. It does no work.
    pub fn rows_are_current(&self)
        ensures { current_rows self.now.rows ≡ self.now.rows }
    {
        self.rows.are_current();
    }

    /// No two exclusions have one id. It does no work.
    pub fn exclusions_have_own_ids(&self)
        ensures { HaveOwnIds self.now.exclusions }
    {
        self.exclusions.have_own_ids();
    }

    /// What becomes of an arriving row.
    pub fn check(&self, row: &Row) -> RowVerdict
        ensures verdict { result ≡ verdict_of self.now.rows row.now }
        // A row that is neither new nor newer came and changes nothing.
        ensures history { is_put result ≡ false → Gains self.now (Came row.now) self.now }
    {
        self.rows.check(row)
    }

    /// What becomes of each row of a batch that arrives, each behind those before it. Nothing is
    /// put: a batch that is refused leaves the book. It takes time in proportion to the batch.
    pub fn check_batch(&self, alloc: Global, rows: &[Row]) -> Result<Vec<RowVerdict>, AllocError>
        ensures { IfOk result (λ found. found.items ≡ verdicts self.now.rows rows.now) }
    {
        check_batch(&self.rows, alloc, rows)
    }

    /// Gives room to the cells of these rows that have no current row, each once, in the order of
    /// the rows.
    /// No other cell has room afterwards, and none after a refusal.
    pub fn make_room(&mut self, rows: &[Row]) -> Result<(), AllocError>
        ensures room { OnOk result (self.new.room ≡ room_for self.old.rows rows.now) }
        ensures none { OnErr result (self.new.room ≡ []) }
        ensures rows { self.new.rows ≡ self.old.rows }
        ensures exclusions { self.new.exclusions ≡ self.old.exclusions }
        ensures spare { self.new.spare ≡ self.old.spare }
    {
        self.rows.release_room();
        self.index.reserve(rows.len())?;
        self.rows.make_room(rows)
    }

    /// Puts a row that is newer than its cell's, or the first row of the first cell with room.
    pub fn put(&mut self, row: &Row)
        requires { MayPutAs (verdict_of self.old.rows row.now) self.old.room (cell_of row.now) }
        // The rows are the current ones of the old rows and this one.
        ensures rows { self.new.rows ≡ current_rows (self.old.rows ++ row.now ∷ []) }
        ensures placed { IsPutInto self.old.rows row.now (verdict_of self.old.rows row.now)
            self.new.rows }
        ensures new { verdict_of self.old.rows row.now ≡ RowVerdict.New
            → self.old.room ≡ cell_of row.now ∷ self.new.room }
        ensures newer { verdict_of self.old.rows row.now ≢ RowVerdict.New
            → self.new.room ≡ self.old.room }
        ensures exclusions { self.new.exclusions ≡ self.old.exclusions }
        ensures spare { self.new.spare ≡ self.old.spare }
        ensures history { Gains self.old (Came row.now) self.new }
    {
        self.take(row);
    }

    /// A row comes: it is put where it is new or newer, with no memory. It is looked up once.
    pub fn take(&mut self, row: &Row)
        requires { MayComeAs (verdict_of self.old.rows row.now) self.old.room (cell_of row.now) }
        ensures rows { self.new.rows ≡ rows_after self.old.rows row.now }
        ensures placed { is_put (verdict_of self.old.rows row.now) ≡ true
            → IsPutInto self.old.rows row.now (verdict_of self.old.rows row.now) self.new.rows }
        ensures room { self.new.room ≡ room_after (verdict_of self.old.rows row.now) self.old.room }
        ensures exclusions { self.new.exclusions ≡ self.old.exclusions }
        ensures spare { self.new.spare ≡ self.old.spare }
        ensures history { Gains self.old (Came row.now) self.new }
    {
        let before = self.rows.len();
        self.rows.take(row);
        if before < self.rows.len() {
            self.index.push(&row.cell());
        }
    }

    /// The current row of a cell, by a look-up.
    pub fn row_of_cell(&self, cell: &Cell) -> Option<Row>
        ensures { result ≡ row_of_cell self.now.rows cell.now }
    {
        self.rows.of_cell(cell)
    }

    /// The current row at a place of the list, from 0.
    pub fn row_at(&self, place: u32) -> Option<Row>
        ensures { result ≡ slice_get self.now.rows place }
    {
        self.rows.at(place as usize)
    }

    /// Makes room for so many exclusions.
    pub fn reserve(&mut self, places: u32) -> Result<(), AllocError>
        ensures spare { OnOk result (places ≤ self.new.spare) }
        ensures rows { self.new.rows ≡ self.old.rows }
        ensures exclusions { self.new.exclusions ≡ self.old.exclusions }
        ensures room { self.new.room ≡ self.old.room }
    {
        self.exclusions.reserve(places as usize)
    }

    /// Adds an exclusion behind the others. It is live.
    pub fn exclude(&mut self, value: Exclusion)
        requires spare { 0 < self.old.spare }
        requires unused { exclusion_of self.old.exclusions value.id ≡ None }
        ensures exclusions { self.new.exclusions ≡ self.old.exclusions ++ (value, true) ∷ [] }
        // It takes its minutes, beside those that others take.
        ensures minutes { (slo : List ℕ) (minute : ℕ)
            → is_excluded self.new.exclusions slo minute
            ≡ (is_excluded self.old.exclusions slo minute || excludes slo minute (value, true)) }
        ensures spare { self.old.spare ≤ self.new.spare + 1 }
        ensures rows { self.new.rows ≡ self.old.rows }
        ensures room { self.new.room ≡ self.old.room }
        ensures history { Gains self.old (Changed (Excluded value)) self.new }
    {
        self.exclusions.exclude(value);
    }

    /// Lifts the exclusion of an id.
    pub fn lift(&mut self, id: Label)
        requires { IsLive self.old.exclusions id }
        ensures exclusions { self.new.exclusions ≡ after_lifting self.old.exclusions id }
        // It gives its minutes back, but for those that others take.
        ensures minutes { (value : Exclusion) (slo : List ℕ) (minute : ℕ)
            → exclusion_of self.old.exclusions id ≡ Some (value, true)
            → is_excluded self.old.exclusions slo minute
            ≡ (is_excluded self.new.exclusions slo minute || excludes slo minute (value, true)) }
        ensures spare { self.new.spare ≡ self.old.spare }
        ensures rows { self.new.rows ≡ self.old.rows }
        ensures room { self.new.room ≡ self.old.room }
        ensures history { Gains self.old (Changed (Lifted id)) self.new }
    {
        self.exclusions.lift(id);
    }

    /// The exclusion of an id, and whether it is live.
    pub fn exclusion(&self, id: Label) -> Option<(Exclusion, bool)>
        ensures { result ≡ exclusion_of self.now.exclusions id }
    {
        self.exclusions.find(id)
    }

    /// The exclusion at a place of the list, from 0, and whether it is live.
    pub fn exclusion_at(&self, place: u32) -> Option<(Exclusion, bool)>
        ensures { result ≡ slice_get self.now.exclusions place }
    {
        self.exclusions.at(place as usize)
    }

    /// Whether a live exclusion of the objective has the minute, by one search among the live ones.
    pub fn is_excluded(&self, slo: Label, minute: u32) -> bool
        ensures { result ≡ is_excluded self.now.exclusions slo minute }
    {
        self.exclusions.is_excluded(slo, minute)
    }

    /// The same for minutes near one another, as those of a walk over rows: most are told by the
    /// place where the look before ended, and the others by a search.
    pub fn excluded_near(&self, slo: Label, minute: u32, hint: &mut ExclusionHint) -> bool
        ensures { result ≡ is_excluded self.now.exclusions slo minute }
    {
        self.exclusions.excluded_near(slo, minute, hint)
    }

    /// Whether an exclusion of the objective is live: else none of its minutes is excluded.
    pub fn has_exclusions(&self, slo: Label) -> bool
        ensures { result ≡ false
            → (minute : ℕ) → is_excluded self.now.exclusions slo minute ≡ false }
    {
        self.exclusions.has_live(slo)
    }

    /// The first current row of an indicator, by a look-up.
    pub fn first_row(&self, sli: Label) -> Option<Row>
        ensures { result ≡ first_of self.now.rows sli }
    {
        first_of(&self.rows, &self.index, sli)
    }

    /// How many days have a current row of an indicator, by a look-up: day d is the minutes from
    /// d * 1,440 on.
    pub fn days_of(&self, sli: Label) -> u32
        ensures { result ≡ length (days_with_rows self.now.rows sli) }
    {
        self.index.days_of(sli)
    }

    /// The place of the last row of an indicator.
    pub fn last_row(&self, sli: Label) -> Option<u32>
        ensures { result ≡ last_place (is_of sli) self.now.rows }
    {
        below(self.index.last_of(sli))
    }

    /// The place of the row before a row of the list, of the same indicator: from `last_row` on
    /// these lead to all rows of an indicator, from the last to the first.
    pub fn row_before(&self, place: u32) -> Option<u32>
        requires { place < length self.now.rows }
        ensures { (row : Row) → slice_get self.now.rows place ≡ Some row
            → result ≡ last_place (is_of row.sli) (take place self.now.rows) }
    {
        below(self.index.before(place as usize))
    }

    /// The place of the last row of an indicator on a day: day d is the minutes from d * 1,440 on.
    pub fn last_row_on(&self, sli: Label, day: u32) -> Option<u32>
        ensures { result ≡ last_place (is_on sli day) self.now.rows }
    {
        below(self.index.last_on_day(sli, day))
    }

    /// The place of the row before a row of the list, of the same indicator and day.
    pub fn row_before_on(&self, place: u32) -> Option<u32>
        requires { place < length self.now.rows }
        ensures { (row : Row) → slice_get self.now.rows place ≡ Some row
            → result ≡ last_place (is_on row.sli (row.minute / MINUTES_A_DAY))
            (take place self.now.rows) }
    {
        below(self.index.before_on_day(place as usize))
    }

    /// The sums of good and total over the current rows of an indicator at a minute, before
    /// exclusion.
    /// Only the rows of its day are looked at.
    pub fn counts_at(
        &self,
        sli: Label,
        reading: Reading,
        op: Op,
        value: Decimal,
        minute: u32,
    ) -> Counts
        requires form { HaveForm reading self.now.rows sli minute }
        requires few { length self.now.rows ≤ MAX_SUMMED_ROWS }
        ensures counts { result ≡ counts_of_minute reading op value self.now.rows sli minute }
        ensures part { result.good ≤ result.total }
        ensures few { AllByRecursion IsSmallRow self.now.rows
            → result.total ≤ MAX_AMOUNT * length self.now.rows }
    {
        counts_at(&self.rows, &self.index, sli, reading, op, value, minute)
    }

    /// What a minute counts for in an objective: nothing where the minute is excluded for it, else
    /// the sums over the current rows of its indicator.
    pub fn counted_at(
        &self,
        slo: Label,
        sli: Label,
        reading: Reading,
        op: Op,
        value: Decimal,
        minute: u32,
    ) -> Counts
        requires form { HaveForm reading self.now.rows sli minute }
        requires few { length self.now.rows ≤ MAX_SUMMED_ROWS }
        ensures counts { result ≡ counted_in_minute reading op value self.now.exclusions
            self.now.rows slo sli minute }
        ensures part { result.good ≤ result.total }
        ensures few { AllByRecursion IsSmallRow self.now.rows
            → result.total ≤ MAX_AMOUNT * length self.now.rows }
    {
        if self.is_excluded(slo, minute) {
            return Counts { good: 0, total: 0 };
        }
        self.counts_at(sli, reading, op, value, minute)
    }
}

/// A place, where a link is one more than it.
fn below(link: u32) -> Option<u32>
    ensures { result ≡ below link }
{
    match link {
        0 => None,
        _ => Some(link - 1),
    }
}
