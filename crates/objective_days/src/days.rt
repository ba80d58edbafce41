//! The days that rows bring to a book.
ghost use Rattle.std.specs.Prelude.{◌≡◌, ◌<◌, ◌≤◌, ◌+◌, ◌/◌, ◌||◌, List, true, IfOk, OnOk};
ghost use Rattle.std.specs.Prelude.{length, take};
ghost use Rattle.std.specs.List.{list_any};
ghost use Rattle.slo_limits.specs.declared.TheConstants.{MINUTES_A_DAY};
ghost use Rattle.cell_index.specs.Cells.{is_cell_on};
ghost use Rattle.cell_index.specs.Chains.{IsIndexed};
ghost use Rattle.cell_index.specs.declared.Cell.{Cell};
ghost use Rattle.sample_book.specs.LastRows.{is_on};
ghost use Rattle.objective_days.specs.Days.{BringDays, has_day};

use cell_index::CellIndex;
use exact_fraction::Label;
use sample_book::{Row, SampleBook};
use slo_limits::MINUTES_A_DAY;
use std::alloc::{AllocError, Global};

/// More rows than this aren't looked at: a place in an index is a `u32`.
const MOST_ROWS: usize = 4_294_967_294;

/// Whether a current row of the indicator lies on the day.
fn has_row_on(book: &SampleBook, sli: Label, day: u32) -> bool
    ensures { result ≡ has_day sli book.now.rows day }
{
    book.last_row_on(sli, day).is_some()
}

/// Whether a cell of the index is of the indicator, on the day.
fn has_cell_on(new: &CellIndex, sli: Label, day: u32) -> bool
    ensures { (cells : List Cell) → IsIndexed cells new.now
        → result ≡ list_any (is_cell_on sli day) cells }
{
    0 < new.last_on_day(sli, day)
}

/// Whether a row lies on another's day, and is of its indicator.
fn is_of_day(before: &Row, row: &Row) -> bool
    ensures { result ≡ is_on row.now.sli (row.now.minute / MINUTES_A_DAY) before.now }
{
    before.sli == row.sli && before.minute / MINUTES_A_DAY == row.minute / MINUTES_A_DAY
}

/// Whether the row before a place lies on this one's day, and is of its indicator.
fn is_day_of_last(rows: &[Row], place: usize, row: &Row) -> bool
    requires { place ≤ length rows.now }
    ensures { result ≡ true → has_day row.now.sli (take place rows.now)
        (row.now.minute / MINUTES_A_DAY) ≡ true }
{
    if place == 0 {
        return false;
    }
    is_of_day(&rows[place - 1], row)
}

/// Whether a row of the book or a cell of the index is of the indicator, on the day.
fn is_known(book: &SampleBook, new: &CellIndex, sli: Label, day: u32) -> bool
    ensures { (cells : List Cell) → IsIndexed cells new.now
        → result ≡ (has_day sli book.now.rows day || list_any (is_cell_on sli day) cells) }
{
    let of_book = has_row_on(book, sli, day);
    let of_index = has_cell_on(new, sli, day);
    of_book | of_index
}

/// Adds the cell of a row to those of the days that the rows before it brought, where the row
/// brings one more.
fn bring(
    book: &SampleBook,
    rows: &[Row],
    place: usize,
    new: &mut CellIndex,
) -> Result<(), AllocError>
    requires within { place < length rows.now }
    requires few { length rows.now < 4294967295 }
    requires brought { BringDays book.now.rows (take place rows.now) new.old }
    ensures { OnOk result (BringDays book.now.rows (take (place + 1) rows.now) new.new) }
{
    let row = rows[place];
    if is_day_of_last(rows, place, &row) {
        return Ok(());
    }
    if is_known(book, new, row.sli, row.minute / MINUTES_A_DAY) {
        return Ok(());
    }
    new.reserve(1)?;
    new.push(&row.cell());
    Ok(())
}

/// The days that rows bring: a cell of each indicator and day that has none of the book's rows.
pub(crate) fn new_days(
    alloc: Global,
    book: &SampleBook,
    rows: &[Row],
) -> Result<CellIndex, AllocError>
    ensures { IfOk result (λ new. BringDays book.now.rows rows.now new) }
{
    if MOST_ROWS < rows.len() {
        return Err(AllocError);
    }
    let mut new = CellIndex::new(alloc);
    for place in 0..rows.len() {
        bring(book, rows, place, &mut new)?;
    }
    Ok(new)
}
