//! The current rows, and room for the rows of further cells.
ghost use Rattle.std.specs.Prelude.{List, ◌+◌, ◌≤◌, ◌≡◌, ◌≢◌, ◌<◌, ◌++◌, []};
ghost use Rattle.std.specs.Prelude.{false, Some, IfSome, IfNone, OnOk, OnErr, length, slice_get};
ghost use Rattle.std.specs.Prelude.{IfOk, drop as drop_list, take, true};
ghost use Rattle.std.specs.List.{list_any, position};
ghost use Rattle.sample_book.specs.History.{MayComeAs, is_put, room_after, rows_after};
ghost use Rattle.sample_book.specs.Puts.{IsPutInto, later_of};
ghost use Rattle.sample_book.specs.Rows.{cell_of, current_rows, kept_of};
ghost use Rattle.cell_index.specs.Cells.{cell_eq};
ghost use Rattle.sample_book.specs.Rows.{new_cells, room_for, row_of_cell, verdict_of};
ghost use Rattle.sample_book.specs.Rows.{verdict_where};
ghost use Rattle.sample_book.specs.Standing.{IsInStep, row_stored, rows_stored};

use crate::row::{Row, RowVerdict};
use crate::stored::Stored;
use crate::stored_rows::StoredRows;
use cell_index::{Cell, Cells};
use std::alloc::{AllocError, Global};
use std::marker::Model;

/// A place in the list is a `u32`.
const MOST_CELLS: usize = 4_294_967_295;

/// The current row of each cell alone, for a caller that takes rows one after another and asks for
/// no day. Contracts see the rows, and the cells that have room for a row.
#[derive(Drop)]
pub struct CurrentRows {
    /// The cells with rows, and behind them those with room.
    cells: Cells,
    /// What the rows say, in the order of their cells.
    stored: StoredRows,
}

impl Model for CurrentRows {
    ghost use Rattle.sample_book.specs.Standing.{IsInStep, Standing, standing_of};

    ghost Value = { Standing };

    ghost view = { λ a. standing_of a.cells a.stored.rows };

    ghost invariant = { λ a. IsInStep a.cells a.stored.rows a.stored.capacity };
}

impl CurrentRows {
    /// No rows.
    pub fn new(alloc: Global) -> CurrentRows
        ensures rows { result.rows ≡ [] }
        ensures room { result.room ≡ [] }
    {
        CurrentRows {
            cells: Cells::new(alloc),
            stored: StoredRows::new(alloc),
        }
    }

    /// The row at a place of the list, from 0.
    pub fn at(&self, place: usize) -> Option<Row>
        ensures { result ≡ slice_get self.now.rows place }
    {
        if place < self.stored.len() {
            Some(self.row(place))
        } else {
            None
        }
    }

    /// The row at a place that is in the list.
    pub(crate) fn row(&self, place: usize) -> Row
        requires { place < length self.now.rows }
        ensures { slice_get self.now.rows place ≡ Some result }
    {
        row_stored(&self.cells.at(place), &self.stored.at(place))
    }

    /// The row of a cell.
    pub(crate) fn of_cell(&self, cell: &Cell) -> Option<Row>
        ensures { result ≡ row_of_cell self.now.rows cell.now }
    {
        match kept_place(&self.cells, self.stored.len(), cell) {
            Some(place) => Some(row_stored(&self.cells.at(place), &self.stored.at(place))),
            None => None,
        }
    }

    /// The row that is kept of a row's cell.
    fn kept(&self, row: &Row) -> Option<Row>
        ensures { result ≡ kept_of self.now.rows row.now }
    {
        self.of_cell(&row.cell())
    }

    /// What becomes of an arriving row.
    pub(crate) fn check(&self, row: &Row) -> RowVerdict
        ensures { result ≡ verdict_of self.now.rows row.now }
    {
        verdict_where(self.kept(row), row)
    }

    /// What becomes of a row that arrives behind others, of which these are the current ones.
    pub(crate) fn check_after(&self, others: &CurrentRows, row: &Row) -> RowVerdict
        ensures { (came : List Row) → others.now.rows ≡ current_rows came
            → result ≡ verdict_of (current_rows (self.now.rows ++ came)) row.now }
    {
        self.are_current();
        verdict_where(later_of(self.kept(row), others.kept(row)), row)
    }

    /// How many rows there are, one for each cell.
    pub fn len(&self) -> u32
        ensures count { result ≡ length self.now.rows }
        ensures few { length self.now.rows ≤ MOST_CELLS }
    {
        self.stored.len() as u32
    }

    /// No cell has two rows.
    pub(crate) fn are_current(&self)
        ensures { current_rows self.now.rows ≡ self.now.rows }
    {
        let _count = self.stored.len();
    }

    /// A row comes: it is put where it is new or newer, with no memory. It is looked up once.
    pub(crate) fn take(&mut self, row: &Row)
        requires { MayComeAs (verdict_of self.old.rows row.now) self.old.room (cell_of row.now) }
        ensures rows { self.new.rows ≡ rows_after self.old.rows row.now }
        ensures placed { is_put (verdict_of self.old.rows row.now) ≡ true
            → IsPutInto self.old.rows row.now (verdict_of self.old.rows row.now) self.new.rows }
        ensures room { self.new.room ≡ room_after (verdict_of self.old.rows row.now) self.old.room }
    {
        match kept_place(&self.cells, self.stored.len(), &row.cell()) {
            Some(place) => {
                renew(&self.cells, &mut self.stored, place, row);
            }
            None => append(&self.cells, &mut self.stored, row),
        }
    }

    /// A row comes, and it is put where it is new or newer; what becomes of it. It is looked up
    /// once. Nothing has room then.
    ///
    /// # Errors
    ///
    /// `AllocError` where memory runs out. The rows are what they were.
    pub fn arrive(&mut self, row: &Row) -> Result<RowVerdict, AllocError>
        ensures verdict { IfOk result (λ verdict. verdict ≡ verdict_of self.old.rows row.now) }
        ensures rows { OnOk result (self.new.rows ≡ rows_after self.old.rows row.now) }
        ensures placed { IfOk result (λ verdict. is_put verdict ≡ true
            → IsPutInto self.old.rows row.now verdict self.new.rows) }
        ensures err { OnErr result (self.new.rows ≡ self.old.rows) }
    {
        release(&mut self.cells, self.stored.len());
        reserve(&mut self.stored, 1)?;
        match self.cells.add_new(&row.cell()) {
            Ok(Some(place)) => Ok(renew(&self.cells, &mut self.stored, place, row)),
            Ok(None) => {
                append(&self.cells, &mut self.stored, row);
                Ok(RowVerdict::New)
            }
            Err(refused) => Err(refused),
        }
    }

    /// Takes the room away.
    pub(crate) fn release_room(&mut self)
        ensures rows { self.new.rows ≡ self.old.rows }
        ensures room { self.new.room ≡ [] }
    {
        self.cells.truncate(self.stored.len());
    }

    /// Gives room to the cells of these rows that have no row, and to no others.
    pub(crate) fn make_room(&mut self, rows: &[Row]) -> Result<(), AllocError>
        ensures rows { self.new.rows ≡ self.old.rows }
        ensures room { OnOk result (self.new.room ≡ room_for self.old.rows rows.now) }
        ensures none { OnErr result (self.new.room ≡ []) }
    {
        let filled = self.stored.len();
        self.cells.truncate(filled);
        reserve(&mut self.stored, rows.len())?;
        match add_cells(&mut self.cells, rows) {
            Ok(()) => Ok(()),
            Err(refused) => {
                self.cells.truncate(filled);
                Err(refused)
            }
        }
    }
}

/// Forgets the cells that have room.
fn release(cells: &mut Cells, filled: usize)
    ensures { cells.new ≡ take filled cells.old }
{
    if filled < cells.len() {
        cells.truncate(filled);
    }
}

/// What is stored of a row.
fn stored_of(row: &Row) -> Stored
    ensures { result ≡ record { revision = row.now.revision; amount = row.now.amount } }
{
    Stored {
        revision: row.revision,
        amount: row.amount,
    }
}

/// A row comes whose cell has its row at this place.
fn renew(cells: &Cells, stored: &mut StoredRows, place: usize, row: &Row) -> RowVerdict
    requires step { IsInStep cells.now stored.old.rows stored.old.capacity }
    requires within { place < length stored.old.rows }
    requires there { position (cell_eq (cell_of row.now)) cells.now ≡ Some place }
    ensures verdict { result ≡ verdict_of (rows_stored cells.now stored.old.rows) row.now }
    ensures known { verdict_of (rows_stored cells.now stored.old.rows) row.now ≢ RowVerdict.New }
    ensures count { length stored.new.rows ≡ length stored.old.rows }
    ensures rows { rows_stored cells.now stored.new.rows
        ≡ rows_after (rows_stored cells.now stored.old.rows) row.now }
    ensures step { IsInStep cells.now stored.new.rows stored.new.capacity }
{
    let kept = row_stored(&cells.at(place), &stored.at(place));
    let verdict = kept.verdict_on(row);
    if is_put(&verdict) {
        stored.set(place, stored_of(row));
    }
    verdict
}

/// A row comes whose cell is the first one behind those that have rows.
fn append(cells: &Cells, stored: &mut StoredRows, row: &Row)
    requires step { IsInStep cells.now stored.old.rows stored.old.capacity }
    requires first { slice_get (drop_list (length stored.old.rows) cells.now) 0
        ≡ Some (cell_of row.now) }
    requires absent { list_any (cell_eq (cell_of row.now))
        (take (length stored.old.rows) cells.now) ≡ false }
    ensures new { verdict_of (rows_stored cells.now stored.old.rows) row.now ≡ RowVerdict.New }
    ensures count { length stored.new.rows ≡ length stored.old.rows + 1 }
    ensures rows { rows_stored cells.now stored.new.rows
        ≡ rows_after (rows_stored cells.now stored.old.rows) row.now }
    ensures step { IsInStep cells.now stored.new.rows stored.new.capacity }
{
    stored.push(stored_of(row));
}

/// Makes room behind what is stored, where each place is a `u32`.
fn reserve(stored: &mut StoredRows, more: usize) -> Result<(), AllocError>
    ensures rows { stored.new.rows ≡ stored.old.rows }
    ensures capacity { stored.old.capacity ≤ stored.new.capacity }
    ensures ok { OnOk result (length stored.old.rows + more ≤ stored.new.capacity) }
    ensures few { OnOk result (length stored.old.rows + more ≤ MOST_CELLS) }
{
    if MOST_CELLS < stored.len() || MOST_CELLS - stored.len() < more {
        return Err(AllocError);
    }
    stored.reserve(more)
}

/// Where a cell stands among the first cells, which have rows.
fn kept_place(cells: &Cells, filled: usize, cell: &Cell) -> Option<usize>
    ensures within { IfSome result (λ place. place < filled) }
    ensures there { IfSome result (λ place. position (cell_eq cell.now) cells.now ≡ Some place) }
    ensures absent { IfNone result (list_any (cell_eq cell.now) (take filled cells.now) ≡ false) }
{
    let place = cells.find(cell)?;
    if place < filled { Some(place) } else { None }
}

/// Adds the cells of these rows that aren't there.
fn add_cells(cells: &mut Cells, rows: &[Row]) -> Result<(), AllocError>
    ensures ok { OnOk result (cells.new ≡ cells.old ++ new_cells cells.old rows.now) }
    ensures err { take (length cells.old) cells.new ≡ cells.old }
{
    for row in rows {
        cells.add_new(&row.cell())?;
    }
    Ok(())
}

/// What becomes of a row where one may be kept of its cell.
fn verdict_where(kept: Option<Row>, row: &Row) -> RowVerdict
    ensures { result ≡ verdict_where kept row.now }
{
    match kept {
        Some(kept) => kept.verdict_on(row),
        None => RowVerdict::New,
    }
}

/// Of a kept row and a later one of its cell the one that counts.
fn later_of(kept: Option<Row>, later: Option<Row>) -> Option<Row>
    ensures { result ≡ later_of kept later }
{
    match kept {
        Some(kept) => Some(newer_of(kept, later)),
        None => later,
    }
}

/// Of a row that is kept and one that may come later the one that counts.
fn newer_of(kept: Row, later: Option<Row>) -> Row
    ensures { later_of (Some kept) later ≡ Some result }
{
    match later {
        Some(later) if kept.revision < later.revision => later,
        _ => kept,
    }
}

/// Whether a row of this verdict is put.
fn is_put(verdict: &RowVerdict) -> bool
    ensures { result ≡ is_put verdict.now }
{
    match verdict {
        RowVerdict::New | RowVerdict::Newer(_) => true,
        RowVerdict::Repeated | RowVerdict::Superseded(_) | RowVerdict::Conflict(_) => false,
    }
}

/// The row of a cell, with what is stored for it.
fn row_stored(cell: &Cell, stored: &Stored) -> Row
    ensures { result ≡ row_stored cell.now stored.now }
{
    Row {
        sli: cell.sli,
        source: cell.source,
        minute: cell.minute,
        revision: stored.revision,
        amount: stored.amount,
    }
}
