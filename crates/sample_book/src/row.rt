//! Rows and their cells.
ghost use Rattle.std.specs.Prelude.{◌≡◌};
ghost use Rattle.sample_book.specs.Rows.{cell_of, verdict_on};

use cell_index::Cell;
use exact_fraction::Label;
use slice_method::Amount;
use std::cmp::Ordering;

/// A sample: what a source says of one minute of an indicator.
#[derive(Clone, Copy, PartialEq, Eq)]
pub struct Row {
    pub sli: Label,
    pub source: Label,
    /// Minutes since 1970-01-01T00:00Z.
    pub minute: u32,
    /// A greater revision takes the place of a lower one.
    pub revision: u32,
    pub amount: Amount,
}

/// How an arriving row stands to the current row of its cell.
#[derive(Clone, Copy, PartialEq, Eq)]
pub enum RowVerdict {
    /// The cell has no row.
    New,
    /// The cell's row has a lower revision; the old row.
    Newer(Row),
    /// The cell's row has the same revision and amount.
    Repeated,
    /// The cell's row has a greater revision; that revision.
    Superseded(u32),
    /// The cell's row has the same revision and another amount; the kept row.
    Conflict(Row),
}

impl Row {
    /// The cell that the row is about.
    pub fn cell(&self) -> Cell
        ensures { result ≡ cell_of self.now }
    {
        Cell {
            sli: self.sli,
            source: self.source,
            minute: self.minute,
        }
    }

    /// What becomes of a row that arrives where this one is kept.
    pub(crate) fn verdict_on(&self, row: &Row) -> RowVerdict
        ensures { result ≡ verdict_on self.now row.now }
    {
        match row.revision.cmp(&self.revision) {
            Ordering::Greater => RowVerdict::Newer(*self),
            Ordering::Less => RowVerdict::Superseded(self.revision),
            Ordering::Equal if self.amount == row.amount => RowVerdict::Repeated,
            Ordering::Equal => RowVerdict::Conflict(*self),
        }
    }
}
