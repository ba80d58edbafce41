//! Where the cells of an indicator stand, and those of an indicator on a day.
ghost use Rattle.std.specs.Prelude.{◌/◌, ◌≡◌, ◌<◌, ◌≤◌, ◌+◌, ◌++◌, ◌∷◌, [], ℕ, List, Some, OnOk};
ghost use Rattle.std.specs.Prelude.{length, slice_get, take};
ghost use Rattle.std.specs.List.{position};
ghost use Rattle.slo_limits.specs.declared.TheConstants.{MINUTES_A_DAY};
ghost use Rattle.cell_index.specs.Cells.{days_with_cells, is_cell_of, is_cell_on};
ghost use Rattle.cell_index.specs.Chains.{IsIndexed, IsReadyFor, last};

use crate::cell::Cell;
use crate::chains::{Chains, Group};
use crate::extents::Extents;
use exact_fraction::Label;
use slo_limits::MINUTES_A_DAY;
use std::alloc::{AllocError, Global};

/// The way along the cells of an indicator, and along those of each of its days.
#[derive(Drop)]
pub struct CellIndex {
    /// By indicator and day.
    pub(crate) days: Chains,
    /// By indicator alone: each group has the day 0.
    pub(crate) slis: Chains,
    /// Of each indicator its first cell, and on how many days it has cells.
    pub(crate) extents: Extents,
}

impl CellIndex {
    /// Of no cells.
    pub fn new(alloc: Global) -> CellIndex
        ensures indexed { IsIndexed [] result }
        ensures ready { IsReadyFor 0 result }
    {
        CellIndex {
            days: Chains::new(alloc),
            slis: Chains::new(alloc),
            extents: Extents::new(alloc),
        }
    }

    /// One more than the place of the last cell of an indicator on a day, or 0.
    pub fn last_on_day(&self, sli: Label, day: u32) -> u32
        ensures { (cells : List Cell) → IsIndexed cells self.now
            → result ≡ last (is_cell_on sli day) cells }
    {
        self.days.last(Group { name: sli, day })
    }

    /// The same of the cells before a place, for the indicator and day of the cell there.
    pub fn before_on_day(&self, place: usize) -> u32
        requires { (cells : List Cell) × IsIndexed cells self.now × (place < length cells) }
        ensures { (cells : List Cell) (cell : Cell) → IsIndexed cells self.now
            → slice_get cells place ≡ Some cell
            → result ≡ last (is_cell_on cell.sli (cell.minute / MINUTES_A_DAY)) (take place cells) }
    {
        self.days.before(place)
    }

    /// One more than the place of the last cell of an indicator, or 0.
    pub fn last_of(&self, sli: Label) -> u32
        ensures { (cells : List Cell) → IsIndexed cells self.now
            → result ≡ last (is_cell_of sli) cells }
    {
        self.slis.last(Group { name: sli, day: 0 })
    }

    /// The same of the cells before a place, for the indicator of the cell there.
    pub fn before(&self, place: usize) -> u32
        requires { (cells : List Cell) × IsIndexed cells self.now × (place < length cells) }
        ensures { (cells : List Cell) (cell : Cell) → IsIndexed cells self.now
            → slice_get cells place ≡ Some cell
            → result ≡ last (is_cell_of cell.sli) (take place cells) }
    {
        self.slis.before(place)
    }

    /// The place of the first cell of an indicator.
    pub fn first_of(&self, sli: Label) -> Option<u32>
        ensures { (cells : List Cell) → IsIndexed cells self.now
            → result ≡ position (is_cell_of sli) cells }
    {
        self.extents.first_of(sli)
    }

    /// On how many days an indicator has cells.
    pub fn days_of(&self, sli: Label) -> u32
        ensures { (cells : List Cell) → IsIndexed cells self.now
            → result ≡ length (days_with_cells cells sli) }
    {
        self.extents.days_of(sli)
    }

    /// Makes room for so many cells more. The index stays that of its cells.
    pub fn reserve(&mut self, count: usize) -> Result<(), AllocError>
        ensures indexed { (cells : List Cell) → IsIndexed cells self.old
            → IsIndexed cells self.new }
        ensures ready { OnOk result (IsReadyFor count self.new) }
        ensures stays { (fewer : ℕ) → IsReadyFor fewer self.old → IsReadyFor fewer self.new }
    {
        self.days.reserve(count)?;
        self.slis.reserve(count)?;
        self.extents.reserve(count)
    }

    /// Adds a cell behind the others, with no memory.
    pub fn push(&mut self, cell: &Cell)
        requires ready { IsReadyFor 1 self.old }
        requires few { (cells : List Cell) × IsIndexed cells self.old
            × (length cells < 4294967295) }
        ensures indexed { (cells : List Cell) → IsIndexed cells self.old
            → IsIndexed (cells ++ cell.now ∷ []) self.new }
        ensures ready { (count : ℕ) → IsReadyFor (count + 1) self.old → IsReadyFor count self.new }
    {
        let place = self.slis.len();
        let before = self.days.push(Group {
            name: cell.sli,
            day: cell.minute / MINUTES_A_DAY,
        });
        self.slis.push(Group {
            name: cell.sli,
            day: 0,
        });
        if before == 0 {
            self.extents.add_day(cell.sli, place);
        }
    }
}
