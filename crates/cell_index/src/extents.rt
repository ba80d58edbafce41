//! Where the cells of an indicator begin, and on how many days it has some.
ghost use Rattle.std.specs.Prelude.{◌/◌, ◌≡◌, ◌<◌, ◌≤◌, ◌+◌, ◌++◌, ◌∷◌, [], ℕ, List, OnOk, length};
ghost use Rattle.std.specs.List.{position};
ghost use Rattle.slo_limits.specs.declared.TheConstants.{MINUTES_A_DAY};
ghost use Rattle.indexmap.specs.IndexMap.{spare};
ghost use Rattle.cell_index.specs.Cells.{days_with_cells, is_cell_of, is_cell_on};
ghost use Rattle.cell_index.specs.Chains.{last};
ghost use Rattle.cell_index.specs.Extents.{AreExtents};
ghost use Rattle.cell_index.specs.declared.cell.Cell.{Cell};

use exact_fraction::Label;
use indexmap::IndexMap;
use std::alloc::{AllocError, Global};

/// What is known of an indicator with cells.
#[derive(Clone, Copy)]
pub(crate) struct Extent {
    /// The place of its first cell.
    pub(crate) first: u32,
    /// On how many days it has cells.
    pub(crate) days: u32,
}

/// What is known of each indicator.
#[derive(Drop)]
pub(crate) struct Extents {
    pub(crate) known: IndexMap<Label, Extent>,
}

impl Extents {
    /// Of no cells.
    pub(crate) fn new(alloc: Global) -> Extents
        ensures { AreExtents [] result }
    {
        Extents {
            known: IndexMap::new(alloc),
        }
    }

    /// The place of the first cell of an indicator.
    pub(crate) fn first_of(&self, sli: Label) -> Option<u32>
        ensures { (cells : List Cell) → AreExtents cells self.now
            → result ≡ position (is_cell_of sli) cells }
    {
        match self.known.get(&sli) {
            Some(extent) => Some(extent.first),
            None => None,
        }
    }

    /// On how many days an indicator has cells.
    pub(crate) fn days_of(&self, sli: Label) -> u32
        ensures { (cells : List Cell) → AreExtents cells self.now
            → result ≡ length (days_with_cells cells sli) }
    {
        match self.known.get(&sli) {
            Some(extent) => extent.days,
            None => 0,
        }
    }

    /// Makes room for so many indicators more.
    pub(crate) fn reserve(&mut self, count: usize) -> Result<(), AllocError>
        ensures known { (cells : List Cell) → AreExtents cells self.old
            → AreExtents cells self.new }
        ensures ready { OnOk result (count ≤ spare self.new.known) }
        ensures stays { spare self.old.known ≤ spare self.new.known }
    {
        self.known.reserve(count)
    }

    /// Behind the others comes a cell that is the first of its indicator on its day. It takes no
    /// memory.
    pub(crate) fn add_day(&mut self, sli: Label, place: u32)
        requires room { 0 < spare self.old.known }
        requires few { place < 4294967295 }
        ensures known { (cells : List Cell) (cell : Cell) → AreExtents cells self.old
            → cell.sli ≡ sli → place ≡ length cells
            → last (is_cell_on sli (cell.minute / MINUTES_A_DAY)) cells ≡ 0
            → AreExtents (cells ++ cell ∷ []) self.new }
        ensures room { spare self.old.known ≤ spare self.new.known + 1 }
    {
        let extent = match self.known.get(&sli) {
            Some(extent) => Extent {
                first: extent.first,
                days: extent.days.saturating_add(1),
            },
            None => Extent {
                first: place,
                days: 1,
            },
        };
        self.known.insert(sli, extent).unwrap();
    }
}
