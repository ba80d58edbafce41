//! Cells in the order in which they came, small for many cells: a name is kept once, a pair of an
//! indicator and a source has a number, and a cell is that number and a minute.
ghost use Rattle.std.specs.Prelude.{◌≡◌, ◌<◌, ◌≤◌, [], None, Some, IfSome, IfNone};
ghost use Rattle.std.specs.Prelude.{All, IfOk, OnOk, OnErr, length, slice_get, take};
ghost use Rattle.std.specs.List.{position};
ghost use Rattle.cell_index.specs.Cells.{cell_eq, with_cell};
ghost use Rattle.cell_index.specs.Keys.{HasNoKey, IsKeyOf, IsNamed, cell_named};
ghost use Rattle.cell_index.specs.Pairs.{IsLonger};

use crate::cell::Cell;
use crate::pairs::PairTable;
use crate::places::Places;
use std::alloc::{AllocError, Global};
use std::marker::Model;

/// A cell by the number of its pair.
#[derive(Clone, Copy, PartialEq, Eq, Hash)]
pub(crate) struct Key {
    pub(crate) pair: u32,
    pub(crate) minute: u32,
}

/// Cells in the order in which they came. Contracts see the list.
#[derive(Drop)]
pub struct Cells {
    pairs: PairTable,
    keys: Places,
    /// So many cells had so many pairs when the others were forgotten last: where what was added
    /// since is forgotten again, its pairs are too.
    settled: usize,
    settled_pairs: usize,
}

impl Model for Cells {
    ghost use Rattle.std.specs.Prelude.{List, map};
    ghost use Rattle.cell_index.specs.Cells.{cell_eq, with_cell};
    ghost use Rattle.cell_index.specs.Keys.{AreKnown, cell_named};
    ghost use Rattle.cell_index.specs.declared.cell.Cell.{Cell};

    ghost Value = { List Cell };

    ghost view = { λ a. map (cell_named a.pairs) a.keys };

    ghost invariant = { λ a. AreKnown a.pairs a.keys a.settled a.settled_pairs };
}

impl Cells {
    /// No cells.
    pub fn new(alloc: Global) -> Cells
        ensures { result ≡ [] }
    {
        Cells {
            pairs: PairTable::new(alloc),
            keys: Places::new(alloc),
            settled: 0,
            settled_pairs: 0,
        }
    }

    /// How many cells there are.
    pub fn len(&self) -> usize
        ensures { result ≡ length self.now }
    {
        self.keys.len()
    }

    /// Where a cell stands.
    pub fn find(&self, cell: &Cell) -> Option<usize>
        ensures { result ≡ position (cell_eq cell.now) self.now }
    {
        match key_of(&self.pairs, cell) {
            Some(key) => self.keys.find(&key),
            None => None,
        }
    }

    /// The cell at a place.
    pub fn at(&self, place: usize) -> Cell
        requires { place < length self.now }
        ensures { slice_get self.now place ≡ Some result }
    {
        let key = self.keys.at(place);
        named_cell(&self.pairs, &key)
    }

    /// Forgets the cells from a place on, with the pairs and names that only they have.
    pub fn truncate(&mut self, count: usize)
        ensures { self.new ≡ take count self.old }
    {
        let count = count.min(self.keys.len());
        let pairs = pairs_of(&self.keys, self.settled, count, self.settled_pairs);
        self.keys.truncate(count);
        self.pairs.truncate(pairs);
        self.settled = count;
        self.settled_pairs = pairs;
    }

    /// Adds a cell behind the others unless it is there, and answers where it was.
    pub fn add_new(&mut self, cell: &Cell) -> Result<Option<usize>, AllocError>
        ensures ok { OnOk result (self.new ≡ with_cell self.old cell.now) }
        ensures place { IfOk result (λ place. place ≡ position (cell_eq cell.now) self.old) }
        ensures err { OnErr result (self.new ≡ self.old) }
    {
        let key = give_key(&mut self.pairs, cell)?;
        match self.keys.find(&key) {
            Some(place) => Ok(Some(place)),
            None => {
                self.keys.add(&key)?;
                Ok(None)
            }
        }
    }
}

/// The key of a cell whose pair came.
fn key_of(pairs: &PairTable, cell: &Cell) -> Option<Key>
    ensures known { IfSome result (IsKeyOf pairs.now cell.now) }
    ensures unknown { IfNone result (HasNoKey pairs.now cell.now) }
{
    let pair = pairs.find(cell)?;
    Some(Key {
        pair,
        minute: cell.minute,
    })
}

/// The key of a cell whose pair gets a number where it has none.
fn give_key(pairs: &mut PairTable, cell: &Cell) -> Result<Key, AllocError>
    ensures longer { IsLonger pairs.old pairs.new }
    ensures key { IfOk result (IsKeyOf pairs.new cell.now) }
{
    let pair = pairs.number(cell)?;
    Ok(Key {
        pair,
        minute: cell.minute,
    })
}

/// The cell of a key.
fn named_cell(pairs: &PairTable, key: &Key) -> Cell
    requires { IsNamed (length pairs.now) key.now }
    ensures { result ≡ cell_named pairs.now key.now }
{
    let pair = pairs.pair(key.pair);
    Cell {
        sli: pair.sli,
        source: pair.source,
        minute: key.minute,
    }
}

/// How many of the pairs the first keys have, where the first of them have so many.
fn pairs_of(keys: &Places, from: usize, count: usize, pairs: usize) -> usize
    requires settled { All (IsNamed pairs) (take from keys.now) }
    requires within { count ≤ length keys.now }
    ensures { All (IsNamed result) (take count keys.now) }
{
    let mut pairs = pairs;
    for place in from..count {
        pairs = pairs.max(keys.at(place).pair as usize + 1);
    }
    pairs
}
