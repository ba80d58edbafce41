//! Pairs of an indicator and a source, numbered in the order in which they came.
ghost use Rattle.std.specs.Prelude.{◌≡◌, ◌<◌, ◌≤◌, [], All, length, take, true};
ghost use Rattle.std.specs.Prelude.{IfNone, IfOk, IfSome, OnErr, OnOk, Some};
ghost use Rattle.std.specs.List.{IsDistinct, position};
ghost use Rattle.name_numbers.specs.Names.{IsGrown};
ghost use Rattle.cell_index.specs.Pairs.{AreNumbersOf, HasNoNumbers, HaveNames, IsLonger};
ghost use Rattle.cell_index.specs.Pairs.{numbers_eq, pair_at, pair_eq, pair_named, pair_of};
ghost use Rattle.cell_index.specs.Pairs.{pairs_with};

use crate::cell::Cell;
use crate::turns::Turns;
use exact_fraction::Label;
use indexmap::IndexSet;
use name_numbers::NameTable;
use std::alloc::{AllocError, Global};
use std::marker::Model;

/// A number of a pair is a `u32`.
const MOST_PAIRS: usize = 4_294_967_296;

/// An indicator and a source.
#[derive(Clone, Copy)]
pub(crate) struct Pair {
    pub(crate) sli: Label,
    pub(crate) source: Label,
}

/// A pair by the numbers of its names.
#[derive(Clone, Copy, PartialEq, Eq, Hash)]
pub(crate) struct Numbers {
    pub(crate) sli: u32,
    pub(crate) source: u32,
}

/// Pairs by their numbers, which count from 0 in the order in which the pairs came. A name is kept
/// once, however many pairs have it. Contracts see the list.
#[derive(Drop)]
pub(crate) struct PairTable {
    slis: NameTable,
    sources: NameTable,
    pairs: IndexSet<Numbers>,
    turns: Turns,
}

impl Model for PairTable {
    ghost use Rattle.std.specs.Prelude.{List, map};
    ghost use Rattle.cell_index.specs.Pairs.{ArePaired, pair_named};
    ghost use Rattle.cell_index.specs.declared.pairs.Pair.{Pair};

    ghost Value = { List Pair };

    ghost view = { λ a. map (pair_named a.slis a.sources) a.pairs.keys };

    ghost invariant = { λ a. ArePaired a.slis a.sources a.pairs.keys };
}

impl PairTable {
    /// No pairs.
    pub(crate) fn new(alloc: Global) -> PairTable
        ensures { result ≡ [] }
    {
        PairTable {
            slis: NameTable::new(alloc),
            sources: NameTable::new(alloc),
            pairs: IndexSet::new(alloc),
            turns: Turns::new(alloc),
        }
    }

    /// The number of a cell's pair, where it has one.
    pub(crate) fn find(&self, cell: &Cell) -> Option<u32>
        ensures number { result ≡ position (pair_eq (pair_of cell.now)) self.now }
        ensures distinct { IsDistinct pair_eq self.now }
    {
        match numbers_of(&self.slis, &self.sources, cell) {
            Some(numbers) => place_of(&self.pairs, self.turns.next(), &numbers),
            None => None,
        }
    }

    /// The pair of a number.
    pub(crate) fn pair(&self, number: u32) -> Pair
        requires { number < length self.now }
        ensures { result ≡ pair_at self.now number }
    {
        let numbers = *self.pairs.get_index(number as usize).unwrap();
        named_pair(&self.slis, &self.sources, &numbers)
    }

    /// The number of a cell's pair, which gets one where it has none.
    pub(crate) fn number(&mut self, cell: &Cell) -> Result<u32, AllocError>
        ensures longer { IsLonger self.old self.new }
        ensures number { IfOk result
            (λ number. position (pair_eq (pair_of cell.now)) self.new ≡ Some number) }
        ensures distinct { IsDistinct pair_eq self.new }
    {
        let numbers = give_numbers(&mut self.slis, &mut self.sources, cell)?;
        add_pair(&mut self.pairs, &mut self.turns, numbers)
    }

    /// Forgets the pairs from a number on, with the names that only they have.
    pub(crate) fn truncate(&mut self, count: usize)
        ensures { self.new ≡ take count self.old }
    {
        if self.pairs.len() <= count {
            return;
        }
        self.pairs.truncate(count);
        let (slis, sources) = names_of(self.pairs.as_slice());
        self.slis.truncate(slis);
        self.sources.truncate(sources);
    }
}

/// The numbers of a cell's names, where both have one.
fn numbers_of(slis: &NameTable, sources: &NameTable, cell: &Cell) -> Option<Numbers>
    ensures known { IfSome result (AreNumbersOf slis.now sources.now cell.now) }
    ensures unknown { IfNone result (HasNoNumbers slis.now sources.now cell.now) }
{
    let sli = slis.find(&cell.sli)?;
    let source = sources.find(&cell.source)?;
    Some(Numbers { sli, source })
}

/// The numbers of a cell's names, which get one where they have none.
fn give_numbers(
    slis: &mut NameTable,
    sources: &mut NameTable,
    cell: &Cell,
) -> Result<Numbers, AllocError>
    ensures slis { IsGrown slis.old slis.new }
    ensures sources { IsGrown sources.old sources.new }
    ensures numbers { IfOk result (AreNumbersOf slis.new sources.new cell.now) }
{
    let sli = slis.number(&cell.sli)?;
    let source = sources.number(&cell.source)?;
    Ok(Numbers { sli, source })
}

/// The pair of two numbers.
fn named_pair(slis: &NameTable, sources: &NameTable, numbers: &Numbers) -> Pair
    requires { HaveNames (length slis.now) (length sources.now) numbers.now }
    ensures { result ≡ pair_named slis.now sources.now numbers.now }
{
    Pair {
        sli: slis.name(numbers.sli),
        source: sources.name(numbers.source),
    }
}

/// Whether a pair has the number that was guessed.
fn is_at(pairs: &IndexSet<Numbers>, guess: u32, numbers: &Numbers) -> bool
    ensures { result ≡ true → position (numbers_eq numbers.now) pairs.now.keys ≡ Some guess }
{
    if pairs.len() <= guess as usize {
        return false;
    }
    match pairs.get_index(guess as usize) {
        Some(there) => *there == *numbers,
        None => false,
    }
}

/// The number of a pair: the guess, or by a look-up.
fn place_of(pairs: &IndexSet<Numbers>, guess: u32, numbers: &Numbers) -> Option<u32>
    requires { length pairs.now.keys ≤ MOST_PAIRS }
    ensures { result ≡ position (numbers_eq numbers.now) pairs.now.keys }
{
    if is_at(pairs, guess, numbers) {
        return Some(guess);
    }
    let place = pairs.get_index_of(numbers)?;
    Some(place as u32)
}

/// The number of a pair, which comes behind the others where it has none.
fn add_pair(
    pairs: &mut IndexSet<Numbers>,
    turns: &mut Turns,
    numbers: Numbers,
) -> Result<u32, AllocError>
    requires { length pairs.old.keys ≤ MOST_PAIRS }
    ensures number { IfOk result
        (λ number. position (numbers_eq numbers) pairs.new.keys ≡ Some number) }
    ensures ok { OnOk result (pairs.new.keys ≡
        pairs_with (position (numbers_eq numbers) pairs.old.keys) pairs.old.keys numbers) }
    ensures err { OnErr result (pairs.new.keys ≡ pairs.old.keys) }
    ensures few { length pairs.new.keys ≤ MOST_PAIRS }
{
    if let Some(number) = place_of(pairs, turns.next(), &numbers) {
        turns.note(number);
        return Ok(number);
    }
    let count = pairs.len();
    if count >= MOST_PAIRS || turns.make_place(count).is_err() {
        return Err(AllocError);
    }
    match pairs.insert_full(numbers) {
        Ok(_) => {
            turns.note(count as u32);
            Ok(count as u32)
        }
        Err(_) => Err(AllocError),
    }
}

/// How many of the names some pairs have.
fn names_of(pairs: &[Numbers]) -> (usize, usize)
    ensures { All (HaveNames result.0 result.1) pairs.now }
{
    let mut slis: usize = 0;
    let mut sources: usize = 0;
    for pair in pairs {
        slis = slis.max(pair.sli as usize + 1);
        sources = sources.max(pair.source as usize + 1);
    }
    (slis, sources)
}
