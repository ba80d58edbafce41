//! What is kept at a moment, and at its neighbours among the moments of its source.
ghost use Rattle.std.specs.Prelude.{◌≡◌, option_map, slice_get};
ghost use Rattle.counter_book.specs.Book.{slot_at};
ghost use Rattle.counter_book.specs.Differences.{before_of};
ghost use Rattle.counter_book.specs.Moves.{IsNext};
ghost use Rattle.counter_book.specs.Neighbours.{AreNear, AreTails, IsNoted};

use crate::reading::{Count, CounterReading, Kept, Moment, Neighbours, Tail, count_of_reading};
use std::collections::BTreeMap;
use std::ops::Bound;

/// What is kept at a moment.
fn look(kept: &BTreeMap<Moment, Kept>, source: u32, minute: u32) -> Option<Kept>
    ensures { result ≡ slot_at kept.now.entries source minute }
{
    match kept.get(&Moment { source, minute }) {
        Some(there) => Some(*there),
        None => None,
    }
}

/// What is kept at the greatest smaller minute of the source.
fn before(kept: &BTreeMap<Moment, Kept>, source: u32, minute: u32) -> Option<Kept>
    ensures { result ≡ before_of (slot_at kept.now.entries source) minute }
{
    match kept.range(..Moment { source, minute }).next_back() {
        Some((moment, there)) if moment.source == source => Some(*there),
        _ => None,
    }
}

/// The least greater minute of the source, with what is kept there.
fn next(kept: &BTreeMap<Moment, Kept>, source: u32, minute: u32) -> Option<(u32, Kept)>
    ensures { IsNext (slot_at kept.now.entries source) minute result }
{
    let from = Bound::Excluded(Moment { source, minute });
    match kept.range((from, Bound::Unbounded)).next() {
        Some((moment, there)) if moment.source == source => Some((moment.minute, *there)),
        _ => None,
    }
}

/// The counts of what is kept.
pub(crate) fn count_of(kept: Option<Kept>) -> Option<Count>
    ensures { result ≡ option_map (λ kept. kept.count) kept }
{
    match kept {
        None => None,
        Some(kept) => Some(kept.count),
    }
}

/// What is kept around a moment, by look-ups.
fn look_around(kept: &BTreeMap<Moment, Kept>, source: u32, minute: u32) -> Neighbours
    ensures { AreNear (slot_at kept.now.entries source) minute result }
{
    let earlier = before(kept, source, minute);
    let there = look(kept, source, minute);
    let behind = next(kept, source, minute);
    Neighbours {
        before: count_of(earlier),
        here: there,
        next: behind,
    }
}

/// The last reading of a source, where it is noted.
fn tail_at(tails: &[Tail], source: u32) -> Option<Tail>
    ensures { result ≡ slice_get tails.now source }
{
    tails.get(source as usize).copied()
}

/// What is kept around a moment. Readings mostly come behind all of their source, whose last one
/// says it then, without a look-up.
pub(crate) fn neighbours(
    kept: &BTreeMap<Moment, Kept>,
    tails: &[Tail],
    source: u32,
    minute: u32,
) -> Neighbours
    requires { AreTails kept.now.entries tails.now }
    ensures { AreNear (slot_at kept.now.entries source) minute result }
{
    match tail_at(tails, source) {
        Some(tail) if tail.minute < minute => Neighbours {
            before: Some(tail.count),
            here: None,
            next: None,
        },
        _ => look_around(kept, source, minute),
    }
}

/// Notes a reading as the last one of its source, where nothing is behind it. Want of memory leaves
/// the source without one.
pub(crate) fn note_last(
    tails: &mut Vec<Tail>,
    source: u32,
    reading: &CounterReading,
    near: &Neighbours,
)
    ensures { IsNoted tails.old.items source reading.now near.now tails.new.items }
{
    if near.next.is_some() {
        return;
    }
    let tail = Tail {
        minute: reading.minute,
        count: count_of_reading(reading),
    };
    let place = source as usize;
    if place < tails.len() {
        tails[place] = tail;
        return;
    }
    if place == tails.len() {
        let _ = tails.extend_from_slice(&[tail]);
    }
}
