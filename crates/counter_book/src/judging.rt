//! Whether a reading is put.
ghost use Rattle.std.specs.Prelude.{◌≡◌, IfOk, IfSome};
ghost use Rattle.counter_book.specs.Book.{kept_at, slot_at};
ghost use Rattle.counter_book.specs.Judging.{IsJudged, above as above_of, jump_of};
ghost use Rattle.counter_book.specs.Moves.{IsNextThere};
ghost use Rattle.counter_book.specs.Neighbours.{AreNear};
ghost use Rattle.counter_book.specs.Standings.{is_full_at, standing_of};

use crate::difference::moves;
use crate::reading::{
    CounterFault, CounterReading, Kept, Moment, Moves, Neighbours, Rise, Standing,
};
use name_numbers::NameTable;
use slo_limits::{MAX_AMOUNT, MAX_PUTS, MAX_READINGS};
use std::collections::BTreeMap;

/// How a reading stands to what is kept at its moment.
fn standing(here: Option<Kept>, reading: &CounterReading) -> Standing
    ensures { result ≡ standing_of here reading.now }
{
    let Some(kept) = here else {
        return Standing::Fresh;
    };
    if kept.revision < reading.revision {
        return Standing::Newer;
    }
    if reading.revision < kept.revision {
        return Standing::Superseded;
    }
    if kept.count.good == reading.good && kept.count.total == reading.total {
        return Standing::Repeated;
    }
    Standing::Conflict(CounterReading {
        source: reading.source,
        minute: reading.minute,
        revision: kept.revision,
        good: kept.count.good,
        total: kept.count.total,
    })
}

/// A minute's rise whose total no sample has.
fn above(minute: u32, rise: Option<Rise>) -> Option<(u32, u64)>
    ensures { result ≡ above_of minute rise }
{
    match rise {
        None => None,
        Some(rise) => {
            if rise.total > u64::from(MAX_AMOUNT) {
                Some((minute, rise.total))
            } else {
                None
            }
        }
    }
}

/// The first of two moves whose total no sample has: the own one is named before the next one.
fn jump(minute: u32, moves: &Moves) -> Option<(u32, u64)>
    ensures { result ≡ jump_of minute moves.now }
{
    match above(minute, moves.own) {
        Some(own) => Some(own),
        None => match moves.next {
            None => None,
            Some(next) => above(next.minute, Some(next.rise)),
        },
    }
}

/// Whether a reading that stands so has no room.
fn is_full(standing: &Standing, readings: usize, puts: u32) -> bool
    ensures { result ≡ is_full_at standing.now readings puts }
{
    match standing {
        Standing::Fresh => readings >= MAX_READINGS || puts >= MAX_PUTS,
        Standing::Newer => puts >= MAX_PUTS,
        _ => false,
    }
}

/// What a reading moves, whose source has this number; None where it changes nothing; or why it is
/// refused. Nothing is written before all is judged.
pub(crate) fn judge(
    names: &NameTable,
    kept: &BTreeMap<Moment, Kept>,
    puts: u32,
    number: u32,
    near: &Neighbours,
    reading: &CounterReading,
) -> Result<Option<Moves>, CounterFault>
    requires near { AreNear
        (kept_at (record { names = names.now; entries = kept.now.entries; puts = puts })
        reading.now.source) reading.now.minute near.now }
    requires there { AreNear (slot_at kept.now.entries number) reading.now.minute near.now }
    ensures judged { IsJudged
        (record { names = names.now; entries = kept.now.entries; puts = puts })
        reading.now result }
    ensures next { IfOk result (λ judged. IfSome judged (λ moves.
        IsNextThere kept.now.entries number reading.now.minute moves.next)) }
{
    let standing = standing(near.here, reading);
    match standing {
        Standing::Conflict(kept) => return Err(CounterFault::Conflict { kept }),
        Standing::Repeated => return Ok(None),
        Standing::Superseded => return Ok(None),
        Standing::Fresh => {}
        Standing::Newer => {}
    }
    if is_full(&standing, kept.len(), puts) {
        return Err(CounterFault::Limit);
    }
    let moves = moves(near, reading);
    match jump(reading.minute, &moves) {
        Some((minute, total)) => Err(CounterFault::Jump { minute, total }),
        None => Ok(Some(moves)),
    }
}
