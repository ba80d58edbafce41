//! Differences, and which of them a reading moves.
ghost use Rattle.std.specs.Prelude.{◌≡◌, ℕ, List, IfSome};
ghost use Rattle.counter_book.specs.Book.{Book, kept_at, slot_at};
ghost use Rattle.counter_book.specs.Differences.{capped as capped_of, first_there, rise_between};
ghost use Rattle.counter_book.specs.Differences.{rise_of};
ghost use Rattle.counter_book.specs.Moves.{AreCapped, IsCapped, IsMoves, IsNextThere, moved_to};
ghost use Rattle.counter_book.specs.Moves.{next_move_of};
ghost use Rattle.counter_book.specs.Neighbours.{AreNear};
ghost use Rattle.counter_book.specs.declared.reading.Kept.{Kept};
ghost use Rattle.counter_book.specs.declared.reading.Moment.{Moment};

use crate::neighbours::count_of;
use crate::reading::{
    Count, CounterReading, Kept, Moves, Neighbours, NextMove, Rise, count_of_reading,
};

/// Good events count at most the total.
fn capped(good: u64, total: u64) -> Rise
    ensures value { result ≡ capped_of good total }
    ensures capped { IsCapped result }
{
    Rise {
        part: good.min(total),
        total,
    }
}

/// The rise from one count to the next, which may stand behind a reset.
#[tactic(auto, unfolding(crate::specs::Differences::rise_of))]
fn rise(before: Count, now: Count) -> Rise
    ensures value { result ≡ rise_of before now }
    ensures capped { IsCapped result }
{
    if now.good < before.good || now.total < before.total {
        capped(now.good, now.total)
    } else {
        capped(now.good - before.good, now.total - before.total)
    }
}

/// The rise between two counts, where both are there.
fn between(before: Option<Count>, now: Option<Count>) -> Option<Rise>
    ensures value { result ≡ rise_between before now }
    ensures capped { IfSome result IsCapped }
{
    match before {
        None => None,
        Some(before) => match now {
            None => None,
            Some(now) => Some(rise(before, now)),
        },
    }
}

/// The one, or the other where it isn't there.
fn first(one: Option<Count>, other: Option<Count>) -> Option<Count>
    ensures { result ≡ first_there one other }
{
    match one {
        None => other,
        Some(one) => Some(one),
    }
}

/// The new rise, where it isn't the old one.
fn moved(old: Option<Rise>, now: Option<Rise>) -> Option<Rise>
    ensures value { result ≡ moved_to old now }
    ensures capped { IfSome now IsCapped → IfSome result IsCapped }
{
    match old {
        None => now,
        Some(old) => match now {
            None => None,
            Some(now) => {
                if old.part == now.part && old.total == now.total {
                    None
                } else {
                    Some(now)
                }
            }
        },
    }
}

/// How the difference behind a reading moves, which came behind another count before.
fn next_move(behind: Option<(u32, Kept)>, passed: Option<Count>, count: Count) -> Option<NextMove>
    ensures value { result ≡ next_move_of behind passed count }
    ensures capped { IfSome result (λ next. IsCapped next.rise) }
{
    match behind {
        None => None,
        Some((minute, kept)) => {
            let old = between(passed, Some(kept.count));
            match moved(old, Some(rise(count, kept.count))) {
                None => None,
                Some(rise) => Some(NextMove { minute, kept, rise }),
            }
        }
    }
}

/// What a reading moves between its neighbours.
pub(crate) fn moves(near: &Neighbours, reading: &CounterReading) -> Moves
    ensures moves { (book : Book) → AreNear (kept_at book reading.now.source) reading.now.minute
        near.now → IsMoves book reading.now result }
    ensures next { (entries : List (Moment × Kept)) (number : ℕ) →
        AreNear (slot_at entries number) reading.now.minute near.now →
        IsNextThere entries number reading.now.minute result.next }
    ensures capped { AreCapped result }
{
    let count = count_of_reading(reading);
    let here = count_of(near.here);
    let own = moved(
        between(near.before, here),
        between(near.before, Some(count)),
    );
    let next = next_move(near.next, first(here, near.before), count);
    Moves { own, next }
}
