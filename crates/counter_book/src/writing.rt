//! What a reading moves is written, and told.
ghost use Rattle.std.specs.Prelude.{◌≡◌, ℕ, ◌+◌, ◌<◌, ◌&&◌, ◌==◌, OnOk, OnErr, Some, None, IfSome};
ghost use Rattle.std.specs.Prelude.{if◌then◌else◌};
ghost use Rattle.std.specs.List.{position};
ghost use Rattle.std.specs.Str.{bytes_eq};
ghost use Rattle.counter_book.specs.Book.{given_of, slot_at};
ghost use Rattle.counter_book.specs.Moves.{IsNextThere};
ghost use Rattle.counter_book.specs.Writing.{AreNarrow, IsWritten, changes_of, given_slot};
ghost use Rattle.counter_book.specs.Writing.{next_kept_of, own_kept_of};
ghost use Rattle.name_numbers.specs.Names.{named_with};

use crate::reading::{
    Changes, CounterReading, Difference, Kept, Moment, Moves, NextMove, Rise, count_of_reading,
};
use name_numbers::NameTable;
use slo_limits::MAX_PUTS;
use std::alloc::AllocError;
use std::collections::BTreeMap;

/// Keeps something at a moment.
fn set(
    kept: &mut BTreeMap<Moment, Kept>,
    source: u32,
    minute: u32,
    value: Kept,
) -> Result<(), AllocError>
    ensures ok { OnOk result ((s m : ℕ) → slot_at kept.new.entries s m
        ≡ (if s == source && m == minute then Some value else slot_at kept.old.entries s m)) }
    ensures err { OnErr result (kept.new.entries ≡ kept.old.entries) }
    ensures absent { OnErr result (slot_at kept.old.entries source minute ≡ None) }
{
    match kept.insert(Moment { source, minute }, value) {
        Ok(_) => Ok(()),
        Err(_) => Err(AllocError),
    }
}

/// The revision of the difference that was given last.
pub(crate) fn given(here: Option<Kept>) -> u32
    ensures { result ≡ given_of here }
{
    match here {
        None => 0,
        Some(kept) => kept.given,
    }
}

/// What is kept of a reading, whose own difference was given so often.
fn own_kept(reading: &CounterReading, given: u32, own: Option<Rise>) -> Kept
    requires { given < MAX_PUTS }
    ensures { result ≡ own_kept_of reading.now given own }
{
    let given = match own {
        None => given,
        Some(_) => given + 1,
    };
    Kept {
        count: count_of_reading(reading),
        revision: reading.revision,
        given,
    }
}

/// What is kept of the next reading, once its difference is given again.
fn next_kept(next: &NextMove) -> Kept
    requires { next.now.kept.given < MAX_PUTS }
    ensures { result ≡ next_kept_of next.now }
{
    Kept {
        count: next.kept.count,
        revision: next.kept.revision,
        given: next.kept.given + 1,
    }
}

/// Writes what a reading moves. Only a new moment takes memory, and it is written first.
pub(crate) fn write(
    kept: &mut BTreeMap<Moment, Kept>,
    number: u32,
    reading: &CounterReading,
    given: u32,
    moves: &Moves,
) -> Result<(), AllocError>
    requires given { given ≡ given_slot kept.old.entries number reading.now.minute }
    requires next { IsNextThere kept.old.entries number reading.now.minute moves.now.next }
    requires few { (n m : ℕ) → given_slot kept.old.entries n m < MAX_PUTS }
    ensures ok { OnOk result
        (IsWritten kept.old.entries number reading.now moves.now kept.new.entries) }
    ensures err { OnErr result (kept.new.entries ≡ kept.old.entries) }
{
    let own = own_kept(reading, given, moves.own);
    set(kept, number, reading.minute, own)?;
    match moves.next {
        None => Ok(()),
        Some(next) => set(kept, number, next.minute, next_kept(&next)),
    }
}

/// Numbers the source, and writes what a reading moves; or neither.
pub(crate) fn keep(
    names: &mut NameTable,
    kept: &mut BTreeMap<Moment, Kept>,
    number: u32,
    reading: &CounterReading,
    given: u32,
    moves: &Moves,
) -> Result<(), AllocError>
    requires given { given ≡ given_slot kept.old.entries number reading.now.minute }
    requires next { IsNextThere kept.old.entries number reading.now.minute moves.now.next }
    requires few { (n m : ℕ) → given_slot kept.old.entries n m < MAX_PUTS }
    ensures ok { OnOk result
        (IsWritten kept.old.entries number reading.now moves.now kept.new.entries) }
    ensures named { OnOk result (names.new ≡ named_with
        (position (bytes_eq reading.now.source) names.old) names.old reading.now.source) }
    ensures err { OnErr result (kept.new.entries ≡ kept.old.entries) }
    ensures err_names { OnErr result (names.new ≡ names.old) }
{
    let count = names.len();
    names.add(&reading.source)?;
    match write(kept, number, reading, given, moves) {
        Ok(()) => Ok(()),
        Err(e) => {
            names.truncate(count);
            Err(e)
        }
    }
}

/// The differences of what a reading moves, whose own one was given so often.
pub(crate) fn changes(reading: &CounterReading, given: u32, moves: &Moves) -> Changes
    requires given { given < MAX_PUTS }
    requires next { IfSome moves.now.next (λ next. next.kept.given < MAX_PUTS) }
    requires narrow { AreNarrow moves.now }
    ensures { result ≡ changes_of reading.now given moves.now }
{
    let own = match moves.own {
        None => None,
        Some(rise) => Some(Difference {
            source: reading.source,
            minute: reading.minute,
            revision: given + 1,
            part: rise.part as u32,
            total: rise.total as u32,
        }),
    };
    let next = match moves.next {
        None => None,
        Some(next) => Some(Difference {
            source: reading.source,
            minute: next.minute,
            revision: next.kept.given + 1,
            part: next.rise.part as u32,
            total: next.rise.total as u32,
        }),
    };
    Changes { own, next }
}
