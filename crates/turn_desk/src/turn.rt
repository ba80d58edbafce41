//! One turn over the table: how the value comes out, and how it goes back.
ghost use Rattle.std.specs.Prelude.{◌≡◌, [], ◌∷◌, true, false, Some, None};
ghost use Rattle.turn_desk.specs.Ledgers.{GoesOn, left_in_doubt};
ghost use Rattle.turn_desk.specs.Views.{IsIdle, with_turn, holder_after, without_turn};
ghost use Rattle.turn_desk.specs.Seats.{Continues, HasTurn, IsSameSeat, IsSeatOf, Knows};

use crate::bell::Bell;
use crate::ledgered::{Call, Ledgered};
use crate::rule::{Did, Free, Grow, Opened, Take, Turns};
use crate::view::View;
use atomic_table::{Seat, Shared};
use std::hint::spin_loop;
use std::snapshot::Snapshot;
use std::sync::Wait;

/// The word that is `TAKEN` while a pass holds the turn.
pub(crate) const MARK: usize = 0;

/// The word that has the length of the history.
pub(crate) const LENGTH: usize = 1;

/// The slot in which the value lies while no pass holds the turn.
pub(crate) const PLACE: usize = 0;

const FREE: u64 = 0;

const TAKEN: u64 = 1;

/// How often a pass looks at a turn that is taken before it sleeps. Most turns take some
/// microseconds, as so many looks do; to sleep and to be woken takes longer.
const LOOKS: u32 = 100;

/// The table of a desk: two words, and one slot.
pub(crate) type Board<T> = Shared<Option<T>, View, Opened<T>, Turns>;

/// Takes the turn, if it is free.
fn try_turn<T: Ledgered>(board: &Board<T>, seat: &mut Seat<Option<T>, View>) -> bool
    requires board { IsSeatOf board.now.table_id seat.old }
    requires idle { IsIdle seat.old.me }
    ensures seat { IsSameSeat seat.old seat.new }
    ensures won { result ≡ true → HasTurn T.ledger seat.old seat.new }
    ensures lost { result ≡ false → seat.new.me ≡ seat.old.me }
{
    board.compare_exchange::<Take>(seat, MARK, FREE, TAKEN) == FREE
}

/// Takes the turn, if it is free now or soon.
fn try_for_a_while<T: Ledgered>(board: &Board<T>, seat: &mut Seat<Option<T>, View>) -> bool
    requires board { IsSeatOf board.now.table_id seat.old }
    requires idle { IsIdle seat.old.me }
    ensures seat { IsSameSeat seat.old seat.new }
    ensures won { result ≡ true → HasTurn T.ledger seat.old seat.new }
    ensures lost { result ≡ false → seat.new.me ≡ seat.old.me }
{
    for _ in 0..LOOKS {
        if try_turn(board, seat) {
            return true;
        }
        spin_loop();
    }
    false
}

/// Waits for the turn: for a while awake, and then asleep.
fn take_turn<R: Wait, T: Ledgered>(
    rt: &R,
    board: &Board<T>,
    bell: &Bell,
    seat: &mut Seat<Option<T>, View>,
)
    requires board { IsSeatOf board.now.table_id seat.old }
    requires idle { IsIdle seat.old.me }
    ensures seat { IsSameSeat seat.old seat.new }
    ensures turn { HasTurn T.ledger seat.old seat.new }
{
    if try_for_a_while(board, seat) {
        return;
    }
    for _ in rt.forever() {
        bell.ask();
        if try_turn(board, seat) {
            return;
        }
        bell.sleep(rt);
    }
    unreachable!()
}

/// Waits for the turn, and moves the value out.
pub(crate) fn take_out<R: Wait, T: Ledgered>(
    rt: &R,
    board: &Board<T>,
    bell: &Bell,
    seat: &mut Seat<Option<T>, View>,
) -> T
    requires board { IsSeatOf board.now.table_id seat.old }
    requires idle { IsIdle seat.old.me }
    ensures seat { IsSameSeat seat.old seat.new }
    ensures value { Continues seat.old.me.0 (T.ledger result) }
    ensures view { seat.new.me ≡ (
      with_turn seat.old.me.0 (T.ledger result).history (T.ledger result).doubt,
      (0, None) ∷ [],
    ) }
{
    take_turn(rt, board, bell, seat);
    let found = board.exchange(seat, PLACE, None);
    let Some(value) = found else { unreachable!() };
    value
}

/// Moves the value back, stores the length of its history, clears the mark, and wakes one that
/// waits. Of the turn it is told what the proof needs.
pub(crate) fn give_back<T: Ledgered, C: Call<T>, B: Did>(
    board: &Board<T>,
    bell: &Bell,
    seat: &mut Seat<Option<T>, View>,
    value: T,
    _asked: Snapshot<C>,
    _before: Snapshot<T>,
    _out: &C::Out,
)
    requires board { IsSeatOf board.now.table_id seat.old }
    requires holds { (seat.old.me.1 ≡ (0, None) ∷ []) × (seat.old.me.0.holds ≡ true)
        × (seat.old.me.0.live ≡ true) }
    requires before { Knows seat.old.me.0 (T.ledger _before.value) }
    requires went_on { GoesOn (T.ledger _before.value) (T.ledger value) B.added }
    requires left { B.left ≡ left_in_doubt (T.ledger _before.value) (T.ledger value) }
    ensures seat { IsSameSeat seat.old seat.new }
    ensures view { seat.new.me ≡ (
      without_turn (holder_after B.added B.rose B.left seat.old.me.0
          (T.ledger value).history (T.ledger value).doubt),
      [],
    ) }
{
    let length = value.length();
    let none = board.exchange(seat, PLACE, Some(value));
    let None = none else { unreachable!() };
    board.store::<Grow<B>>(seat, LENGTH, length);
    board.store::<Free>(seat, MARK, FREE);
    bell.ring();
}
