//! A place at a desk.
use crate::view::View;
use atomic_table::Seat;
use std::marker::Model;

/// A place at a desk, for one thread at a time. It has no bytes.
///
/// Contracts see its desk, the root of the desk's value, the history that it has seen, the
/// positions of its own entries in the order in which it made them, and how many of its turns had a
/// fault.
#[derive(Drop)]
pub struct Pass<T> {
    pub(crate) seat: Seat<Option<T>, View>,
}

impl<T> Model for Pass<T> {
    ghost use Rattle.turn_desk.specs.Passes.{PassState};
    ghost use Rattle.turn_desk.specs.Views.{state_of, IsIdle};

    ghost Value = { PassState };

    ghost view = { λ p. state_of p.seat.table_id p.seat.me.0 };

    ghost invariant = { λ p. IsIdle p.seat.me };
}
