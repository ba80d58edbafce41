//! Room for the visits of doors that are to be opened: it is made before any visit moves, so that
//! a want of memory finds all of them in their places.
ghost use Rattle.std.specs.Prelude.{◌≡◌, ◌≤◌, ◌<◌, ◌+◌, ◌++◌, length, take, drop, sum_by, IfOk};
ghost use Rattle.std.specs.Prelude.{vec_capacity};
ghost use Rattle.std.specs.VecDeque.{deque_capacity};

use std::alloc::{AllocError, Global};
use std::collections::VecDeque;

/// Room for the visits of one door.
#[derive(Drop)]
pub(crate) struct Room<V: Drop> {
    /// How many visits the door is to have.
    pub(crate) share: usize,
    left: VecDeque<V>,
    back: Vec<V>,
    ghost none_left: { length left.items ≡ 0 },
    ghost none_back: { length back.items ≡ 0 },
    ghost left_room: { share ≤ deque_capacity left },
    ghost back_room: { share ≤ vec_capacity back },
}

/// The share of the first of so many doors, as even as may be.
fn first_share(visits: usize, doors: usize) -> usize
    requires { 0 < doors }
    ensures within { result ≤ visits }
    ensures last { doors ≡ 1 → result ≡ visits }
{
    if doors == 1 {
        return visits;
    }
    visits.div_ceil(doors).min(visits)
}

impl<V: Drop> Room<V> {
    /// Room for so many visits.
    fn new(alloc: Global, share: usize) -> Result<Room<V>, AllocError>
        ensures { IfOk result (λ room. room.share ≡ share) }
    {
        Ok(Room {
            share,
            left: VecDeque::with_capacity(alloc, share)?,
            back: Vec::with_capacity(alloc, share)?,
        })
    }

    /// Moves the door's share of the visits in, and hands out both places.
    pub(crate) fn take_in(self, visits: &mut VecDeque<V>) -> (VecDeque<V>, Vec<V>)
        requires { self.share ≤ length visits.old.items }
        ensures left { result.0.items ≡ take self.share visits.old.items }
        ensures rest { visits.new.items ≡ drop self.share visits.old.items }
        ensures back { length result.1.items ≡ 0 }
        ensures room { length result.0.items ≤ vec_capacity result.1 }
    {
        let Room {
            share,
            mut left,
            back,
            ..
        } = self;
        move_first(visits, &mut left, share);
        (left, back)
    }
}

/// Moves the first visits, so many of them.
fn move_first<V: Drop>(from: &mut VecDeque<V>, to: &mut VecDeque<V>, count: usize)
    requires there { count ≤ length from.old.items }
    requires room { length to.old.items + count ≤ deque_capacity to.old }
    ensures moved { to.new.items ≡ to.old.items ++ take count from.old.items }
    ensures rest { from.new.items ≡ drop count from.old.items }
{
    for _ in 0..count {
        if let Some(visit) = from.pop_front() {
            to.push_back_reserved(visit);
        }
    }
}

/// Room for so many visits, shared out among so many doors.
pub(crate) fn make_rooms<V: Drop>(
    alloc: Global,
    visits: usize,
    doors: usize,
) -> Result<Vec<Room<V>>, AllocError>
    ensures count { IfOk result (λ rooms. length rooms.items ≡ doors) }
    ensures whole { IfOk result (λ rooms. 0 < doors
        → sum_by (λ r. r.share) rooms.items ≡ visits) }
{
    let mut rooms = Vec::with_capacity(alloc, doors)?;
    let mut rest = visits;
    for at in 0..doors {
        let share = first_share(rest, doors - at);
        rooms.push_reserved(Room::new(alloc, share)?);
        rest -= share;
    }
    Ok(rooms)
}
