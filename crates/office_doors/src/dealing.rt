//! Sharing visits out among the doors in memory.
ghost use Rattle.std.specs.Prelude.{◌≡◌, ◌≤◌, ◌<◌, ◌+◌, ◌++◌, [], All, flat_map, length, sum_by};
ghost use Rattle.std.specs.Prelude.{IfOk, OnErr, vec_capacity};
ghost use Rattle.office_doors.specs.DoorMemory.{book_of};
ghost use Rattle.office_doors.specs.DoorsMemory.{IsNew};

use crate::memory_door::{MemoryDoor, MemoryVisit};
use crate::room::Room;
use std::alloc::{AllocError, Global};
use std::collections::VecDeque;

/// Makes room for so many more doors than were opened, and tells how many there are then.
pub(crate) fn make_place<K: Drop>(
    closed: &mut Vec<MemoryDoor<K>>,
    opened: usize,
    more: usize,
) -> Result<usize, AllocError>
    requires { length closed.old.items ≤ opened }
    ensures same { closed.new.items ≡ closed.old.items }
    ensures kept { vec_capacity closed.old ≤ vec_capacity closed.new }
    ensures count { IfOk result (λ all. all ≡ opened + more) }
    ensures room { IfOk result (λ all. all ≤ vec_capacity closed.new) }
{
    let all = opened.checked_add(more).ok_or(AllocError)?;
    closed.reserve(all - closed.len())?;
    Ok(all)
}

/// Which calls of the next door fail.
fn next_failing(alloc: Global, failing: &mut VecDeque<Vec<u64>>) -> Vec<u64> {
    match failing.pop_front() {
        Some(calls) => calls,
        None => Vec::new(alloc),
    }
}

/// Opens a door with its share of the visits.
fn open_door<K: Drop>(
    alloc: Global,
    room: Room<MemoryVisit<K>>,
    held: &mut VecDeque<MemoryVisit<K>>,
    failing: &mut VecDeque<Vec<u64>>,
) -> MemoryDoor<K>
    requires { room.share ≤ length held.old.items }
    ensures shared { held.old.items ≡ (book_of result).left ++ held.new.items }
    ensures count { length held.new.items + room.share ≡ length held.old.items }
    ensures new { IsNew result }
{
    let calls = next_failing(alloc, failing);
    let (left, back) = room.take_in(held);
    MemoryDoor::over(left, back, calls)
}

/// Opens a door for each room, and shares all visits out among them.
pub(crate) fn deal<K: Drop>(
    alloc: Global,
    rooms: Vec<Room<MemoryVisit<K>>>,
    held: &mut VecDeque<MemoryVisit<K>>,
    failing: &mut VecDeque<Vec<u64>>,
    doors: &mut Vec<MemoryDoor<K>>,
)
    requires none { doors.old.items ≡ [] }
    requires room { length rooms.items ≤ vec_capacity doors.old }
    requires whole { 0 < length rooms.items
        → sum_by (λ r. r.share) rooms.items ≡ length held.old.items }
    ensures count { length doors.new.items ≡ length rooms.items }
    ensures new { All IsNew doors.new.items }
    ensures shared { held.old.items ≡ flat_map (λ d. (book_of d).left) doors.new.items
        ++ held.new.items }
    ensures whole { 0 < length rooms.items → held.new.items ≡ [] }
{
    for room in rooms {
        let door = open_door(alloc, room, held, failing);
        doors.push_reserved(door);
    }
}
