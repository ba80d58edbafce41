//! Doors in memory, which tell what becomes of all visits.
ghost use Rattle.std.specs.Prelude.{◌≤◌, length, vec_capacity};

use crate::calls::Calls;
use crate::dealing::{deal, make_place};
use crate::memory_door::{MemoryDoor, MemoryVisit};
use crate::room::make_rooms;
use crate::{Doors, DoorsFault, Given};
use office_outside::Sink;
use std::alloc::Global;
use std::collections::VecDeque;

/// Doors in memory over visits, which it shares out when doors are opened. It keeps the doors that
/// were closed. Room for them is made when they are opened, so that `close` grows nothing.
#[derive(Drop)]
pub struct MemoryDoors<K: Drop> {
    alloc: Global,
    held: VecDeque<MemoryVisit<K>>,
    failing: VecDeque<Vec<u64>>,
    opened: usize,
    closed: Vec<MemoryDoor<K>>,
    asked: Given<u16>,
    calls: Calls,
    ghost room: { opened ≤ vec_capacity closed },
    ghost within: { length closed.items ≤ opened },
}

impl<K: Drop> MemoryDoors<K> {
    ghost use Rattle.std.specs.Prelude.{◌≡◌, []};
    ghost use Rattle.office_doors.specs.Calls.{numbered};
    ghost use Rattle.office_doors.specs.DoorsMemory.{entrance_of, openings_of, ports_of};
    ghost use Rattle.office_doors.specs.DoorsMemory.{fresh_entrance};

    /// Doors over these visits. The calls of `open` whose numbers are in `failing`, counted from 0,
    /// fail. Of the doors that are opened the first one's `next` fails at the calls that the first
    /// list of `failing_next` has, and so on; those of later doors don't fail.
    pub fn new(
        alloc: Global,
        visits: Vec<MemoryVisit<K>>,
        failing: Vec<u64>,
        failing_next: Vec<Vec<u64>>,
    ) -> MemoryDoors<K>
        ensures entrance { entrance_of result ≡ fresh_entrance visits.items }
        ensures calls { openings_of result ≡ numbered failing.items }
        ensures ports { ports_of result ≡ [] }
    {
        MemoryDoors {
            alloc,
            held: visits.into(),
            failing: failing_next.into(),
            opened: 0,
            closed: Vec::new(alloc),
            asked: Given::new(),
            calls: Calls::new(failing),
        }
    }

    /// The doors that were closed, in order.
    pub fn closed(&self) -> &[MemoryDoor<K>]
        ensures { result.now ≡ (entrance_of self.now).closed }
    {
        &self.closed
    }

    /// How many calls of `open` failed, and calls of the doors that were closed.
    pub fn faults(&self) -> u64
        ensures { result ≡ (openings_of self.now).faults }
    {
        self.calls.faults()
    }
}

impl<K: Sink + Send + Drop> Doors for MemoryDoors<K> {
    ghost use Rattle.std.specs.Prelude.{◌≡◌, ◌≤◌, ◌↔◌, ◌+◌, ◌++◌, ◌∷◌, [], Some, Err, All, IfOk};
    ghost use Rattle.std.specs.Prelude.{OnErr, OnOk, Contains, is_some, length, true};
    ghost use Rattle.office_outside.specs.Faults.{Rose};
    ghost use Rattle.office_doors.specs.Books.{IsFresh};
    ghost use Rattle.office_doors.specs.Entrances.{Opens, HasOneOpen, Closes, Stays};
    ghost use Rattle.office_doors.specs.Entrances.{joined_count};
    ghost use Rattle.office_doors.specs.Calls.{after_call, after_failure};
    ghost use Rattle.office_doors.specs.DoorMemory.{book_of, calls_of};
    ghost use Rattle.office_doors.specs.DoorsMemory.{entrance_of, openings_of, ports_of};
    ghost use Rattle.office_doors.specs.declared.doors.DoorsFault.TheVariants.{Failed};

    type One = MemoryDoor<K>;

    ghost told = { λ d. Some (entrance_of d) };

    ghost ports = { λ d. ports_of d };

    ghost faults = { λ d. (openings_of d).faults };

    /// Fails exactly at the calls that are to fail. The port is only noted.
    fn open(&mut self, port: u16, workers: usize) -> Result<Vec<MemoryDoor<K>>, DoorsFault>
        ensures count { IfOk result (λ doors. length doors.items ≡ workers) }
        ensures quiet { IfOk result (λ doors. All (λ d. (calls_of d).faults ≡ 0) doors.items) }
        ensures fresh { IfOk result (λ doors. All (λ d. IsFresh (book_of d)) doors.items) }
        ensures tells { IfOk result (λ doors. All (λ d. is_some (Some (book_of d)) ≡ true)
            doors.items) }
        ensures shared { IfOk result (λ doors. Opens (λ d. Some (book_of d)) doors.items
            (entrance_of self.old) (entrance_of self.new)) }
        ensures kept { OnErr result (Stays (entrance_of self.old) (entrance_of self.new)) }
        ensures port { ports_of self.new ≡ ports_of self.old ++ port ∷ [] }
        ensures later { (openings_of self.old).faults ≤ (openings_of self.new).faults }
        ensures cause { result ≡ Err Failed
            → Rose (openings_of self.old).faults (openings_of self.new).faults }

        ensures failing { result ≡ Err Failed
            ↔ Contains (openings_of self.old).failing (openings_of self.old).calls }
    {
        self.asked = self.asked.and(&port);
        if self.calls.note().is_err() {
            return Err(DoorsFault::Failed);
        }
        let Ok(opened) = make_place(&mut self.closed, self.opened, workers) else {
            return Err(DoorsFault::NoMemory);
        };
        let Ok(rooms) = make_rooms(self.alloc, self.held.len(), workers) else {
            return Err(DoorsFault::NoMemory);
        };
        let Ok(mut doors) = Vec::with_capacity(self.alloc, workers) else {
            return Err(DoorsFault::NoMemory);
        };
        deal(
            self.alloc,
            rooms,
            &mut self.held,
            &mut self.failing,
            &mut doors,
        );
        self.opened = opened;
        Ok(doors)
    }

    fn close(&mut self, door: MemoryDoor<K>)
        requires open { HasOneOpen (entrance_of self.old) }
        ensures closed { Closes door (entrance_of self.old) (entrance_of self.new) }
        ensures ports { ports_of self.new ≡ ports_of self.old }
        ensures faults { (openings_of self.new).faults
            ≡ joined_count (openings_of self.old).faults (calls_of door).faults }
    {
        self.calls.add(door.faults());
        self.closed.push_reserved(door);
    }

    ghost within = { λ d. d.within };
}
