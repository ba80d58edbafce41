//! The plan by which the calls of a memory form go: which of them fail, and how much they move.
ghost use Rattle.std.specs.Prelude.{◌≡◌, ◌≤◌, ◌↔◌, IsTrue, Contains, []};
ghost use Rattle.office_outside.specs.Memory.{fresh_plan, move_size, after_move, after_flush};
ghost use Rattle.office_outside.specs.Memory.{after_failure};

use std::alloc::Global;
use std::marker::Model;

/// How the calls of a memory form go. Calls are numbered from 0, over all calls of the object; so
/// are its moves, the reads and writes that succeed. The counts stay at their last value.
#[derive(Drop)]
pub struct Plan {
    failing: Vec<u64>,
    sizes: Vec<usize>,
    calls: u64,
    moves: usize,
    faults: u64,
}

impl Model for Plan {
    ghost use Rattle.office_outside.specs.Memory.{CallPlan};

    ghost Value = { CallPlan };

    ghost view = { λ p. record {
      failing = p.failing.items;
      sizes = p.sizes.items;
      calls = p.calls;
      moves = p.moves;
      faults = p.faults;
    } };
}

impl Plan {
    /// The calls whose numbers are in `failing` fail. The move of number k moves at most
    /// `sizes[k]` bytes, where a size of 0 counts as 1; later moves have no such bound.
    pub fn new(failing: Vec<u64>, sizes: Vec<usize>) -> Plan
        ensures { result ≡ fresh_plan failing.items sizes.items }
    {
        Plan {
            failing,
            sizes,
            calls: 0,
            moves: 0,
            faults: 0,
        }
    }

    /// No call fails and no move is cut short. It takes no memory.
    pub fn smooth(alloc: Global) -> Plan
        ensures { result ≡ fresh_plan [] [] }
    {
        Plan::new(Vec::new(alloc), Vec::new(alloc))
    }

    /// How many calls there were.
    pub fn calls(&self) -> u64
        ensures { result ≡ self.now.calls }
    {
        self.calls
    }

    /// How many calls failed.
    pub fn faults(&self) -> u64
        ensures { result ≡ self.now.faults }
    {
        self.faults
    }

    /// Whether the call that comes now is to fail.
    pub(crate) fn fails_now(&self) -> bool
        ensures { IsTrue result ↔ Contains self.now.failing self.now.calls }
    {
        self.failing.contains(&self.calls)
    }

    /// How many bytes the call that comes now moves where so many could be moved.
    pub(crate) fn move_size(&self, count: usize) -> usize
        ensures { result ≡ move_size self.now count }
    {
        match self.sizes.get(self.moves) {
            Some(size) => (*size).max(1).min(count),
            None => count,
        }
    }

    /// Notes a call that moved bytes.
    pub(crate) fn note_move(&mut self)
        ensures { self.new ≡ after_move self.old }
    {
        self.calls = self.calls.saturating_add(1);
        self.moves = self.moves.saturating_add(1);
    }

    /// Notes a flush that succeeded.
    pub(crate) fn note_flush(&mut self)
        ensures { self.new ≡ after_flush self.old }
    {
        self.calls = self.calls.saturating_add(1);
    }

    /// Notes a call that failed.
    pub(crate) fn note_failure(&mut self)
        ensures after { self.new ≡ after_failure self.old }
        ensures later { self.old.faults ≤ self.new.faults }
    {
        self.calls = self.calls.saturating_add(1);
        self.faults = self.faults.saturating_add(1);
    }
}
