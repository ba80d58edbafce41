//! A source over bytes in memory, which tells what is left.
ghost use Rattle.std.specs.Prelude.{◌≡◌, ◌<◌, ◌≤◌, ◌↔◌, ◌++◌, [], length, take, drop, min, IsErr};
ghost use Rattle.std.specs.Prelude.{IfOk, OnErr, Contains};
ghost use Rattle.office_outside.specs.Faults.{HasCause};
ghost use Rattle.office_outside.specs.Memory.{move_size, after_read, after_failure};

use crate::{Failed, Plan, Source};
use std::marker::Model;

/// Bytes in memory that are read by a plan.
#[derive(Drop)]
pub struct MemorySource {
    bytes: Vec<u8>,
    at: usize,
    plan: Plan,
}

impl Model for MemorySource {
    ghost use Rattle.std.specs.Prelude.{◌≤◌, length, drop};
    ghost use Rattle.office_outside.specs.Memory.{SourceInMemory};

    ghost Value = { SourceInMemory };

    ghost view = { λ s. record { left = drop s.at s.bytes.items; plan = s.plan } };

    ghost invariant = { λ s. s.at ≤ length s.bytes.items };
}

impl MemorySource {
    /// A source that has all these bytes left, before its first call. It takes no memory.
    pub fn new(bytes: Vec<u8>, plan: Plan) -> MemorySource
        ensures left { result.left ≡ bytes.items }
        ensures plan { result.plan ≡ plan }
    {
        MemorySource { bytes, at: 0, plan }
    }

    /// The bytes that are left.
    pub fn left(&self) -> &[u8]
        ensures { result.now ≡ self.now.left }
    {
        &self.bytes[self.at..]
    }

    /// The plan, with its counts of calls and faults.
    pub fn plan(&self) -> &Plan
        ensures { result.now ≡ self.now.plan }
    {
        &self.plan
    }
}

impl Source for MemorySource {
    ghost use Rattle.std.specs.Prelude.{Some};

    ghost left = { λ s. Some s.left };

    ghost faults = { λ s. s.plan.faults };

    /// Fails exactly at the calls of the plan. Else it gives as much of what is left as the piece
    /// and the plan's size take.
    fn read(&mut self, piece: &mut [u8]) -> Result<usize, Failed>
        ensures count { IfOk result (λ n. n ≤ length piece.new) }
        ensures bytes { IfOk result (λ n. self.old.left ≡ take n piece.new ++ self.new.left) }
        ensures end { IfOk result (λ n. n ≡ 0 → 0 < length piece.new → self.new.left ≡ []) }
        ensures kept { OnErr result (self.new.left ≡ self.old.left) }
        ensures cause { HasCause self.old.plan.faults self.new.plan.faults result }

        ensures failing { IsErr result ↔ Contains self.old.plan.failing self.old.plan.calls }
        ensures exact_count { IfOk result
            (λ n. n ≡ move_size self.old.plan (min (length self.old.left) (length piece.old))) }
        ensures piece { IfOk result (λ n. piece.new ≡ take n self.old.left ++ drop n piece.old) }
        ensures after { IfOk result (λ n. self.new ≡ after_read n self.old) }
        ensures piece_kept { OnErr result (piece.new ≡ piece.old) }
        ensures after_failure { OnErr result
            (self.new ≡ record self.old { plan = after_failure self.old.plan }) }
    {
        if self.plan.fails_now() {
            self.plan.note_failure();
            return Err(Failed);
        }
        let rest = &self.bytes[self.at..];
        let count = self.plan.move_size(rest.len().min(piece.len()));
        piece[..count].copy_from_slice(&rest[..count]);
        self.at += count;
        self.plan.note_move();
        Ok(count)
    }
}
