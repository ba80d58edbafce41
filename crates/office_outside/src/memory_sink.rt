//! A sink into memory, which tells what it holds.
ghost use Rattle.std.specs.Prelude.{◌≡◌, ◌<◌, ◌≤◌, ◌↔◌, ◌++◌, [], length, take, IsErr, IfOk, OnOk};
ghost use Rattle.std.specs.Prelude.{OnErr, Contains};
ghost use Rattle.office_outside.specs.Faults.{HasCause};
ghost use Rattle.office_outside.specs.Memory.{move_size, after_write, after_flush, after_failure};

use crate::{Failed, Plan, Sink};
use std::alloc::Global;
use std::marker::Model;

/// Bytes in memory that are written by a plan. Writes and flushes are numbered together.
#[derive(Drop)]
pub struct MemorySink {
    bytes: Vec<u8>,
    plan: Plan,
}

impl Model for MemorySink {
    ghost use Rattle.office_outside.specs.Memory.{SinkInMemory};

    ghost Value = { SinkInMemory };

    ghost view = { λ s. record { held = s.bytes.items; plan = s.plan } };
}

impl MemorySink {
    /// A sink that holds nothing, before its first call. It takes no memory.
    pub fn new(alloc: Global, plan: Plan) -> MemorySink
        ensures held { result.held ≡ [] }
        ensures plan { result.plan ≡ plan }
    {
        MemorySink {
            bytes: Vec::new(alloc),
            plan,
        }
    }

    /// The bytes that it holds.
    pub fn bytes(&self) -> &[u8]
        ensures { result.now ≡ self.now.held }
    {
        &self.bytes
    }

    /// The plan, with its counts of calls and faults.
    pub fn plan(&self) -> &Plan
        ensures { result.now ≡ self.now.plan }
    {
        &self.plan
    }
}

impl Sink for MemorySink {
    ghost use Rattle.std.specs.Prelude.{Some};

    ghost held = { λ s. Some s.held };

    ghost faults = { λ s. s.plan.faults };

    /// Fails at the calls of the plan, and where it is refused the memory to grow. Else it takes as
    /// much of the piece as the plan's size.
    fn write(&mut self, piece: &[u8]) -> Result<usize, Failed>
        ensures count { IfOk result (λ n. n ≤ length piece.now) }
        ensures progress { IfOk result (λ n. 0 < length piece.now → 0 < n) }
        ensures gained { IfOk result (λ n. self.new.held ≡ self.old.held ++ take n piece.now) }
        ensures kept { OnErr result (self.new.held ≡ self.old.held) }
        ensures cause { HasCause self.old.plan.faults self.new.plan.faults result }

        // A failure at another call is a refused growth.
        ensures failing { Contains self.old.plan.failing self.old.plan.calls → IsErr result }
        ensures exact_count { IfOk result (λ n. n ≡ move_size self.old.plan (length piece.now)) }
        ensures after { IfOk result (λ n. self.new ≡ after_write (take n piece.now) self.old) }
        ensures after_failure { OnErr result
            (self.new ≡ record self.old { plan = after_failure self.old.plan }) }
    {
        let count = self.plan.move_size(piece.len());
        if self.plan.fails_now() || self.bytes.extend_from_slice(&piece[..count]).is_err() {
            self.plan.note_failure();
            return Err(Failed);
        }
        self.plan.note_move();
        Ok(count)
    }

    /// Fails exactly at the calls of the plan.
    fn flush(&mut self) -> Result<(), Failed>
        ensures kept { self.new.held ≡ self.old.held }
        ensures cause { HasCause self.old.plan.faults self.new.plan.faults result }

        ensures failing { IsErr result ↔ Contains self.old.plan.failing self.old.plan.calls }
        ensures after { OnOk result (self.new
            ≡ record self.old { plan = after_flush self.old.plan }) }
        ensures after_failure { OnErr result
            (self.new ≡ record self.old { plan = after_failure self.old.plan }) }
    {
        if self.plan.fails_now() {
            self.plan.note_failure();
            return Err(Failed);
        }
        self.plan.note_flush();
        Ok(())
    }
}
