//! Two sinks in memory, each of which waits until the other one is written to.
ghost use Rattle.std.specs.Prelude.{◌≡◌, ◌<◌, ◌≤◌, ◌↔◌, ◌++◌, length, take, Contains, IsErr};
ghost use Rattle.std.specs.Prelude.{IfOk, OnErr, OnOk};
ghost use Rattle.office_outside.specs.Faults.{CountsFailure, HasCause};
ghost use Rattle.office_outside.specs.Memory.{after_failure, after_flush};

use office_outside::{Failed, MemorySink, Sink};
use std::alloc::{AllocError, Global};
use std::marker::Model;
use std::sync::Arc;
use std::sync::atomic::{AtomicBool, Ordering};

/// How often a write looks whether the other sink is being written to. It takes some seconds, in
/// which another thread comes to its own write, if there is one.
const LOOKS: u32 = 100_000_000;

/// A sink over a sink in memory, with a flag. A write sets the sink's own flag and then looks at
/// the flag of the other one of its pair. It writes once that flag is set, and fails where it isn't
/// after so many looks: so two sessions over such a pair end well only where they run at once.
#[derive(Drop)]
pub struct GateSink {
    inner: MemorySink,
    own: Arc<AtomicBool>,
    other: Arc<AtomicBool>,
    faults: u64,
}

impl Model for GateSink {
    ghost use Rattle.office_doors.specs.Gates.{Gated};

    ghost Value = { Gated };

    ghost view = { λ s. record { inner = s.inner; faults = s.faults } };
}

/// Counts the failure, where the outcome is one.
fn counted<T>(outcome: Result<T, Failed>, faults: &mut u64) -> Result<T, Failed>
    ensures same { result ≡ outcome }
    ensures counted { CountsFailure faults.old faults.new result }
    ensures later { faults.old ≤ faults.new }
{
    if outcome.is_err() {
        *faults = faults.saturating_add(1);
    }
    outcome
}

/// Looks at a flag until it is set, so many times.
fn comes(flag: &AtomicBool) -> bool {
    for _ in 0..LOOKS {
        if flag.load(Ordering::SeqCst) {
            return true;
        }
    }
    false
}

impl GateSink {
    /// A pair of sinks over these two.
    pub fn pair(
        alloc: Global,
        first: MemorySink,
        second: MemorySink,
    ) -> Result<(GateSink, GateSink), AllocError>
        ensures inner { IfOk result (λ pair. (pair.0.inner ≡ first) × (pair.1.inner ≡ second)) }
        ensures faults { IfOk result (λ pair. (pair.0.faults ≡ 0) × (pair.1.faults ≡ 0)) }
    {
        let one = Arc::new(alloc, AtomicBool::new(false))?;
        let other = Arc::new(alloc, AtomicBool::new(false))?;
        let first_sink = GateSink {
            inner: first,
            own: Arc::try_clone(&one)?,
            other: Arc::try_clone(&other)?,
            faults: 0,
        };
        let second_sink = GateSink {
            inner: second,
            own: other,
            other: one,
            faults: 0,
        };
        Ok((first_sink, second_sink))
    }

    /// The bytes that it holds.
    pub fn bytes(&self) -> &[u8]
        ensures { result.now ≡ self.now.inner.held }
    {
        self.inner.bytes()
    }

    /// How many calls failed.
    pub fn faults(&self) -> u64
        ensures { result ≡ self.now.faults }
    {
        self.faults
    }
}

impl Sink for GateSink {
    ghost use Rattle.std.specs.Prelude.{Some};

    ghost held = { λ s. Some s.inner.held };

    ghost faults = { λ s. s.faults };

    /// Fails where the other sink isn't written to, and where the sink in memory fails.
    fn write(&mut self, piece: &[u8]) -> Result<usize, Failed>
        ensures count { IfOk result (λ n. n ≤ length piece.now) }
        ensures progress { IfOk result (λ n. 0 < length piece.now → 0 < n) }
        ensures gained { IfOk result (λ n. self.new.inner.held
            ≡ self.old.inner.held ++ take n piece.now) }
        ensures kept { OnErr result (self.new.inner.held ≡ self.old.inner.held) }
        ensures cause { HasCause self.old.faults self.new.faults result }

        ensures counted { CountsFailure self.old.faults self.new.faults result }
    {
        self.own.store(true, Ordering::SeqCst);
        if !comes(&self.other) {
            return counted(Err(Failed), &mut self.faults);
        }
        counted(self.inner.write(piece), &mut self.faults)
    }

    /// Fails exactly where the sink in memory does: at the calls of its plan.
    fn flush(&mut self) -> Result<(), Failed>
        ensures kept { self.new.inner.held ≡ self.old.inner.held }
        ensures cause { HasCause self.old.faults self.new.faults result }

        ensures counted { CountsFailure self.old.faults self.new.faults result }
        ensures failing { IsErr result
            ↔ Contains self.old.inner.plan.failing self.old.inner.plan.calls }
        ensures after { OnOk result (self.new.inner
            ≡ record self.old.inner { plan = after_flush self.old.inner.plan }) }
        ensures after_failure { OnErr result (self.new.inner
            ≡ record self.old.inner { plan = after_failure self.old.inner.plan }) }
    {
        counted(self.inner.flush(), &mut self.faults)
    }
}
