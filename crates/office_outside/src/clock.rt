//! What minute it is.
ghost use Rattle.std.specs.Prelude.{◌≡◌, ◌+◌, ◌≤◌, ℕ, Option, IfSome};
ghost use Rattle.slo_limits.specs.declared.TheConstants.{MAX_MINUTE};

/// What minute it is, counted from 1970 on.
pub trait Clock {
    /// The reading that comes after so many others, where the clock tells.
    ghost to_come: { Self → ℕ → Option ℕ };

    /// Reads the clock. Where it tells, it gives the first of the readings to come. A reading may
    /// be below the one before it.
    fn minute(&mut self) -> u32
        ensures few { result ≤ MAX_MINUTE }
        ensures first { IfSome (to_come self.old 0) (λ reading. result ≡ reading) }
        ensures rest { (k : ℕ) → to_come self.new k ≡ to_come self.old (k + 1) };
}
