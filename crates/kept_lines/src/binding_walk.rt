//! What a walk over bindings keeps from one binding to the next.
ghost use Rattle.std.specs.Prelude.{ℕ};
ghost use Rattle.office_history.specs.Counts.{Samples};
ghost use Rattle.kept_lines.specs.Carried.{IsHint};

use crate::carried::CarriedWindows;

/// Where sums and lines are looked for first: where those of the binding before stood, or behind.
/// And the windows that were summed up so far.
#[derive(Clone, Copy)]
pub(crate) struct Hint {
    pub(crate) sums: usize,
    pub(crate) line: usize,
    pub(crate) carried: CarriedWindows,
}

impl Hint {
    /// Where a walk begins.
    pub(crate) fn new() -> Hint
        ensures { (s : Samples) (minute : ℕ) → IsHint s minute result }
    {
        Hint {
            sums: 0,
            line: 0,
            carried: CarriedWindows::new(),
        }
    }
}
