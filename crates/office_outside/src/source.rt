//! Where bytes come from.
ghost use Rattle.std.specs.Prelude.{◌≡◌, ◌<◌, ◌≤◌, List, ℕ, Option, length, take, IfOk, OnErr};
ghost use Rattle.office_outside.specs.Faults.{HasCause};
ghost use Rattle.office_outside.specs.Told.{Lost, HasNothingLeft};

use crate::Failed;

/// Where bytes come from.
pub trait Source {
    /// The bytes that are left, where the source tells.
    ghost left: { Self → Option (List ℕ) };

    /// How often it failed.
    ghost faults: { Self → ℕ };

    /// Tells it which bytes of a message its reader holds before it reads on: with none the input
    /// may rest.
    fn note_held(&mut self, held: &[u8])
        ensures left { left self.new ≡ left self.old }
        ensures faults { faults self.new ≡ faults self.old }
    {
        let _ = held;
    }

    /// Puts the next bytes at the start of the piece and answers how many they are.
    /// 0 for a piece that isn't empty is the end of the input. After `Failed` nothing was read;
    /// what the piece holds is then open, as is its part past the bytes that were read.
    fn read(&mut self, piece: &mut [u8]) -> Result<usize, Failed>
        ensures count { IfOk result (λ n. n ≤ length piece.new) }
        ensures bytes { IfOk result (λ n. Lost (take n piece.new) (left self.old) (left self.new)) }
        ensures end { IfOk result (λ n. n ≡ 0 → 0 < length piece.new
            → HasNothingLeft (left self.new)) }
        ensures kept { OnErr result (left self.new ≡ left self.old) }
        ensures cause { HasCause (faults self.old) (faults self.new) result };
}
