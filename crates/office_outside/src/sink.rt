//! Where bytes go.
ghost use Rattle.std.specs.Prelude.{◌≡◌, ◌<◌, ◌≤◌, List, ℕ, Option, length, take, IfOk, OnOk};
ghost use Rattle.std.specs.Prelude.{OnErr};
ghost use Rattle.office_outside.specs.Faults.{HasCause};
ghost use Rattle.office_outside.specs.Told.{Gained, GainedPrefix};

use crate::Failed;

/// Where bytes go.
pub trait Sink {
    /// The bytes that the sink holds, where it tells.
    ghost held: { Self → Option (List ℕ) };

    /// How often it failed.
    ghost faults: { Self → ℕ };

    /// Appends the first bytes of the piece and answers how many they are. Of a piece that isn't
    /// empty it takes at least one byte, or it answers `Failed`. After `Failed` nothing was
    /// appended.
    fn write(&mut self, piece: &[u8]) -> Result<usize, Failed>
        ensures count { IfOk result (λ n. n ≤ length piece.now) }
        ensures progress { IfOk result (λ n. 0 < length piece.now → 0 < n) }
        ensures gained { IfOk result (λ n. Gained (take n piece.now) (held self.old)
            (held self.new)) }
        ensures kept { OnErr result (held self.new ≡ held self.old) }
        ensures cause { HasCause (faults self.old) (faults self.new) result };

    /// Passes on what was written. It appends nothing.
    fn flush(&mut self) -> Result<(), Failed>
        ensures kept { held self.new ≡ held self.old }
        ensures cause { HasCause (faults self.old) (faults self.new) result };
}

/// Writes all of the piece, in as many writes as the sink takes for it. After `Failed` a prefix
/// of the piece was appended. It takes no memory of its own.
pub fn write_whole<K: Sink>(output: &mut K, piece: &[u8]) -> Result<(), Failed>
    ensures gained { OnOk result (Gained piece.now (K.held output.old) (K.held output.new)) }
    ensures part { OnErr result (GainedPrefix piece.now (K.held output.old) (K.held output.new)) }
    ensures cause { HasCause (K.faults output.old) (K.faults output.new) result }
{
    let mut done = 0;
    while done < piece.len() {
        done += output.write(&piece[done..])?;
    }
    Ok(())
}
