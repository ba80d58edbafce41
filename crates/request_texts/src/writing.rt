//! Pieces that are written one behind another.
ghost use Rattle.std.specs.Prelude.{◌≡◌, ◌++◌, OnOk, OnErr};
ghost use Rattle.office_outside.specs.Faults.{HasCause};
ghost use Rattle.office_outside.specs.Told.{Gained, GainedPrefix};

use office_outside::{Failed, Sink, write_whole};

/// Writes one piece behind another. After `Failed` a prefix of both was written.
pub fn write_both<K: Sink>(first: &[u8], second: &[u8], output: &mut K) -> Result<(), Failed>
    ensures gained { OnOk result
        (Gained (first.now ++ second.now) (K.held output.old) (K.held output.new)) }
    ensures part { OnErr result
        (GainedPrefix (first.now ++ second.now) (K.held output.old) (K.held output.new)) }
    ensures cause { HasCause (K.faults output.old) (K.faults output.new) result }
{
    write_whole(output, first)?;
    write_whole(output, second)
}
