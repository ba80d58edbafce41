//! The writing of a whole text.
ghost use Rattle.std.specs.Prelude.{OnErr, OnOk};
ghost use Rattle.office_outside.specs.Faults.{HasCauseBy};
ghost use Rattle.office_outside.specs.Told.{Gained, GainedPrefix};

use office_outside::{Failed, Sink, write_whole};

/// Writes all bytes, and passes them on.
pub(crate) fn write_out<K: Sink>(output: &mut K, bytes: &[u8]) -> Result<(), Failed>
    ensures ok { OnOk result (Gained bytes.now (K.held output.old) (K.held output.new)) }
    ensures err { OnErr result (GainedPrefix bytes.now (K.held output.old) (K.held output.new)) }
    ensures cause { HasCauseBy K.faults output.old output.new result }
{
    match write_whole(output, bytes) {
        Ok(()) => output.flush(),
        Err(failed) => Err(failed),
    }
}
