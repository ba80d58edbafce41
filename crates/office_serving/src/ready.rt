//! The line that says that visitors may come.
ghost use Rattle.std.specs.Prelude.{OnErr, OnOk, codes};
ghost use Rattle.office_outside.specs.Faults.{HasCause};
ghost use Rattle.office_outside.specs.Told.{Gained, GainedPrefix};

use office_outside::{Failed, Sink, write_whole};

/// Says that visitors may come, and passes it on.
pub(crate) fn say_ready<K: Sink>(ready: &mut K) -> Result<(), Failed>
    ensures ok { OnOk result (Gained (codes "ready\n") (K.held ready.old) (K.held ready.new)) }
    ensures err { OnErr result (GainedPrefix (codes "ready\n") (K.held ready.old)
        (K.held ready.new)) }
    ensures cause { HasCause (K.faults ready.old) (K.faults ready.new) result }
{
    match write_whole(ready, b"ready\n") {
        Ok(()) => ready.flush(),
        Err(failed) => Err(failed),
    }
}
