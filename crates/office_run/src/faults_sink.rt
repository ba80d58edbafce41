//! What the faults sink is told.
ghost use Rattle.std.specs.Prelude.{◌≡◌};
ghost use Rattle.office_run.specs.Endings.{line_of_status};
ghost use Rattle.office_run.specs.Runs.{Settled, GainsLine};

use crate::ending::{
    DONE, Ending, NO_MEMORY, READ_FAULT, REFUSED, USAGE, WRITE_FAULT, refusal_line, status_line,
};
use office_outside::{Sink, write_whole};
use std::alloc::Global;

/// Tells a line. A fault of the faults sink changes nothing else.
pub fn tell<E: Sink>(faults: &mut E, line: &str)
    ensures { GainsLine line.now (E.held faults.old) (E.held faults.new) (E.faults faults.old)
        (E.faults faults.new) }
{
    let _ = write_whole(faults, line.as_bytes());
}

/// Tells a line, and answers this status.
pub fn tell_as<E: Sink>(faults: &mut E, line: &str, status: u8) -> u8
    ensures status { result ≡ status }
    ensures told { GainsLine line.now (E.held faults.old) (E.held faults.new) (E.faults faults.old)
        (E.faults faults.new) }
{
    tell(faults, line);
    status
}

/// Tells the line of a status, and answers the status.
pub fn tell_status<E: Sink>(faults: &mut E, status: u8) -> u8
    ensures status { result ≡ status }
    ensures told { GainsLine (line_of_status status) (E.held faults.old) (E.held faults.new)
        (E.faults faults.old) (E.faults faults.new) }
{
    tell(faults, status_line(status));
    status
}

/// The end of a run without memory for its words.
pub fn run_out_of_memory<E: Sink>(faults: &mut E) -> u8
    ensures status { result ≡ NO_MEMORY }
    ensures told { GainsLine (line_of_status NO_MEMORY) (E.held faults.old) (E.held faults.new)
        (E.faults faults.old) (E.faults faults.new) }
{
    tell_status(faults, NO_MEMORY)
}

/// The status of an ending, whose line the faults sink is told.
pub fn settle<E: Sink>(alloc: Global, ending: Ending, faults: &mut E) -> u8
    ensures { Settled ending result (E.held faults.old) (E.held faults.new) (E.faults faults.old)
        (E.faults faults.new) }
{
    match ending {
        Ending::Done => DONE,
        Ending::Usage => tell_status(faults, USAGE),
        Ending::ReadFault => tell_status(faults, READ_FAULT),
        Ending::WriteFault => tell_status(faults, WRITE_FAULT),
        Ending::NoMemory => tell_status(faults, NO_MEMORY),
        Ending::Refused(refusal) => match refusal_line(alloc, refusal) {
            Ok(line) => {
                tell(faults, line.as_str());
                REFUSED
            }
            Err(_) => tell_status(faults, NO_MEMORY),
        },
    }
}
