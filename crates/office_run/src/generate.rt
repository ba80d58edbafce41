//! `generate N`: prints the summary of a session of the sample stream of a number.
ghost use Rattle.std.specs.Prelude.{◌≡◌, ◌≢◌, ◌≤◌};
ghost use Rattle.sample_stream.specs.declared.stream.TheConstants.{MAX_NUMBER};
ghost use Rattle.office_outside.specs.Faults.{RoseBy};
ghost use Rattle.office_run.specs.Generate.{EndsGenerating, SettledGenerate};

use crate::answer::write_lines;
use crate::ending::{DISK_FAULT, DONE, Ending, NO_MEMORY, READ_FAULT, USAGE, WRITE_FAULT};
use crate::faults_sink::tell_status;
use generate_command::generated_summary;
use office_outside::Sink;
use std::alloc::Global;

/// How the printing of a summary ends.
#[derive(Clone, Copy, Debug, PartialEq, Eq)]
pub enum GenerateEnd {
    /// The summary was printed.
    Done,
    /// The output's count of faults rose while the summary was written.
    WriteFault,
    /// Memory was refused, somewhere in the session too.
    NoMemory,
}

/// Prints the summary of the stream of a number.
fn print_summary<K: Sink>(alloc: Global, number: u32, output: &mut K) -> GenerateEnd
    requires { number ≤ MAX_NUMBER }
    ensures { EndsGenerating number result (K.held output.old) (K.held output.new)
        (K.faults output.old) (K.faults output.new) }
{
    let Ok(text) = generated_summary(alloc, number) else {
        return GenerateEnd::NoMemory;
    };
    match write_lines(output, text.as_str()) {
        Ending::Done => GenerateEnd::Done,
        _ => GenerateEnd::WriteFault,
    }
}

/// The status of an end, whose line the faults sink is told.
fn settle_generate<E: Sink>(end: GenerateEnd, faults: &mut E) -> u8
    ensures { SettledGenerate end result (E.held faults.old) (E.held faults.new)
        (E.faults faults.old) (E.faults faults.new) }
{
    match end {
        GenerateEnd::Done => DONE,
        GenerateEnd::WriteFault => tell_status(faults, WRITE_FAULT),
        GenerateEnd::NoMemory => tell_status(faults, NO_MEMORY),
    }
}

/// Runs `generate`, and answers the status that it ends with.
pub fn run_generate<K: Sink, E: Sink>(
    alloc: Global,
    number: u32,
    output: &mut K,
    faults: &mut E,
) -> u8
    requires { number ≤ MAX_NUMBER }
    ensures settled { (end : GenerateEnd)
        × SettledGenerate end result (E.held faults.old) (E.held faults.new)
        (E.faults faults.old) (E.faults faults.new)
        × EndsGenerating number end (K.held output.old) (K.held output.new)
        (K.faults output.old) (K.faults output.new) }
    ensures silent { result ≡ DONE → E.held faults.new ≡ E.held faults.old }
    ensures write { result ≡ WRITE_FAULT → RoseBy K.faults output.old output.new }
    ensures usable { result ≢ USAGE }
    ensures unread { result ≢ READ_FAULT }
    ensures diskless { result ≢ DISK_FAULT }
{
    let end = print_summary(alloc, number, output);
    settle_generate(end, faults)
}
