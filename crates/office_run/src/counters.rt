//! `counters SLI`: writes the sample rows of the readings of the input.
ghost use Rattle.std.specs.Prelude.{◌≡◌, ◌≢◌, IfOk, string_bytes};
ghost use Rattle.office_outside.specs.Faults.{RoseBy};
ghost use Rattle.office_run.specs.Counters.{SettledCounters, SettledRefusal, WritesRows};
ghost use Rattle.office_run.specs.Counters.{refusal_line as refusal_line_of};

use crate::ending::{DISK_FAULT, DONE, NO_MEMORY, READ_FAULT, REFUSED, USAGE, WRITE_FAULT};
use crate::faults_sink::{tell_as, tell_status};
use counters_command::{CountersEnd, CountersFault, counters_words, write_rows};
use exact_fraction::Label;
use office_outside::{Sink, Source};
use std::alloc::{AllocError, Global};

/// The line for an input that is refused.
fn refusal_line(alloc: Global, fault: CountersFault) -> Result<String, AllocError>
    ensures { IfOk result (λ line. string_bytes line ≡ refusal_line_of fault) }
{
    let words = counters_words(alloc, fault)?;
    format!(in alloc; "slo_office: {words}\n")
}

/// The status of an input that is refused, whose line the faults sink is told.
fn settle_refusal<E: Sink>(alloc: Global, fault: CountersFault, faults: &mut E) -> u8
    ensures { SettledRefusal fault result (E.held faults.old) (E.held faults.new)
        (E.faults faults.old) (E.faults faults.new) }
{
    match refusal_line(alloc, fault) {
        Ok(line) => tell_as(faults, line.as_str(), REFUSED),
        Err(_) => tell_status(faults, NO_MEMORY),
    }
}

/// The status of an end, whose line the faults sink is told.
fn settle_counters<E: Sink>(alloc: Global, end: CountersEnd, faults: &mut E) -> u8
    ensures { SettledCounters end result (E.held faults.old) (E.held faults.new)
        (E.faults faults.old) (E.faults faults.new) }
{
    match end {
        CountersEnd::Done => DONE,
        CountersEnd::Refused(fault) => settle_refusal(alloc, fault, faults),
        CountersEnd::ReadFault => tell_status(faults, READ_FAULT),
        CountersEnd::WriteFault => tell_status(faults, WRITE_FAULT),
        CountersEnd::NoMemory => tell_status(faults, NO_MEMORY),
    }
}

/// Runs `counters`, and answers the status that it ends with.
pub fn run_counters<S: Source, K: Sink, E: Sink>(
    alloc: Global,
    sli: Label,
    input: &mut S,
    output: &mut K,
    faults: &mut E,
) -> u8
    ensures settled { (end : CountersEnd)
        × SettledCounters end result (E.held faults.old) (E.held faults.new)
        (E.faults faults.old) (E.faults faults.new)
        × WritesRows sli end (S.left input.old) (S.left input.new)
        (K.held output.old) (K.held output.new) }
    ensures silent { result ≡ DONE → E.held faults.new ≡ E.held faults.old }
    ensures read { result ≡ READ_FAULT → RoseBy S.faults input.old input.new }
    ensures write { result ≡ WRITE_FAULT → RoseBy K.faults output.old output.new }
    ensures usable { result ≢ USAGE }
    ensures diskless { result ≢ DISK_FAULT }
{
    let end = write_rows(alloc, sli, input, output);
    settle_counters(alloc, end, faults)
}
