//! How a run over readings ends, and why an input is refused.
ghost use Rattle.std.specs.Prelude.{◌≡◌, IfOk, string_bytes};
ghost use Rattle.counters_command.specs.Words.{words_of_fault, words_of_reading};

use counter_book::CounterReading;
use event_fields::{EventFault, event_words};
use std::alloc::{AllocError, Global};

/// What is wrong with a record, in the order in which the rules are tried.
#[derive(Clone, Copy, PartialEq, Eq)]
pub enum ReadingFault {
    /// It is no reading.
    Event(EventFault),
    /// The newest reading of its source's minute has its revision and other numbers: these.
    Conflict(CounterReading),
    /// It would make one reading more than a book may have.
    Limit,
    /// The difference at this minute would be new or changed with a total that no sample has.
    Jump(u32),
}

/// Why an input is refused.
#[derive(Clone, Copy, PartialEq, Eq)]
pub enum CountersFault {
    /// It has more than `MAX_INPUT_BYTES` bytes. No row is written.
    TooLarge,
    /// The record of this number, counted from 1, is the first that breaks a rule. The rows of
    /// those before it are written.
    BadRecord { number: u64, fault: ReadingFault },
}

/// How a run ends.
#[derive(Clone, Copy, PartialEq, Eq)]
pub enum CountersEnd {
    /// All rows are written.
    Done,
    Refused(CountersFault),
    /// The input couldn't be read. No row is written.
    ReadFault,
    /// The output couldn't be written. The rows are written up to there.
    WriteFault,
    /// Memory ran out. The rows are written up to there.
    NoMemory,
}

/// The words for what is wrong with a record.
fn reading_words(alloc: Global, fault: ReadingFault) -> Result<String, AllocError>
    ensures { IfOk result (λ text. string_bytes text ≡ words_of_reading fault) }
{
    match fault {
        ReadingFault::Event(fault) => String::from_str(alloc, event_words(fault)),
        ReadingFault::Conflict(kept) => {
            let good = kept.good;
            let total = kept.total;
            format!(in alloc; "conflict {good},{total}")
        }
        ReadingFault::Limit => String::from_str(alloc, "limit"),
        ReadingFault::Jump(minute) => format!(in alloc; "jump {minute}"),
    }
}

/// The words for an input that is refused.
pub fn counters_words(alloc: Global, fault: CountersFault) -> Result<String, AllocError>
    ensures { IfOk result (λ text. string_bytes text ≡ words_of_fault fault) }
{
    match fault {
        CountersFault::TooLarge => String::from_str(alloc, "input too large"),
        CountersFault::BadRecord { number, fault } => {
            let words = reading_words(alloc, fault)?;
            format!(in alloc; "record {number}: {words}")
        }
    }
}
