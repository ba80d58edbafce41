//! Why the input of `budget` is refused.
ghost use Rattle.std.specs.Prelude.{◌≡◌, IfOk, string_bytes};
ghost use Rattle.budget_command.specs.Words.{words_of_amount, words_of_fault, words_of_record};

use event_fields::{EventFault, event_words};
use slice_method::Amount;
use std::alloc::{AllocError, Global};

/// What is wrong with a record, in the order in which the rules are tried.
#[derive(Clone, Copy, Debug, PartialEq, Eq)]
pub enum RecordFault {
    /// Its fields are no event, whose good and total are at most 10^9.
    Event(EventFault),
    /// The current row of its cell has its revision and this other amount.
    Conflict(Amount),
    /// It would make one cell more than a table of samples may have.
    Limit,
}

/// Why an input is refused.
#[derive(Clone, Copy, Debug, PartialEq, Eq)]
pub enum BudgetFault {
    /// It has more than `MAX_INPUT_BYTES` bytes.
    TooLarge,
    /// The record of this number, counted from 1, is the first that breaks a rule.
    BadRecord { number: u64, fault: RecordFault },
}

/// Why there are no lines to print.
#[derive(Clone, Copy, Debug, PartialEq, Eq)]
pub enum BudgetError {
    Fault(BudgetFault),
    ReadFault,
    NoMemory,
}

/// The words for a conflict with a kept amount.
fn amount_words(alloc: Global, kept: Amount) -> Result<String, AllocError>
    ensures { IfOk result (λ text. string_bytes text ≡ words_of_amount kept) }
{
    match kept {
        Amount::Counts { part, total } => format!(in alloc; "conflict {part},{total}"),
        Amount::Value(value) => format!(in alloc; "conflict {value}"),
        Amount::Withdrawn => String::from_str(alloc, "conflict withdrawn"),
    }
}

/// The words for what is wrong with a record.
fn record_words(alloc: Global, fault: RecordFault) -> Result<String, AllocError>
    ensures { IfOk result (λ text. string_bytes text ≡ words_of_record fault) }
{
    match fault {
        RecordFault::Event(fault) => String::from_str(alloc, event_words(fault)),
        RecordFault::Conflict(kept) => amount_words(alloc, kept),
        RecordFault::Limit => String::from_str(alloc, "limit"),
    }
}

/// The words for an input that is refused.
pub fn budget_words(alloc: Global, fault: BudgetFault) -> Result<String, AllocError>
    ensures { IfOk result (λ text. string_bytes text ≡ words_of_fault fault) }
{
    match fault {
        BudgetFault::TooLarge => String::from_str(alloc, "input too large"),
        BudgetFault::BadRecord { number, fault } => {
            let words = record_words(alloc, fault)?;
            format!(in alloc; "record {number}: {words}")
        }
    }
}
