//! How a run ends: its status, and the line that says why.
ghost use Rattle.std.specs.Prelude.{◌≡◌, IfOk, string_bytes};
ghost use Rattle.office_run.specs.Endings.{line_of_status, refusal_line_of, refusal_words_of};

use budget_command::{BudgetFault, budget_words};
use check_command::{CheckError, check_words};
use record_form::Refusal;
use std::alloc::{AllocError, Global};

/// All was read, judged and written.
pub const DONE: u8 = 0;

/// The words are no form of a command.
pub const USAGE: u8 = 2;

/// The file of the journal is none, is there already, or is damaged.
pub const BAD_FILE: u8 = 3;

/// The disk failed while the journal was made or opened.
pub const DISK_FAULT: u8 = 4;

/// The input couldn't be read.
pub const READ_FAULT: u8 = 5;

/// The output couldn't be written.
pub const WRITE_FAULT: u8 = 6;

/// Memory ran out.
pub const NO_MEMORY: u8 = 7;

/// The doors couldn't be opened, or one of them failed.
pub const DOORS_FAULT: u8 = 8;

/// The input is refused, for the reason that the line says.
pub const REFUSED: u8 = 9;

/// Why an input is refused, by the command that refuses it.
#[derive(Drop)]
pub enum RunRefusal {
    Budget(BudgetFault),
    Check(Refusal),
}

/// Why there are no lines to print.
#[derive(Drop)]
pub enum AnswerError {
    Refused(RunRefusal),
    ReadFault,
    NoMemory,
}

impl From<CheckError> for AnswerError {
    ghost use Rattle.std.specs.Prelude.{◌≡◌};
    ghost use Rattle.office_run.specs.Endings.{answer_error_of};

    ghost from_gives = { λ error reason. reason ≡ answer_error_of error };

    fn from(error: CheckError) -> AnswerError {
        match error {
            CheckError::Fault(refusal) => AnswerError::Refused(RunRefusal::Check(refusal)),
            CheckError::NoMemory => AnswerError::NoMemory,
        }
    }
}

/// How a run ends.
#[derive(Drop)]
pub enum Ending {
    Done,
    Usage,
    ReadFault,
    WriteFault,
    NoMemory,
    Refused(RunRefusal),
}

/// The words for an input that is refused.
fn refusal_words(alloc: Global, refusal: RunRefusal) -> Result<String, AllocError>
    ensures { IfOk result (λ words. string_bytes words ≡ refusal_words_of refusal) }
{
    match refusal {
        RunRefusal::Budget(fault) => budget_words(alloc, fault),
        RunRefusal::Check(fault) => check_words(alloc, fault),
    }
}

/// The line for an input that is refused.
pub fn refusal_line(alloc: Global, refusal: RunRefusal) -> Result<String, AllocError>
    ensures { IfOk result (λ line. string_bytes line ≡ refusal_line_of refusal) }
{
    let words = refusal_words(alloc, refusal)?;
    format!(in alloc; "slo_office: {words}\n")
}

/// The line for a status that needs no further words.
pub fn status_line(status: u8) -> &'static str
    ensures { result.now ≡ line_of_status status }
{
    match status {
        USAGE => "slo_office: usage\n",
        DISK_FAULT => "slo_office: disk fault\n",
        READ_FAULT => "slo_office: read fault\n",
        WRITE_FAULT => "slo_office: write fault\n",
        NO_MEMORY => "slo_office: no memory\n",
        DOORS_FAULT => "slo_office: doors fault\n",
        _ => "",
    }
}
