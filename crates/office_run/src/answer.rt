//! The answer of a command: from its input to its output.
ghost use Rattle.std.specs.Prelude.{◌≡◌, ◌≢◌, ◌+◌, ◌<◌, ◌≤◌, ◌⊎◌, ℕ, List, Ok, Err, Some, IfOk};
ghost use Rattle.std.specs.Prelude.{OnOk, length, string_bytes};
ghost use Rattle.office_outside.specs.Faults.{RoseBy};
ghost use Rattle.office_outside.specs.Told.{Gained, GainedPrefix, HasNothingLeft};
ghost use Rattle.office_run.specs.Answer.{Answers, IsAnswer};
ghost use Rattle.command_words.specs.Commands.{IsSound};
ghost use Rattle.office_run.specs.Commands.{most_bytes, most_taken};
ghost use Rattle.office_run.specs.Endings.{line_of_status};
ghost use Rattle.budget_command.specs.Input.{TakesAtMost};
ghost use Rattle.office_run.specs.Runs.{IsStatus, Prints, PrintsPart, GainsLine, TellsRefusal};

use crate::ending::{
    AnswerError, DISK_FAULT, DONE, Ending, READ_FAULT, REFUSED, RunRefusal, USAGE, WRITE_FAULT,
};
use crate::faults_sink::settle;
use crate::input::{InputFault, read_input};
use budget_command::{BudgetError, BudgetOrder, MAX_INPUT_BYTES, answer_budget};
use check_command::{answer_check, too_large_text};
use command_words::InputCommand;
use office_outside::{Sink, Source, write_whole};
use slo_limits::MAX_TEXT_BYTES;
use std::alloc::Global;

/// The lines of `budget` for an input, which is judged while it is read.
fn budget_input<S: Source>(
    alloc: Global,
    order: BudgetOrder,
    input: &mut S,
) -> Result<String, AnswerError>
    requires { IsSound (InputCommand.Budget order) }
    ensures ok { IfOk result (λ text.
        Answers (InputCommand.Budget order) (S.left input.old) (Ok (string_bytes text))) }
    ensures refused { (refusal : RunRefusal) → result ≡ Err (AnswerError.Refused refusal) →
        Answers (InputCommand.Budget order) (S.left input.old) (Err refusal) }
    ensures read { result ≡ Err AnswerError.ReadFault → RoseBy S.faults input.old input.new }
    ensures end { OnOk result (HasNothingLeft (S.left input.new)) }
    ensures later { S.faults input.old ≤ S.faults input.new }
    ensures takes { TakesAtMost (MAX_INPUT_BYTES + 1) (S.left input.old) (S.left input.new) }
{
    match answer_budget(alloc, order, input) {
        Ok(text) => Ok(text),
        Err(BudgetError::Fault(fault)) => Err(AnswerError::Refused(RunRefusal::Budget(fault))),
        Err(BudgetError::ReadFault) => Err(AnswerError::ReadFault),
        Err(BudgetError::NoMemory) => Err(AnswerError::NoMemory),
    }
}

/// The refusal of an input of more bytes than `check` takes.
fn too_large() -> RunRefusal
    ensures { (bytes : List ℕ) → MAX_TEXT_BYTES < length bytes →
        IsAnswer InputCommand.Check bytes (Err result) }
{
    RunRefusal::Check(too_large_text())
}

/// The lines of `check` for an input, which is read to its end before it is judged.
fn check_input<S: Source>(alloc: Global, input: &mut S) -> Result<String, AnswerError>
    ensures ok { IfOk result (λ text.
        Answers InputCommand.Check (S.left input.old) (Ok (string_bytes text))) }
    ensures refused { (refusal : RunRefusal) → result ≡ Err (AnswerError.Refused refusal) →
        Answers InputCommand.Check (S.left input.old) (Err refusal) }
    ensures read { result ≡ Err AnswerError.ReadFault → RoseBy S.faults input.old input.new }
    ensures end { OnOk result (HasNothingLeft (S.left input.new)) }
    ensures later { S.faults input.old ≤ S.faults input.new }
    ensures takes { TakesAtMost (MAX_TEXT_BYTES + 1) (S.left input.old) (S.left input.new) }
{
    let bytes = match read_input(alloc, input, MAX_TEXT_BYTES) {
        Ok(bytes) => bytes,
        Err(InputFault::TooLarge) => return Err(AnswerError::Refused(too_large())),
        Err(InputFault::ReadFault) => return Err(AnswerError::ReadFault),
        Err(InputFault::NoMemory) => return Err(AnswerError::NoMemory),
    };
    Ok(answer_check(alloc, &bytes)?)
}

/// The lines for an input, of which the command takes no more than it may have.
fn answer_input<S: Source>(
    alloc: Global,
    command: InputCommand,
    input: &mut S,
) -> Result<String, AnswerError>
    requires { IsSound command }
    ensures ok { IfOk result (λ text. Answers command (S.left input.old) (Ok (string_bytes text))) }
    ensures refused { (refusal : RunRefusal) → result ≡ Err (AnswerError.Refused refusal) →
        Answers command (S.left input.old) (Err refusal) }
    ensures read { result ≡ Err AnswerError.ReadFault → RoseBy S.faults input.old input.new }
    ensures end { OnOk result (HasNothingLeft (S.left input.new)) }
    ensures later { S.faults input.old ≤ S.faults input.new }
    ensures takes { TakesAtMost (most_bytes command + 1) (S.left input.old) (S.left input.new) }
{
    match command {
        InputCommand::Budget(order) => budget_input(alloc, order, input),
        InputCommand::Check => check_input(alloc, input),
    }
}

/// Writes all lines, and then passes them on.
pub fn write_lines<K: Sink>(output: &mut K, text: &str) -> Ending
    ensures done { result ≡ Ending.Done → Gained text.now (K.held output.old) (K.held output.new) }
    ensures part { result ≡ Ending.WriteFault →
        GainedPrefix text.now (K.held output.old) (K.held output.new) }
    ensures cause { result ≡ Ending.WriteFault → RoseBy K.faults output.old output.new }
    ensures other { (result ≡ Ending.Done) ⊎ (result ≡ Ending.WriteFault) }
    ensures later { K.faults output.old ≤ K.faults output.new }
{
    if write_whole(output, text.as_bytes()).is_err() || output.flush().is_err() {
        return Ending::WriteFault;
    }
    Ending::Done
}

/// Answers a command: reads the input, and writes the lines once all of it is judged.
pub fn print_answer<S: Source, K: Sink>(
    alloc: Global,
    command: InputCommand,
    input: &mut S,
    output: &mut K,
) -> Ending
    requires { IsSound command }
    ensures done { result ≡ Ending.Done →
        Prints (Some command) (S.left input.old) (K.held output.old) (K.held output.new) }
    ensures part { result ≡ Ending.WriteFault →
        PrintsPart (Some command) (S.left input.old) (K.held output.old) (K.held output.new) }
    ensures refused { (refusal : RunRefusal) → result ≡ Ending.Refused refusal →
        Answers command (S.left input.old) (Err refusal) }
    ensures quiet { result ≢ Ending.Done → result ≢ Ending.WriteFault →
        K.held output.new ≡ K.held output.old }
    ensures read { result ≡ Ending.ReadFault → RoseBy S.faults input.old input.new }
    ensures write { result ≡ Ending.WriteFault → RoseBy K.faults output.old output.new }
    ensures usage { result ≢ Ending.Usage }
    ensures end { result ≡ Ending.Done → HasNothingLeft (S.left input.new) }
    ensures takes { TakesAtMost (most_bytes command + 1) (S.left input.old) (S.left input.new) }
{
    match answer_input(alloc, command, input) {
        Ok(text) => write_lines(output, text.as_str()),
        Err(AnswerError::Refused(refusal)) => Ending::Refused(refusal),
        Err(AnswerError::ReadFault) => Ending::ReadFault,
        Err(AnswerError::NoMemory) => Ending::NoMemory,
    }
}

/// Runs a command that is answered from the bytes of its input, and answers the status that it ends
/// with.
pub fn run_answer<S: Source, K: Sink, E: Sink>(
    alloc: Global,
    command: InputCommand,
    input: &mut S,
    output: &mut K,
    faults: &mut E,
) -> u8
    requires { IsSound command }
    ensures status { IsStatus (Some command) (S.left input.old)
        (RoseBy S.faults input.old input.new) (RoseBy K.faults output.old output.new) result }

    // DONE: the output gained just the answer's lines, and the input was read to its end.
    ensures done { result ≡ DONE →
        Prints (Some command) (S.left input.old) (K.held output.old) (K.held output.new) }
    ensures end { result ≡ DONE → HasNothingLeft (S.left input.new) }
    ensures silent { result ≡ DONE → E.held faults.new ≡ E.held faults.old }

    // REFUSED: the answer is a refusal, and its line says which.
    ensures refused { result ≡ REFUSED →
        TellsRefusal (Some command) (S.left input.old)
        (E.held faults.old) (E.held faults.new) (E.faults faults.old) (E.faults faults.new) }

    // Each other status has its line, and a fault's status has that object's count as its cause.
    ensures told { result ≢ DONE → result ≢ REFUSED →
        GainsLine (line_of_status result) (E.held faults.old) (E.held faults.new)
        (E.faults faults.old) (E.faults faults.new) }
    ensures read { result ≡ READ_FAULT → RoseBy S.faults input.old input.new }
    ensures write { result ≡ WRITE_FAULT → RoseBy K.faults output.old output.new }
    ensures others { result ≢ USAGE }
    ensures diskless { result ≢ DISK_FAULT }

    // The output keeps what it held, but for a prefix of the lines where a write failed.
    ensures part { result ≡ WRITE_FAULT →
        PrintsPart (Some command) (S.left input.old) (K.held output.old) (K.held output.new) }
    ensures quiet { result ≢ DONE → result ≢ WRITE_FAULT → K.held output.new ≡ K.held output.old }
    ensures takes { TakesAtMost (most_taken (Some command)) (S.left input.old) (S.left input.new) }
{
    let ending = print_answer(alloc, command, input, output);
    settle(alloc, ending, faults)
}
