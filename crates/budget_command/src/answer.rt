//! The answer of `budget`: from its input to its lines.
ghost use Rattle.std.specs.Prelude.{◌≡◌, ◌≢◌, ◌≤◌, ◌<◌, ◌+◌, [], Ok, Err, None, IfOk};
ghost use Rattle.std.specs.Prelude.{OnErr, OnOk, List, length, string_bytes, ℕ};
ghost use Rattle.office_outside.specs.Faults.{Rose};
ghost use Rattle.office_outside.specs.Told.{HasNothingLeft};
ghost use Rattle.csv_records.specs.Records.{csv_records};
ghost use Rattle.budget_command.specs.Answer.{IsBudgetAnswer};
ghost use Rattle.budget_command.specs.Input.{AnswersBudget, TakesAtMost};
ghost use Rattle.budget_command.specs.Tables.{AreAll, CanGoOn, HasJudged, IsFit};

use crate::MAX_INPUT_BYTES;
use crate::fault::{BudgetError, BudgetFault};
use crate::input::{InputFault, judge_input};
use crate::judging::Judging;
use crate::order::BudgetOrder;
use crate::table::Table;
use crate::text::{budget_text, events_within};
use office_outside::Source;
use slo_limits::WHOLE;
use std::alloc::Global;

/// The lines for the rows of an input whose records all keep the rules.
fn table_text(alloc: Global, order: BudgetOrder, table: &Table) -> Result<String, BudgetError>
    requires fit { IsFit table.now.book.rows }
    requires below_one { order.target < WHOLE }
    requires range { order.from ≤ order.to }
    ensures ok { IfOk result (λ text. (bytes : List ℕ) (next : ℕ) →
        length bytes ≤ MAX_INPUT_BYTES → AreAll (csv_records bytes) next table.now →
        IsBudgetAnswer order bytes (Ok (string_bytes text))) }
    ensures memory { OnErr result (result ≡ Err BudgetError.NoMemory) }
{
    let events = events_within(&table.book, order.from, order.to);
    let tallies = (table.corrected, table.repeated, table.superseded);
    match budget_text(alloc, events.cells, tallies, order.target, events.sum) {
        Ok(text) => Ok(text),
        Err(_) => Err(BudgetError::NoMemory),
    }
}

/// The lines for what came of an input's records.
fn judged_text(alloc: Global, order: BudgetOrder, judging: &Judging) -> Result<String, BudgetError>
    requires going { judging.now.fault ≡ None →
        CanGoOn judging.now.table judging.now.number }
    requires below_one { order.target < WHOLE }
    requires range { order.from ≤ order.to }
    ensures ok { IfOk result (λ text. (bytes : List ℕ) → length bytes ≤ MAX_INPUT_BYTES →
        HasJudged (csv_records bytes) judging.now →
        IsBudgetAnswer order bytes (Ok (string_bytes text))) }
    ensures fault { (fault : BudgetFault) → result ≡ Err (BudgetError.Fault fault) →
        (bytes : List ℕ) → length bytes ≤ MAX_INPUT_BYTES →
        HasJudged (csv_records bytes) judging.now → IsBudgetAnswer order bytes (Err fault) }
    ensures unread { result ≢ Err BudgetError.ReadFault }
{
    match judging.fault {
        None => table_text(alloc, order, &judging.table),
        Some(fault) => {
            let number = judging.number;
            Err(BudgetError::Fault(BudgetFault::BadRecord { number, fault }))
        }
    }
}

/// The same, from an input whose records aren't judged yet.
fn input_text<S: Source>(
    alloc: Global,
    order: BudgetOrder,
    judging: &mut Judging,
    input: &mut S,
) -> Result<String, BudgetError>
    requires new { HasJudged [] judging.old }
    requires below_one { order.target < WHOLE }
    requires range { order.from ≤ order.to }
    ensures ok { IfOk result (λ text.
        AnswersBudget order (S.left input.old) (Ok (string_bytes text))) }
    ensures fault { (fault : BudgetFault) → result ≡ Err (BudgetError.Fault fault) →
        AnswersBudget order (S.left input.old) (Err fault) }
    ensures read { result ≡ Err BudgetError.ReadFault →
        Rose (S.faults input.old) (S.faults input.new) }
    ensures end { OnOk result (HasNothingLeft (S.left input.new)) }
    ensures later { S.faults input.old ≤ S.faults input.new }
    ensures takes { TakesAtMost (MAX_INPUT_BYTES + 1) (S.left input.old) (S.left input.new) }
{
    match judge_input(judging, alloc, input) {
        Ok(()) => judged_text(alloc, order, judging),
        Err(InputFault::TooLarge) => Err(BudgetError::Fault(BudgetFault::TooLarge)),
        Err(InputFault::ReadFault) => Err(BudgetError::ReadFault),
        Err(InputFault::NoMemory) => Err(BudgetError::NoMemory),
    }
}

/// The lines for the bytes that an input has left. It is read in pieces, and its text isn't held:
/// memory is in proportion to the cells.
///
/// # Errors
///
/// `Fault` where the definition refuses the bytes, `ReadFault` only where the source counted a
/// fault, `NoMemory` where memory runs out.
pub fn answer_budget<S: Source>(
    alloc: Global,
    order: BudgetOrder,
    input: &mut S,
) -> Result<String, BudgetError>
    requires below_one { order.target < WHOLE }
    requires range { order.from ≤ order.to }
    ensures ok { IfOk result (λ text.
        AnswersBudget order (S.left input.old) (Ok (string_bytes text))) }
    ensures fault { (fault : BudgetFault) → result ≡ Err (BudgetError.Fault fault) →
        AnswersBudget order (S.left input.old) (Err fault) }
    ensures read { result ≡ Err BudgetError.ReadFault →
        Rose (S.faults input.old) (S.faults input.new) }
    ensures end { OnOk result (HasNothingLeft (S.left input.new)) }
    ensures later { S.faults input.old ≤ S.faults input.new }
    ensures takes { TakesAtMost (MAX_INPUT_BYTES + 1) (S.left input.old) (S.left input.new) }
{
    let mut judging = Judging::new(alloc);
    let answer = input_text(alloc, order, &mut judging, input);
    drop(judging);
    answer
}
