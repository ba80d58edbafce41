//! The summary of a session.
ghost use Rattle.std.specs.Prelude.{◌≡◌, IfOk, Some, string_bytes};
ghost use Rattle.generate_command.specs.Summary.{AreBudgetLines, IsSummary};
ghost use Rattle.generate_command.specs.Summary.{budget_lines as budget_lines_def, summary_text};

use crate::tally::SessionTally;
use exact_fraction::Fraction;
use record_form::BudgetRow;
use std::alloc::{AllocError, Global};

/// The lines of a budget.
fn budget_lines(
    alloc: Global,
    row: &BudgetRow,
    burn: Fraction,
    remaining: Fraction,
) -> Result<String, AllocError>
    ensures { IfOk result (λ text. string_bytes text ≡ budget_lines_def row.now burn remaining) }
{
    let num = row.num;
    let den = row.den;
    format!(in alloc; "num {num}\nden {den}\nburn {burn}\nremaining {remaining}\n")
}

/// All lines.
fn lines(
    alloc: Global,
    tally: &SessionTally,
    entries: u32,
    cells: u32,
    budget: &str,
) -> Result<String, AllocError>
    ensures { IfOk result (λ text. string_bytes text
        ≡ summary_text tally.now entries cells budget.now) }
{
    let requests = tally.requests;
    let ok = tally.ok;
    format!(in alloc; "requests {requests}\nok {ok}\nentries {entries}\ncells {cells}\n{budget}")
}

/// The lines of a budget that has a burn rate.
fn row_lines(alloc: Global, row: &BudgetRow) -> Result<String, AllocError>
    ensures { IfOk result (λ text. AreBudgetLines row.now (string_bytes text)) }
{
    match row.burn {
        Some(burn) => match row.remaining {
            Some(remaining) => budget_lines(alloc, row, burn, remaining),
            None => Err(AllocError),
        },
        None => Err(AllocError),
    }
}

/// The summary of a session that told a budget.
pub(crate) fn summary(
    alloc: Global,
    tally: &SessionTally,
    entries: u32,
    cells: u32,
) -> Result<String, AllocError>
    ensures { IfOk result (λ text. IsSummary tally.now entries cells (string_bytes text)) }
{
    match &tally.budget {
        Some(row) => {
            let budget = row_lines(alloc, row)?;
            lines(alloc, tally, entries, cells, budget.as_str())
        }
        None => Err(AllocError),
    }
}
