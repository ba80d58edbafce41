//! What a query answers.
ghost use Rattle.std.specs.Prelude.{◌≡◌, ◌≤◌, ◌<◌, ◌⊎◌, IfOk};
ghost use Rattle.office_history.specs.History.{Office, end_of};
ghost use Rattle.office_history.specs.Answers.{Answers};
ghost use Rattle.office_history.specs.Legal.{IsLegal};
ghost use Rattle.office_derived.specs.Derived.{IsSound, Reflects};
ghost use Rattle.kept_lines.specs.Known.{AllKnow};
ghost use Rattle.kept_lines.specs.Lines.{HasLines};
ghost use Rattle.history_answers.specs.Learning.{KnowsAnswered};

use crate::budget_list::budget_list;
use crate::burn_rate::burn_rate;
use crate::current_row::current_row;
use crate::entries::entries;
use crate::exclusion_list::exclusion_list;
use crate::notice_list::notice_list;
use crate::object_list::{object_list, object_text};
use crate::status::status;
use crate::sum_list::sum_list;
use crate::timeline::timeline;
use crate::window_list::window_list;
use crate::zone_list::zone_list;
use catalog_terms::Binding;
use entry_records::EntryRecords;
use kept_lines::KeptLines;
use office_derived::Derived;
use record_form::{Outcome, Query};
use std::alloc::{AllocError, Global};

fn answered(
    alloc: Global,
    derived: &Derived,
    lines: &mut KeptLines,
    records: &EntryRecords,
    moment: u32,
    query: &Query,
) -> Result<Outcome, AllocError>
    requires sound { IsSound derived.now }
    requires begun { derived.now.origin ≤ moment }
    requires in_range { moment < end_of derived.now.origin }
    requires lines { HasLines derived.now lines.old.kept }
    ensures answer { (o : Office) → Reflects derived.now o → records.now.history ≡ o.history
        → IsLegal o.origin o.history → IfOk result (Answers o moment query.now) }
    ensures lines { HasLines derived.now lines.new.kept }
    ensures know { AllKnow lines.old.kept lines.new.kept }
    ensures learnt { IfOk result (KnowsAnswered derived.now.catalog lines.new.kept query.now) }
    ensures spare { lines.new.spare ≡ lines.old.spare }
{
    match *query {
        Query::Objects => object_list(alloc, derived),
        Query::Object { kind, name } => object_text(alloc, derived, kind, name),
        Query::Budgets { slo, at } => budget_list(alloc, derived, moment, slo, at),
        Query::Burn {
            slo,
            objective,
            lookback,
            at,
        } => Ok(burn_rate(derived, moment, slo, objective, lookback, at)),
        Query::Timeline {
            slo,
            objective,
            policy,
            from,
            to,
        } => {
            let binding = Binding {
                slo,
                objective,
                policy,
            };
            timeline(derived, lines, moment, &binding, from, to)
        }
        Query::Notices => notice_list(alloc, derived),
        Query::Entries { from } => entries(alloc, derived, records, from),
        Query::Row {
            sli,
            source,
            minute,
        } => Ok(current_row(derived, sli, source, minute)),
        Query::Exclusions => exclusion_list(alloc, derived),
        Query::Zones => zone_list(alloc, derived),
        Query::Status => Ok(status(derived, records, moment)),
        Query::Sums {
            slo,
            objective,
            from,
            to,
            step,
        } => sum_list(alloc, derived, moment, slo, objective, from, to, step),
        Query::Windows { slo, from, to } => window_list(alloc, derived, moment, slo, from, to),
    }
}

/// The answer to a query at a moment of the office's range, or `NoMemory` where memory ran out. The
/// records are those of the history, which is legal. No line forgets a minute, and a timeline that
/// is given has its minutes known.
pub fn answer(
    alloc: Global,
    derived: &Derived,
    lines: &mut KeptLines,
    records: &EntryRecords,
    moment: u32,
    query: &Query,
) -> Outcome
    requires sound { IsSound derived.now }
    requires begun { derived.now.origin ≤ moment }
    requires in_range { moment < end_of derived.now.origin }
    requires lines { HasLines derived.now lines.old.kept }
    ensures answer { (o : Office) → Reflects derived.now o → records.now.history ≡ o.history
        → IsLegal o.origin o.history
        → (Answers o moment query.now result ⊎ (result ≡ Outcome.NoMemory)) }
    ensures lines { HasLines derived.now lines.new.kept }
    ensures know { AllKnow lines.old.kept lines.new.kept }
    ensures learnt { KnowsAnswered derived.now.catalog lines.new.kept query.now result }
    ensures spare { lines.new.spare ≡ lines.old.spare }
{
    match answered(alloc, derived, lines, records, moment, query) {
        Ok(outcome) => outcome,
        Err(_) => Outcome::NoMemory,
    }
}
