//! The error budgets of an SLO.
ghost use Rattle.std.specs.Prelude.{◌≡◌, ◌≤◌, ◌<◌, All, IfOk, Some, length};
ghost use Rattle.std.specs.List.{AllByRecursion};
ghost use Rattle.kept_sums.specs.Objectives.{IsObjective};
ghost use Rattle.catalog_measures.specs.Measures.{IsMeasure};
ghost use Rattle.object_laws.specs.Ranges.{IsWindow};
ghost use Rattle.record_form.specs.declared.Query.TheVariants.{Budgets};
ghost use Rattle.office_history.specs.History.{Office, end_of};
ghost use Rattle.office_history.specs.Catalog.{catalog_in};
ghost use Rattle.office_history.specs.Objectives.{measures_named as measures_named_def};
ghost use Rattle.office_history.specs.Objectives.{slo_named as slo_named_def};
ghost use Rattle.office_history.specs.Answers.{Answers, AnswersBudgets};
ghost use Rattle.office_history.specs.Answers.{budgets_from as budgets_from_def};
ghost use Rattle.office_history.specs.Answers.{budget_rows as budget_rows_def};
ghost use Rattle.office_derived.specs.Derived.{IsSound, Reflects};
ghost use Rattle.kept_lines.specs.Sums.{samples_of};

use crate::asked::{asked_at, is_outside};
use crate::sums::sum_between;
use crate::window_start::window_start;
use burn_core::{burn, error_rate, remaining};
use catalog_measures::{measures_named, slo_named};
use exact_fraction::Label;
use object_terms::Slo;
use office_derived::Derived;
use office_history::Measure;
use record_form::{BudgetRow, Listed, Outcome, Refusal};
use slo_limits::{MAX_OBJECTIVES, RANGE_MINUTES};
use std::alloc::{AllocError, Global};

/// The budgets of objectives, by their numbers, counted over [from, at).
pub(crate) fn budget_rows(
    alloc: Global,
    derived: &Derived,
    measures: &[Measure],
    from: u32,
    at: u32,
) -> Result<Vec<BudgetRow>, AllocError>
    requires sound { IsSound derived.now }
    requires ranges { All IsMeasure measures.now }
    requires objectives { AllByRecursion (IsObjective derived.now.catalog) measures.now }
    requires order { from ≤ at }
    requires few { length measures.now ≤ MAX_OBJECTIVES }
    ensures { IfOk result (λ rows. rows.items
        ≡ budget_rows_def (samples_of derived.now.book) from at 0 measures.now) }
{
    let mut rows = Vec::new(alloc);
    let mut number = 0;
    for measure in measures {
        let sum = sum_between(derived, measure, from, at);
        rows.push(BudgetRow {
            burn: burn(sum, measure.target),
            den: sum.den,
            error: error_rate(sum),
            from,
            num: sum.num,
            objective: number,
            remaining: remaining(sum, measure.target),
        })?;
        number += 1;
    }
    Ok(rows)
}

fn budgets_from(
    alloc: Global,
    derived: &Derived,
    name: Label,
    from: u32,
    at: u32,
) -> Result<Outcome, AllocError>
    requires sound { IsSound derived.now }
    requires order { from ≤ at }
    requires few { length (measures_named_def derived.now.catalog name) ≤ MAX_OBJECTIVES }
    ensures { (o : Office) → Reflects derived.now o
        → IfOk result (λ outcome. outcome
        ≡ budgets_from_def o at (measures_named_def (catalog_in o.history) name) (Some from)) }
{
    let measures = measures_named(alloc, &derived.catalog, name)?;
    let rows = budget_rows(alloc, derived, measures.as_slice(), from, at)?;
    Ok(Outcome::Budgets {
        at,
        budgets: Listed::from_vec(rows),
        entries: derived.entries,
    })
}

#[tactic(auto, using(crate::proofs::BudgetLemmas::few_measures))]
fn budgets_of(
    alloc: Global,
    derived: &Derived,
    moment: u32,
    name: Label,
    slo: &Slo,
    at: u32,
) -> Result<Outcome, AllocError>
    requires sound { IsSound derived.now }
    requires in_range { moment < end_of derived.now.origin }
    requires there { slo_named_def derived.now.catalog name ≡ Some slo.now }
    requires few { length slo.now.objectives ≤ MAX_OBJECTIVES }
    requires window { IsWindow slo.now.time_window }
    ensures { (o : Office) → Reflects derived.now o
        → IfOk result (AnswersBudgets o moment name at (Some slo.now)) }
{
    if is_outside(derived, moment, at) {
        return Ok(Outcome::Refused(Refusal::Range));
    }
    let horizon = derived.origin + RANGE_MINUTES;
    match window_start(&derived.zones, &slo.time_window, horizon, at) {
        Some(from) => budgets_from(alloc, derived, name, from, at),
        None => Ok(Outcome::Refused(Refusal::NoWindow { at })),
    }
}

/// The budgets of an SLO at a minute, or else at the moment.
pub(crate) fn budget_list(
    alloc: Global,
    derived: &Derived,
    moment: u32,
    name: Label,
    at: Option<u32>,
) -> Result<Outcome, AllocError>
    requires sound { IsSound derived.now }
    requires in_range { moment < end_of derived.now.origin }
    ensures { (o : Office) → Reflects derived.now o
        → IfOk result (Answers o moment (Budgets name at)) }
{
    match slo_named(&derived.catalog, name) {
        Some(slo) => budgets_of(alloc, derived, moment, name, slo, asked_at(moment, at)),
        None => Ok(Outcome::Refused(Refusal::NotFound)),
    }
}
