//! What the objectives of an SLO count.
ghost use Rattle.std.specs.Prelude.{◌≡◌, ◌++◌, ◌∷◌, [], All, IfOk, IfSome, OnOk, map, slice_get};
ghost use Rattle.std.specs.Prelude.{unwrap_or};
ghost use Rattle.std.specs.List.{AllByRecursion};
ghost use Rattle.std.specs.Option.{option_copied};
ghost use Rattle.kept_sums.specs.Objectives.{IsObjective};
ghost use Rattle.catalog_measures.specs.Measures.{IsMeasure};
ghost use Rattle.office_history.specs.Objectives.{measure_at as measure_at_def};
ghost use Rattle.office_history.specs.Objectives.{measure_of as measure_of_def};
ghost use Rattle.office_history.specs.Objectives.{measures_named as named_measures};
ghost use Rattle.office_history.specs.Objectives.{method_of as method_of_def};
ghost use Rattle.office_history.specs.Objectives.{slice_target as slice_target_def};
ghost use Rattle.office_history.specs.Objectives.{slice_width as slice_width_def};

use crate::bodies::{reading_named, slo_named};
use crate::laws;
use exact_fraction::{Decimal, Label, Op};
use object_terms::{BudgetingMethod, Objective, Slo};
use office_history::Measure;
use slice_method::{Method, Reading};
use slo_catalog::Catalog;
use std::alloc::{AllocError, Global};

fn slice_width(objective: &Objective) -> u32
    ensures { result ≡ slice_width_def objective.now }
{
    match objective.time_slice_window {
        Some(width) => width.minutes,
        None => 1,
    }
}

fn slice_target(objective: &Objective) -> Decimal
    ensures { result ≡ slice_target_def objective.now }
{
    match objective.time_slice_target {
        Some(target) => target.ratio,
        None => Decimal::of_billionths(0),
    }
}

fn value_of(objective: &Objective) -> Decimal
    ensures { result ≡ unwrap_or objective.now.value 0 }
{
    match objective.value {
        Some(value) => value,
        None => Decimal::of_billionths(0),
    }
}

fn method_of(method: BudgetingMethod, objective: &Objective) -> Method
    ensures { result ≡ method_of_def method objective.now }
{
    match method {
        BudgetingMethod::Occurrences => Method::Occurrences,
        BudgetingMethod::Timeslices => Method::Timeslices {
            width: slice_width(objective),
            target: slice_target(objective),
        },
        BudgetingMethod::RatioTimeslices => Method::RatioTimeslices {
            width: slice_width(objective),
        },
    }
}

fn measure_of(name: Label, slo: &Slo, reading: Reading, objective: &Objective) -> Measure
    ensures { result ≡ measure_of_def name slo.now reading objective.now }
{
    Measure {
        slo: name,
        sli: slo.indicator,
        reading,
        op: objective.op.unwrap_or(Op::Gte),
        value: value_of(objective),
        method: method_of(slo.budgeting_method, objective),
        target: objective.target.ratio,
    }
}

fn objective_at(slo: &Slo, number: u32) -> Option<&Objective>
    ensures { option_copied result ≡ slice_get slo.now.objectives number }
{
    slo.objectives.as_slice().get(number as usize)
}

/// The objective of this number of an SLO, from 0: none exactly where there is no such SLO or
/// number.
pub fn measure_at(catalog: &Catalog, name: Label, number: u32) -> Option<Measure>
    ensures value { result ≡ measure_at_def catalog.now name number }
    ensures ranges { IfSome result IsMeasure }
    ensures objective { IfSome result (IsObjective catalog.now) }
{
    let slo = slo_named(catalog, name)?;
    let reading = reading_named(catalog, slo.indicator)?;
    let objective = objective_at(slo, number)?;
    laws::objectives_give_measures();
    Some(measure_of(name, slo, reading, objective))
}

/// Adds a measure at the end.
fn add_measure(measures: &mut Vec<Measure>, measure: Measure) -> Result<(), AllocError>
    ensures { OnOk result (measures.new.items ≡ measures.old.items ++ measure ∷ []) }
{
    measures.extend_from_slice(&[measure])
}

fn measures_with(
    alloc: Global,
    name: Label,
    slo: &Slo,
    reading: Reading,
) -> Result<Vec<Measure>, AllocError>
    ensures { IfOk result (λ measures. measures.items
        ≡ map (measure_of_def name slo.now reading) slo.now.objectives) }
{
    let mut measures = Vec::new(alloc);
    for objective in slo.objectives.as_slice() {
        add_measure(&mut measures, measure_of(name, slo, reading, objective))?;
    }
    Ok(measures)
}

/// The objectives of an SLO, in their order: none where there is no such SLO.
///
/// # Errors
///
/// Memory ran out.
pub fn measures_named(
    alloc: Global,
    catalog: &Catalog,
    name: Label,
) -> Result<Vec<Measure>, AllocError>
    ensures value { IfOk result (λ measures. measures.items ≡ named_measures catalog.now name) }
    ensures ranges { IfOk result (λ measures. All IsMeasure measures.items) }
    ensures objectives { IfOk result (λ measures. AllByRecursion (IsObjective catalog.now)
        measures.items) }
{
    let Some(slo) = slo_named(catalog, name) else {
        return Ok(Vec::new(alloc));
    };
    let Some(reading) = reading_named(catalog, slo.indicator) else {
        return Ok(Vec::new(alloc));
    };
    laws::objectives_give_measures();
    let measures = measures_with(alloc, name, slo, reading)?;
    Ok(measures)
}
