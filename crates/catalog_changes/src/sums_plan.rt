//! The plan of the sums that are kept with another catalog.
ghost use Rattle.std.specs.Prelude.{All, IfOk, List, OnOk, false, true};
ghost use Rattle.std.specs.Int.{◌∣◌};
ghost use Rattle.std.specs.List.{AllByRecursion, Contains};
ghost use Rattle.object_terms.specs.declared.Object.{Object};
ghost use Rattle.kept_sums.specs.Objectives.{AreKept, IsLike, IsObjective, key_by, made_for};
ghost use Rattle.kept_sums.specs.Plans.{IsPlan, wanted_keys};
ghost use Rattle.kept_sums.specs.Sums.{RowFits};
ghost use Rattle.catalog_measures.specs.Measures.{IsMeasure};
ghost use Rattle.office_derived.specs.Derived.{IsSound, RowIsRead};
ghost use Rattle.office_history.specs.declared.Measure.{Measure};
ghost use Rattle.window_sums.specs.Slices.{width_of};
ghost use Rattle.catalog_changes.specs.Wanted.{ArePlanned, HasWanted};

use crate::objectives::objectives_of;
use kept_sums::{ListPlan, ObjectiveSums, SumsPlan, is_wanted};
use office_derived::Derived;
use office_history::Measure;
use slo_catalog::Catalog;
use std::alloc::{AllocError, Global};

/// Whether sums are kept for an objective: pooled ones, or those of its SLO.
fn is_kept(derived: &Derived, pool: bool, measure: &Measure) -> bool {
    if pool {
        derived.sums.has_pooled(measure)
    } else {
        derived.sums.has_own(measure)
    }
}

/// Wants sums for an objective, and makes them unless they are kept.
fn want(
    alloc: Global,
    derived: &Derived,
    list: &mut ListPlan,
    pool: bool,
    measure: &Measure,
) -> Result<(), AllocError>
    requires sound { IsSound derived.now }
    requires width { width_of measure.now.method ∣ 60 }
    requires forms { AllByRecursion (RowFits measure.now) derived.now.book.rows }
    requires made { AreKept (made_for pool derived.now.book.exclusions) derived.now.book.rows
        list.old.made.items }
    ensures made { OnOk result (AreKept (made_for pool derived.now.book.exclusions)
        derived.now.book.rows list.new.made.items) }
    ensures here { OnOk result (Contains (wanted_keys pool list.new) (key_by pool measure.now)) }
    ensures still { OnOk result ((key : Measure) → Contains (wanted_keys pool list.old) key
        → Contains (wanted_keys pool list.new) key) }
    ensures only { (members : List Object) → IsLike members pool measure.now
        → AllByRecursion (IsLike members pool) list.old.wanted.items
        → OnOk result (AllByRecursion (IsLike members pool) list.new.wanted.items) }
{
    let wanted = is_wanted(&list.wanted, pool, measure);
    if wanted {
        return Ok(());
    }
    list.wanted.push(*measure)?;
    let kept = is_kept(derived, pool, measure);
    if kept {
        return Ok(());
    }
    let sums = derived.sums.new_sums(alloc, measure, pool, &derived.book)?;
    list.made.push(ObjectiveSums {
        measure: *measure,
        sums,
    })?;
    Ok(())
}

/// Wants sums for an objective: of its SLO where an exclusion of that is live, and else those that
/// it shares with other SLOs.
fn want_for(
    alloc: Global,
    derived: &Derived,
    plan: &mut SumsPlan,
    measure: &Measure,
) -> Result<(), AllocError>
    requires sound { IsSound derived.now }
    requires width { width_of measure.now.method ∣ 60 }
    requires forms { AllByRecursion (RowFits measure.now) derived.now.book.rows }
    requires made { ArePlanned derived.now.book.exclusions derived.now.book.rows plan.old }
    ensures made { OnOk result
        (ArePlanned derived.now.book.exclusions derived.now.book.rows plan.new) }
    ensures here { OnOk result (HasWanted derived.now.book.exclusions plan.new measure.now) }
    ensures still { OnOk result ((m : Measure)
        → HasWanted derived.now.book.exclusions plan.old m
        → HasWanted derived.now.book.exclusions plan.new m) }
    ensures own { (members : List Object) → IsObjective members measure.now
        → AllByRecursion (IsLike members false) plan.old.own.wanted.items
        → OnOk result (AllByRecursion (IsLike members false) plan.new.own.wanted.items) }
    ensures pooled { (members : List Object) → IsObjective members measure.now
        → AllByRecursion (IsLike members true) plan.old.pooled.wanted.items
        → OnOk result (AllByRecursion (IsLike members true) plan.new.pooled.wanted.items) }
{
    let excluded = derived.book.has_exclusions(measure.slo);
    if excluded {
        want(alloc, derived, &mut plan.own, false, measure)?;
        return Ok(());
    }
    want(alloc, derived, &mut plan.pooled, true, measure)?;
    Ok(())
}

/// Wants sums for these objectives, and for no others.
fn plan_for(
    alloc: Global,
    derived: &Derived,
    objectives: &[Measure],
) -> Result<SumsPlan, AllocError>
    requires sound { IsSound derived.now }
    requires ranges { All IsMeasure objectives.now }
    requires forms { All (λ m. AllByRecursion (RowFits m) derived.now.book.rows) objectives.now }
    ensures made { IfOk result (ArePlanned derived.now.book.exclusions derived.now.book.rows) }
    ensures own { IfOk result (λ plan. (members : List Object)
        → AllByRecursion (IsObjective members) objectives.now
        → AllByRecursion (IsLike members false) plan.own.wanted.items) }
    ensures pooled { IfOk result (λ plan. (members : List Object)
        → AllByRecursion (IsObjective members) objectives.now
        → AllByRecursion (IsLike members true) plan.pooled.wanted.items) }
    ensures all { IfOk result
        (λ plan. All (HasWanted derived.now.book.exclusions plan) objectives.now) }
{
    let mut plan = SumsPlan {
        own: ListPlan::new(alloc),
        pooled: ListPlan::new(alloc),
    };
    for measure in objectives {
        want_for(alloc, derived, &mut plan, measure)?;
    }
    Ok(plan)
}

/// What becomes of the sums that are kept as a catalog takes the place of the one that is kept: the
/// sums that its objectives have, and those of them that aren't kept yet, copied or made from the
/// rows of their indicators. It reads each row of the book.
///
/// # Errors
///
/// Memory ran out.
pub(crate) fn plan_sums(
    alloc: Global,
    derived: &Derived,
    catalog: &Catalog,
) -> Result<SumsPlan, AllocError>
    requires sound { IsSound derived.now }
    requires read { All (RowIsRead catalog.now) derived.now.book.rows }
    ensures { IfOk result (IsPlan catalog.now derived.now.book.exclusions derived.now.book.rows) }
{
    let objectives = objectives_of(alloc, catalog)?;
    let plan = plan_for(alloc, derived, &objectives)?;
    Ok(plan)
}
