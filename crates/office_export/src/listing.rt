//! The requests of an export, one behind another.
ghost use Rattle.std.specs.Prelude.{◌≡◌, ◌++◌, IfOk, OnOk, is_some, map, slice_get};
ghost use Rattle.office_history.specs.Objectives.{slo_named};
ghost use Rattle.export_terms.specs.Moves.{export_kinds};
ghost use Rattle.office_export.specs.Steps.{content, exclusion_step, exclusion_steps, object_steps};
ghost use Rattle.office_export.specs.Steps.{row_steps, step_if, steps_of, steps_of_kind};
ghost use Rattle.office_export.specs.Steps.{upgrade_steps, zone_steps};

use crate::step::Step;
use exact_fraction::ZoneName;
use object_terms::Kind;
use office_derived::{Zones, names_in_order};
use sample_book::{Exclusion, SampleBook};
use slo_catalog::{Catalog, slo_in};
use std::alloc::{AllocError, Global};

/// The kinds, each behind those that it refers to.
pub(crate) const EXPORT_KINDS: [Kind; 7] = [
    Kind::DataSource,
    Kind::Service,
    Kind::Sli,
    Kind::AlertNotificationTarget,
    Kind::AlertCondition,
    Kind::AlertPolicy,
    Kind::Slo,
];

/// So many rows are sent at once.
pub(crate) const ROWS_AT_ONCE: u32 = 1_000;

fn push_upgrade(steps: &mut Vec<Step>, upgraded: bool) -> Result<(), AllocError>
    ensures { OnOk result (steps.new.items ≡ steps.old.items ++ upgrade_steps upgraded) }
{
    if upgraded {
        steps.push(Step::Upgrade)?;
    }
    Ok(())
}

/// The zones of these names.
fn push_names(steps: &mut Vec<Step>, names: &[ZoneName]) -> Result<(), AllocError>
    ensures { OnOk result (steps.new.items ≡ steps.old.items ++ map Step.Zone names.now) }
{
    for name in names {
        steps.push(Step::Zone(*name))?;
    }
    Ok(())
}

fn push_zones(alloc: Global, steps: &mut Vec<Step>, zones: &Zones) -> Result<(), AllocError>
    ensures { OnOk result (steps.new.items ≡ steps.old.items ++ zone_steps zones.now.kept) }
{
    let names = names_in_order(alloc, zones)?;
    push_names(steps, &names)
}

/// The objects of a kind.
fn push_kind(steps: &mut Vec<Step>, catalog: &Catalog, kind: Kind) -> Result<(), AllocError>
    ensures { OnOk result
        (steps.new.items ≡ steps.old.items ++ steps_of_kind kind 0 catalog.now) }
{
    let members = catalog.members();
    for place in 0..members.len() {
        if members[place].object().kind == kind {
            steps.push(Step::Object(place))?;
        }
    }
    Ok(())
}

/// The objects of these kinds.
fn push_kinds(steps: &mut Vec<Step>, catalog: &Catalog, kinds: &[Kind]) -> Result<(), AllocError>
    ensures { OnOk result
        (steps.new.items ≡ steps.old.items ++ object_steps catalog.now kinds.now) }
{
    for kind in kinds {
        push_kind(steps, catalog, *kind)?;
    }
    Ok(())
}

/// The objects of all kinds.
fn push_objects(steps: &mut Vec<Step>, catalog: &Catalog) -> Result<(), AllocError>
    ensures { OnOk result
        (steps.new.items ≡ steps.old.items ++ object_steps catalog.now export_kinds) }
{
    push_kinds(steps, catalog, &EXPORT_KINDS)
}

/// So many rows.
fn push_rows(steps: &mut Vec<Step>, count: u32) -> Result<(), AllocError>
    ensures { OnOk result (steps.new.items ≡ steps.old.items ++ row_steps count 0 count) }
{
    let mut first = 0;
    while count - first > ROWS_AT_ONCE {
        steps.push(Step::Rows(first))?;
        first += ROWS_AT_ONCE;
    }
    if first < count {
        steps.push(Step::Rows(first))?;
    }
    Ok(())
}

/// Whether there is an SLO of that name.
fn has_slo(catalog: &Catalog, exclusion: &Exclusion) -> bool
    ensures { result ≡ is_some (slo_named catalog.now exclusion.now.slo) }
{
    match catalog.find(Kind::Slo, exclusion.slo) {
        Some(object) => slo_in(&object.body).is_some(),
        None => false,
    }
}

/// An exclusion, and its lifting.
fn push_exclusion(
    steps: &mut Vec<Step>,
    catalog: &Catalog,
    place: u32,
    kept: (Exclusion, bool),
) -> Result<(), AllocError>
    ensures { OnOk result
        (steps.new.items ≡ steps.old.items ++ exclusion_step catalog.now place kept) }
{
    let (exclusion, is_live) = kept;
    if has_slo(catalog, &exclusion) {
        steps.push(Step::Put(place))?;
        if !is_live {
            steps.push(Step::Lift(place))?;
        }
    }
    Ok(())
}

/// The one at this place, if there is one.
fn push_exclusion_at(
    steps: &mut Vec<Step>,
    catalog: &Catalog,
    book: &SampleBook,
    place: u32,
) -> Result<(), AllocError>
    ensures { OnOk result (steps.new.items ≡ steps.old.items
        ++ step_if catalog.now place (slice_get book.now.exclusions place)) }
{
    match book.exclusion_at(place) {
        Some(kept) => push_exclusion(steps, catalog, place, kept),
        None => Ok(()),
    }
}

fn push_exclusions(
    steps: &mut Vec<Step>,
    catalog: &Catalog,
    book: &SampleBook,
) -> Result<(), AllocError>
    ensures { OnOk result
        (steps.new.items ≡ steps.old.items ++ exclusion_steps catalog.now 0 book.now.exclusions) }
{
    for place in 0..book.exclusions() {
        push_exclusion_at(steps, catalog, book, place)?;
    }
    Ok(())
}

/// All requests of an export.
pub(crate) fn steps_of(
    alloc: Global,
    upgraded: bool,
    zones: &Zones,
    catalog: &Catalog,
    book: &SampleBook,
) -> Result<Vec<Step>, AllocError>
    ensures { IfOk result (λ steps. steps.items ≡ steps_of (content upgraded zones.now.kept
        catalog.now book.now.rows book.now.exclusions)) }
{
    let mut steps = Vec::new(alloc);
    push_upgrade(&mut steps, upgraded)?;
    push_zones(alloc, &mut steps, zones)?;
    push_objects(&mut steps, catalog)?;
    push_rows(&mut steps, book.cells())?;
    push_exclusions(&mut steps, catalog, book)?;
    Ok(steps)
}
