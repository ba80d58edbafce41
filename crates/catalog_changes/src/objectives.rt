//! The objectives of a catalog.
ghost use Rattle.std.specs.Prelude.{◌≡◌, All, IfOk, OnOk, ◌++◌};
ghost use Rattle.catalog_measures.specs.Measures.{IsMeasure};
ghost use Rattle.office_history.specs.Objectives.{measures_named as measures_named_def};
ghost use Rattle.catalog_changes.specs.Wanted.{objectives_in};

use catalog_measures::{measures_named, slo_names};
use exact_fraction::Label;
use office_history::Measure;
use slo_catalog::Catalog;
use std::alloc::{AllocError, Global};

/// Adds the objectives of an SLO.
fn add_objectives(
    alloc: Global,
    catalog: &Catalog,
    name: Label,
    wanted: &mut Vec<Measure>,
) -> Result<(), AllocError>
    requires ranges { All IsMeasure wanted.old.items }
    ensures all { OnOk result (wanted.new.items
        ≡ wanted.old.items ++ measures_named_def catalog.now name) }
    ensures ranges { OnOk result (All IsMeasure wanted.new.items) }
{
    let measures = measures_named(alloc, catalog, name)?;
    wanted.extend_from_slice(&measures)?;
    Ok(())
}

/// The objectives of the catalog's SLOs, SLO by SLO.
pub(crate) fn objectives_of(alloc: Global, catalog: &Catalog) -> Result<Vec<Measure>, AllocError>
    ensures all { IfOk result (λ wanted. wanted.items ≡ objectives_in catalog.now) }
    ensures ranges { IfOk result (λ wanted. All IsMeasure wanted.items) }
{
    let names = slo_names(alloc, catalog)?;
    let mut wanted = Vec::new(alloc);
    for name in &names {
        add_objectives(alloc, catalog, *name, &mut wanted)?;
    }
    Ok(wanted)
}
