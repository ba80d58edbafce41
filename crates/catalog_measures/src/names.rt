//! The names of the SLOs.
ghost use Rattle.std.specs.Prelude.{◌≡◌, IfOk};
ghost use Rattle.catalog_measures.specs.Names.{is_slo as is_slo_def, slo_names as slo_names_def};

use exact_fraction::Label;
use object_terms::Kind;
use slo_catalog::Catalog;
use std::alloc::{AllocError, Global};

fn is_slo(kind: Kind) -> bool
    ensures { result ≡ is_slo_def kind }
{
    match kind {
        Kind::Slo => true,
        _ => false,
    }
}

/// The names of the SLOs, in the catalog's order.
///
/// # Errors
///
/// Memory ran out.
pub fn slo_names(alloc: Global, catalog: &Catalog) -> Result<Vec<Label>, AllocError>
    ensures { IfOk result (λ names. names.items ≡ slo_names_def catalog.now) }
{
    let mut names = Vec::new(alloc);
    for member in catalog.members() {
        let object = member.object();
        if is_slo(object.kind) {
            names.push(object.name)?;
        }
    }
    Ok(names)
}
