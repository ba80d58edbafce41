//! Objects that are too large for a request.
ghost use Rattle.std.specs.Prelude.{◌≡◌, IfOk, option_map};
ghost use Rattle.std.specs.List.{find};
ghost use Rattle.object_terms.specs.Document.{IsOfDocument};
ghost use Rattle.export_terms.specs.Moves.{of_kind};
ghost use Rattle.export_terms.specs.Sizes.{first_too_large, is_too_large, kind_and_name};
ghost use Rattle.office_export.specs.Lines.{large_among};

use crate::listing::EXPORT_KINDS;
use exact_fraction::Label;
use object_terms::{Kind, Object};
use object_writing::object_length;
use slo_catalog::Catalog;
use slo_limits::MAX_TEXT_BYTES;
use std::alloc::{AllocError, Global};

/// Whether the canonical writing of an object is too large. It isn't written.
fn is_too_large(alloc: Global, object: &Object) -> Result<bool, AllocError>
    requires { IsOfDocument object.now }
    ensures { IfOk result (λ large. large ≡ is_too_large object.now) }
{
    match object_length(alloc, object, MAX_TEXT_BYTES)? {
        Some(_) => Ok(false),
        None => Ok(true),
    }
}

/// The first object of a kind that is too large.
fn first_of_kind(
    alloc: Global,
    catalog: &Catalog,
    kind: Kind,
) -> Result<Option<(Kind, Label)>, AllocError>
    ensures { IfOk result (λ found. found
        ≡ option_map kind_and_name (find is_too_large (of_kind catalog.now kind))) }
{
    for member in catalog.members() {
        let object = member.object();
        if object.kind == kind && is_too_large(alloc, object)? {
            return Ok(Some((object.kind, object.name)));
        }
    }
    Ok(None)
}

/// The first object of these kinds that is too large.
fn first_among(
    alloc: Global,
    catalog: &Catalog,
    kinds: &[Kind],
) -> Result<Option<(Kind, Label)>, AllocError>
    ensures { IfOk result (λ found. found ≡ large_among catalog.now kinds.now) }
{
    for kind in kinds {
        match first_of_kind(alloc, catalog, *kind)? {
            Some(found) => return Ok(Some(found)),
            None => {}
        }
    }
    Ok(None)
}

/// The first object that is too large, in the order in which they are sent.
pub(crate) fn first_too_large(
    alloc: Global,
    catalog: &Catalog,
) -> Result<Option<(Kind, Label)>, AllocError>
    ensures { IfOk result (λ found. found ≡ first_too_large catalog.now) }
{
    first_among(alloc, catalog, &EXPORT_KINDS)
}
