//! How much a catalog holds.
ghost use Rattle.std.specs.Prelude.{◌≡◌, IfOk, nat_lt};
ghost use Rattle.catalog_terms.specs.Limits.{catalog_bytes, count_of_kind as count_of_kind_def};
ghost use Rattle.catalog_terms.specs.Limits.{first_limit as first_limit_def};

use crate::bindings::bindings_of;
use crate::catalog::Catalog;
use crate::member::Member;
use crate::members::Members;
use catalog_terms::CatalogLimit;
use object_terms::Kind;
use slo_limits::{MAX_BINDINGS, MAX_CATALOG_BYTES, MAX_OBJECTS, MAX_SLIS, MAX_SLOS};
use std::alloc::{AllocError, Global};

/// Whether all members together have more bytes than a catalog may.
#[tactic(auto, using(crate::proofs::WeightLemmas::above_alike))]
fn is_above_bytes(members: &Members) -> bool
    ensures { result ≡ nat_lt MAX_CATALOG_BYTES (catalog_bytes members.now) }
{
    members.bytes() > MAX_CATALOG_BYTES as u128
}

/// How many of the members are of that kind.
fn count_of_kind(kind: Kind, members: &[Member]) -> usize
    ensures { result ≡ count_of_kind_def kind members.now }
{
    let mut count = 0;
    for member in members {
        if member.object().kind == kind {
            count += 1;
        }
    }
    count
}

/// The first limit that the members pass.
pub(crate) fn first_limit(
    alloc: Global,
    members: &Members,
) -> Result<Option<CatalogLimit>, AllocError>
    ensures { IfOk result (λ first. first ≡ first_limit_def members.now) }
{
    let list = members.as_slice();
    if list.len() > MAX_OBJECTS {
        return Ok(Some(CatalogLimit::Objects));
    }
    if is_above_bytes(members) {
        return Ok(Some(CatalogLimit::Catalog));
    }
    if count_of_kind(Kind::Sli, list) > MAX_SLIS {
        return Ok(Some(CatalogLimit::Slis));
    }
    if count_of_kind(Kind::Slo, list) > MAX_SLOS {
        return Ok(Some(CatalogLimit::Slos));
    }
    if bindings_of(alloc, members)?.len() > MAX_BINDINGS {
        return Ok(Some(CatalogLimit::Bindings));
    }
    Ok(None)
}

impl Catalog {
    ghost use Rattle.std.specs.Prelude.{◌≡◌};
    ghost use Rattle.catalog_terms.specs.Limits.{count_of_kind as count_of_kind_def};

    /// How many members are of that kind.
    pub fn count_of(&self, kind: Kind) -> usize
        ensures { result ≡ count_of_kind_def kind self.now }
    {
        count_of_kind(kind, self.members())
    }
}
