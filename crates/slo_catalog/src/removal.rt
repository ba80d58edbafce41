//! Removals.
ghost use Rattle.std.specs.Prelude.{◌++◌, [], ◌∷◌, List, IfOk};
ghost use Rattle.catalog_terms.specs.Catalog.{Change, Removed, IsCatalog};
ghost use Rattle.catalog_terms.specs.Remove.{Removes, remaining_members};

use crate::catalog::Catalog;
use crate::members::Members;
use crate::reference::first_referrer;
use catalog_terms::{RemoveError, RemoveFault};
use exact_fraction::Label;
use object_terms::Kind;
use std::alloc::Global;

/// The members without the one of that kind and name.
fn remove_one(alloc: Global, old: &Members, kind: Kind, name: Label) -> Result<Members, RemoveError>
    ensures { Removes result (remaining_members old.now kind name) }
{
    if old.find(kind, name).is_none() {
        return Err(RemoveError::Fault(RemoveFault::NotFound));
    }
    if let Some(user) = first_referrer(alloc, old, kind, name)? {
        return Err(RemoveError::Fault(RemoveFault::InUse {
            by_kind: user.kind,
            by_name: user.name,
        }));
    }
    Ok(old.without(alloc, kind, name)?)
}

/// The catalog of what is left.
fn removed_by(alloc: Global, old: &Catalog, kind: Kind, name: Label) -> Result<Catalog, RemoveError>
    ensures { Removes result (remaining_members old.now kind name) }
{
    match remove_one(alloc, old.sorted(), kind, name) {
        Ok(members) => Ok(Catalog::of(members)),
        Err(fault) => Err(fault),
    }
}

/// The catalog without the object of that kind and name. The members that stay are shared.
///
/// # Errors
///
/// There is no such member; or the first member, in the catalog's order, that refers to it. Or
/// memory ran out.
pub fn remove(alloc: Global, old: &Catalog, kind: Kind, name: Label) -> Result<Catalog, RemoveError>
    ensures exact { Removes result (remaining_members old.now kind name) }
    ensures history { (changes : List Change) → IsCatalog changes old.now
        → IfOk result (λ catalog. IsCatalog (changes ++ Removed kind name ∷ []) catalog) }
{
    removed_by(alloc, old, kind, name)
}
