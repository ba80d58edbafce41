//! Definitions.
ghost use Rattle.std.specs.Prelude.{◌≡◌, ◌++◌, List, map, IfOk};
ghost use Rattle.std.specs.List.{All};
ghost use Rattle.std.specs.Option.{option_copied};
ghost use Rattle.object_terms.specs.Document.{IsOfDocument};
ghost use Rattle.catalog_terms.specs.Catalog.{Change, Defined, IsCatalog};
ghost use Rattle.catalog_terms.specs.Define.{Defines, Proposes, joined_members as judged_def};
ghost use Rattle.catalog_terms.specs.Define.{proposed_members, defined_members, is_unchanged};
ghost use Rattle.catalog_terms.specs.Define.{is_reserved as is_reserved_def};
ghost use Rattle.catalog_terms.specs.Define.{first_reserved as first_reserved_def};

use crate::catalog::Catalog;
use crate::duplicate::first_duplicate;
use crate::member::{Member, members_of};
use crate::members::Members;
use crate::needs_op::first_needing_op;
use crate::proposal::Proposal;
use crate::reference::{first_unresolved, is_built_in};
use crate::same::are_alike;
use catalog_terms::{CatalogFault, DefineError};
use object_terms::{Kind, Object, Objects};
use std::alloc::Global;

/// Whether an object is an alert policy with the name of one that is always there.
fn is_reserved(object: &Object) -> bool
    ensures { result ≡ is_reserved_def object.now }
{
    object.kind == Kind::AlertPolicy && is_built_in(&object.name)
}

/// The first alert policy with the name of one that is always there.
fn first_reserved(objects: &[Member]) -> Option<&Object>
    ensures { option_copied result ≡ first_reserved_def objects.now }
{
    for member in objects {
        if is_reserved(member.object()) {
            return Some(member.object());
        }
    }
    None
}

/// The members, unless one of the objects, which are among them, has a fault.
fn judged(alloc: Global, members: Members, objects: &[Member]) -> Result<Members, DefineError>
    ensures { Defines result (judged_def members objects.now) }
{
    if let Some(reference) = first_unresolved(alloc, &members, objects)? {
        return Err(DefineError::Fault(CatalogFault::Unresolved {
            from_kind: reference.from_kind,
            from_name: reference.from_name,
            kind: reference.kind,
            name: reference.name,
        }));
    }
    if let Some(needs) = first_needing_op(&members, objects) {
        return Err(DefineError::Fault(CatalogFault::NeedsOp {
            slo: needs.slo,
            objective: needs.objective,
        }));
    }
    Ok(members)
}

/// The old members and others at their places, unless one of these has a fault.
fn joined(alloc: Global, old: &Members, objects: &[Member]) -> Result<Members, DefineError>
    ensures { Defines result (proposed_members old.now objects.now) }
{
    if let Some(object) = first_reserved(objects) {
        return Err(DefineError::Fault(CatalogFault::Reserved { name: object.name }));
    }
    if let Some(member) = first_duplicate(alloc, objects)? {
        let object = member.object();
        return Err(DefineError::Fault(CatalogFault::DuplicateInText {
            kind: object.kind,
            name: object.name,
        }));
    }
    judged(alloc, old.share(alloc)?.put_all(objects)?, objects)
}

/// What is there with the objects of a text, each of which replaces the member of its kind and
/// name, before the limits are tried. The objects move there, and the members that stay are shared.
///
/// # Errors
///
/// The first fault, in the order of [`CatalogFault`] and but for the limits: each names the first
/// place that breaks its rule. Or memory ran out.
pub fn propose(alloc: Global, old: &Catalog, objects: Objects) -> Result<Proposal, DefineError>
    requires { All IsOfDocument objects }
    ensures exact { Proposes result (proposed_members old.now objects) }
    ensures same { IfOk result (λ proposal. proposal.1 ≡ is_unchanged old.now objects) }
{
    let members = members_of(alloc, objects)?;
    let objects = members.as_slice();
    match joined(alloc, old.sorted(), objects) {
        Ok(members) => {
            let same = are_alike(alloc, old.sorted(), objects)?;
            Ok(Proposal::of(members, same))
        }
        Err(fault) => Err(fault),
    }
}

/// What is proposed, where it is within the limits.
fn defined_by(alloc: Global, old: &Catalog, objects: Objects) -> Result<Catalog, DefineError>
    requires { All IsOfDocument objects }
    ensures { Defines result (defined_members old.now objects) }
{
    match propose(alloc, old, objects) {
        Ok(proposal) => proposal.admitted(alloc),
        Err(fault) => Err(fault),
    }
}

/// The catalog with the objects of a text, each of which replaces the one of its kind and name.
///
/// # Errors
///
/// The first fault, in the order of [`CatalogFault`]: each names the first place that breaks its
/// rule. Or memory ran out.
pub fn define(alloc: Global, old: &Catalog, objects: Objects) -> Result<Catalog, DefineError>
    requires { All IsOfDocument objects }
    ensures exact { Defines result (defined_members old.now objects) }
    ensures history { (changes : List Change) → IsCatalog changes old.now
        → IfOk result (λ catalog. IsCatalog (changes ++ map Defined objects) catalog) }
{
    defined_by(alloc, old, objects)
}
