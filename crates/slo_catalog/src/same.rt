//! Definitions that leave a catalog as it is.
ghost use Rattle.std.specs.Prelude.{◌≡◌, IfOk};
ghost use Rattle.catalog_terms.specs.Keys.{member_of};
ghost use Rattle.catalog_terms.specs.Define.{is_alike as is_alike_def, is_unchanged};

use crate::duplicate::is_same_member;
use crate::member::Member;
use crate::members::Members;
use std::alloc::{AllocError, Global};

/// Whether an object is written as the member of its kind and name.
fn is_alike(alloc: Global, old: &Members, member: &Member) -> Result<bool, AllocError>
    ensures { IfOk result (λ alike. alike
        ≡ is_alike_def (member_of old.now member.now.kind member.now.name) member.now) }
{
    let object = member.object();
    match old.find(object.kind, object.name) {
        Some(kept) => is_same_member(alloc, kept, member),
        None => Ok(false),
    }
}

/// Whether each of the objects is written as the member of its kind and name.
pub(crate) fn are_alike(
    alloc: Global,
    old: &Members,
    objects: &[Member],
) -> Result<bool, AllocError>
    ensures { IfOk result (λ alike. alike ≡ is_unchanged old.now objects.now) }
{
    for member in objects {
        if !is_alike(alloc, old, member)? {
            return Ok(false);
        }
    }
    Ok(true)
}
