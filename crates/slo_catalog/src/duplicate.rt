//! Kinds and names that a text defines twice with different content.
ghost use Rattle.std.specs.Prelude.{◌≡◌, IfOk};
ghost use Rattle.std.specs.Option.{option_copied};
ghost use Rattle.object_terms.specs.Document.{written};
ghost use Rattle.yaml_terms.specs.Spelling.{writing};
ghost use Rattle.catalog_terms.specs.Keys.{member_of};
ghost use Rattle.catalog_terms.specs.Define.{is_same as is_same_def};
ghost use Rattle.catalog_terms.specs.Define.{is_other_than as is_other_than_def};
ghost use Rattle.catalog_terms.specs.Define.{first_duplicate as first_duplicate_def};

use crate::member::Member;
use crate::members::Members;
use object_writing::write_object;
use std::alloc::{AllocError, Global};

/// The canonical writing of a member, for which room is made by its weight.
fn text_of(alloc: Global, member: &Member) -> Result<Vec<u8>, AllocError>
    ensures { IfOk result (λ text. text.items ≡ writing 0 (written member.now)) }
{
    let mut text = Vec::with_capacity(alloc, member.weight())?;
    write_object(&mut text, member.object())?;
    Ok(text)
}

/// Whether two members have the same content. They are written only where they weigh the same.
#[tactic(auto, using(crate::proofs::FindLemmas::other_weight))]
pub(crate) fn is_same_member(
    alloc: Global,
    one: &Member,
    other: &Member,
) -> Result<bool, AllocError>
    ensures { IfOk result (λ same. same ≡ is_same_def one.now other.now) }
{
    if one.weight() != other.weight() {
        return Ok(false);
    }
    let text = text_of(alloc, one)?;
    let other = text_of(alloc, other)?;
    Ok(text == other)
}

/// Whether a member is another than the one of its kind and name among the earlier ones. Where none
/// is of its kind and name it is compared with nothing.
fn is_other(alloc: Global, earlier: &Members, member: &Member) -> Result<bool, AllocError>
    ensures { IfOk result (λ other. other
        ≡ is_other_than_def (member_of earlier.now member.now.kind member.now.name) member.now) }
{
    let object = member.object();
    match earlier.find(object.kind, object.name) {
        Some(first) => Ok(!is_same_member(alloc, first, member)?),
        None => Ok(false),
    }
}

/// The first of the objects that is another than the first one of its kind and name. Each is
/// compared with an earlier one alone, since those of one kind and name are alike so far.
pub(crate) fn first_duplicate(
    alloc: Global,
    objects: &[Member],
) -> Result<Option<&Member>, AllocError>
    ensures { IfOk result (λ first. option_copied first ≡ first_duplicate_def objects.now) }
{
    let mut earlier = Members::new(alloc);
    for member in objects {
        if is_other(alloc, &earlier, member)? {
            return Ok(Some(member));
        }
        earlier = earlier.put(member.share()?)?;
    }
    Ok(None)
}
