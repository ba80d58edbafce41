//! The objects of the catalog.
ghost use Rattle.std.specs.Prelude.{◌≡◌, map, IfOk};
ghost use Rattle.yaml_terms.specs.Spelling.{writing};
ghost use Rattle.object_terms.specs.Document.{IsOfDocument, written};
ghost use Rattle.object_terms.specs.declared.Object.{Object};
ghost use Rattle.record_form.specs.declared.Query.TheVariants as queries;
ghost use Rattle.office_history.specs.History.{Office};
ghost use Rattle.office_history.specs.Answers.{Answers};
ghost use Rattle.office_derived.specs.Derived.{Reflects};

use exact_fraction::{Bytes, Label};
use object_terms::{Kind, Object};
use object_writing::write_object;
use office_derived::Derived;
use record_form::{Listed, ObjectNames, Outcome, Refusal};
use slo_catalog::Member;
use std::alloc::{AllocError, Global};

fn names_of(alloc: Global, members: &[Member]) -> Result<ObjectNames, AllocError>
    ensures { IfOk result (λ names. names
        ≡ map (λ (object : Object). (object.kind, object.name)) members.now) }
{
    let mut names = Listed::new(alloc);
    for member in members {
        let object = member.object();
        names.push((object.kind, object.name))?;
    }
    Ok(names)
}

/// The kinds and names of all objects, in the catalog's order.
pub(crate) fn object_list(alloc: Global, derived: &Derived) -> Result<Outcome, AllocError>
    ensures { (o : Office) → Reflects derived.now o → IfOk result (Answers o 0 queries.Objects) }
{
    Ok(Outcome::ObjectList {
        entries: derived.entries,
        objects: names_of(alloc, derived.catalog.members())?,
    })
}

fn text_of(alloc: Global, object: &Object) -> Result<Bytes, AllocError>
    requires { IsOfDocument object.now }
    ensures { IfOk result (λ text. text ≡ writing 0 (written object.now)) }
{
    let mut text = Vec::new(alloc);
    write_object(&mut text, object)?;
    Ok(Bytes::from_vec(text))
}

/// The canonical writing of the object of a kind and name.
pub(crate) fn object_text(
    alloc: Global,
    derived: &Derived,
    kind: Kind,
    name: Label,
) -> Result<Outcome, AllocError>
    ensures { (o : Office) → Reflects derived.now o
        → IfOk result (Answers o 0 (queries.Object kind name)) }
{
    match derived.catalog.find(kind, name) {
        Some(object) => Ok(Outcome::ObjectText(text_of(alloc, object)?)),
        None => Ok(Outcome::Refused(Refusal::NotFound)),
    }
}
