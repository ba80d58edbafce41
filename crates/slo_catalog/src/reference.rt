//! What objects refer to, and who refers to an object.
ghost use Rattle.std.specs.Prelude.{◌≡◌, ◌++◌, [], ◌∷◌, not, find, IfOk, OnOk};
ghost use Rattle.std.specs.Option.{option_copied};
ghost use Rattle.std.specs.List.{list_any};
ghost use Rattle.object_terms.specs.declared.kind.Kind.TheVariants as kinds;
ghost use Rattle.catalog_terms.specs.References.{names_in as names_in_def, data_sources};
ghost use Rattle.catalog_terms.specs.References.{sources_of, sources_of_ratio, references_to};
ghost use Rattle.catalog_terms.specs.References.{references_of_slo, references_of_policy};
ghost use Rattle.catalog_terms.specs.References.{references as references_def};
ghost use Rattle.catalog_terms.specs.References.{is_built_in as is_built_in_def};
ghost use Rattle.catalog_terms.specs.References.{is_built_in_policy as is_built_in_policy_def};
ghost use Rattle.catalog_terms.specs.References.{is_resolved as is_resolved_def};
ghost use Rattle.catalog_terms.specs.References.{unresolved_of as unresolved_of_def};
ghost use Rattle.catalog_terms.specs.References.{first_unresolved as first_unresolved_def};
ghost use Rattle.catalog_terms.specs.References.{is_to as is_to_def, refers_to as refers_to_def};
ghost use Rattle.catalog_terms.specs.References.{first_referrer as first_referrer_def};

use crate::member::Member;
use crate::members::Members;
use catalog_terms::Reference;
use exact_fraction::Label;
use object_terms::{
    AlertPolicy, Body, Events, Kind, Metric, MetricSource, Names, Object, Ratio, Sli, Slo,
};
use std::alloc::{AllocError, Global};

/// Whether it is the name of a policy that is always there.
pub(crate) fn is_built_in(name: &Label) -> bool
    ensures { result ≡ is_built_in_def name.now }
{
    name.as_bytes() == b"workbook-page".as_slice()
        || name.as_bytes() == b"workbook-ticket".as_slice()
}

/// The names of a list that may be omitted.
pub(crate) fn names_in(names: &Option<Names>) -> &[Label]
    ensures { result.now ≡ names_in_def names.now }
{
    match names {
        Some(names) => names.as_slice(),
        None => &[],
    }
}

/// Adds a reference of the object to each object of that kind and of these names.
fn refer(
    references: &mut Vec<Reference>,
    object: &Object,
    kind: Kind,
    names: &[Label],
) -> Result<(), AllocError>
    ensures { OnOk result (references.new.items
        ≡ references.old.items ++ references_to object.now kind names.now) }
{
    for name in names {
        references.push(Reference {
            from_kind: object.kind,
            from_name: object.name,
            kind,
            name: *name,
        })?;
    }
    Ok(())
}

/// Adds the reference to the data source of a metric's source, where it names one.
fn refer_to_source(
    references: &mut Vec<Reference>,
    object: &Object,
    source: &MetricSource,
) -> Result<(), AllocError>
    ensures { OnOk result (references.new.items
        ≡ references.old.items ++ references_to object.now kinds.DataSource
        (data_sources (source.now ∷ []))) }
{
    match &source.metric_source_ref {
        Some(name) => refer(references, object, Kind::DataSource, &[*name]),
        None => Ok(()),
    }
}

/// Adds the references of a ratio to data sources.
fn refer_to_ratio(
    references: &mut Vec<Reference>,
    object: &Object,
    ratio: &Ratio,
) -> Result<(), AllocError>
    ensures { OnOk result (references.new.items
        ≡ references.old.items ++ references_to object.now kinds.DataSource
        (data_sources (sources_of_ratio ratio.now))) }
{
    match ratio {
        Ratio::Raw { raw, raw_type: _ } => refer_to_source(references, object, raw),
        Ratio::Counts { total, events } => {
            refer_to_source(references, object, total)?;
            match events {
                Events::Good(source) => refer_to_source(references, object, source),
                Events::Bad(source) => refer_to_source(references, object, source),
            }
        }
    }
}

/// Adds the references of an indicator.
fn refer_of_sli(
    references: &mut Vec<Reference>,
    object: &Object,
    sli: &Sli,
) -> Result<(), AllocError>
    ensures { OnOk result (references.new.items
        ≡ references.old.items ++ references_to object.now kinds.DataSource
        (data_sources (sources_of sli.now.metric))) }
{
    match &sli.metric {
        Metric::Threshold(source) => refer_to_source(references, object, source),
        Metric::Ratio(metric) => refer_to_ratio(references, object, &metric.ratio),
    }
}

/// Adds the references of an SLO.
fn refer_of_slo(
    references: &mut Vec<Reference>,
    object: &Object,
    slo: &Slo,
) -> Result<(), AllocError>
    ensures { OnOk result (references.new.items
        ≡ references.old.items ++ references_of_slo (references_to object.now) slo.now) }
{
    refer(references, object, Kind::Service, &[slo.service])?;
    refer(references, object, Kind::Sli, &[slo.indicator])?;
    refer(
        references,
        object,
        Kind::AlertPolicy,
        names_in(&slo.alert_policies),
    )
}

/// Adds the references of a policy.
fn refer_of_policy(
    references: &mut Vec<Reference>,
    object: &Object,
    policy: &AlertPolicy,
) -> Result<(), AllocError>
    ensures { OnOk result (references.new.items
        ≡ references.old.items ++ references_of_policy (references_to object.now) policy.now) }
{
    refer(
        references,
        object,
        Kind::AlertCondition,
        names_in(&policy.conditions),
    )?;
    refer(
        references,
        object,
        Kind::AlertNotificationTarget,
        names_in(&policy.notification_targets),
    )
}

/// The references of an object, in the order of its fields.
pub(crate) fn references(alloc: Global, object: &Object) -> Result<Vec<Reference>, AllocError>
    ensures { IfOk result (λ references. references.items ≡ references_def object.now) }
{
    let mut references = Vec::new(alloc);
    match &object.body {
        Body::Sli(sli) => refer_of_sli(&mut references, object, sli)?,
        Body::Slo(slo) => refer_of_slo(&mut references, object, slo)?,
        Body::AlertPolicy(policy) => refer_of_policy(&mut references, object, policy)?,
        Body::DataSource(_)
        | Body::Service(_)
        | Body::AlertCondition(_)
        | Body::AlertNotificationTarget(_) => (),
    }
    Ok(references)
}

/// Whether a reference may name a policy that is always there, and does.
fn is_built_in_policy(reference: &Reference) -> bool
    ensures { result ≡ is_built_in_policy_def reference.now }
{
    reference.kind == Kind::AlertPolicy && is_built_in(&reference.name)
}

/// Whether a reference names a member, or a policy that is always there.
fn is_resolved(members: &Members, reference: &Reference) -> bool
    ensures { result ≡ is_resolved_def members.now reference.now }
{
    members.find(reference.kind, reference.name).is_some() || is_built_in_policy(reference)
}

/// The first of the references that isn't resolved.
fn unresolved_in(members: &Members, references: &[Reference]) -> Option<Reference>
    ensures { result ≡ find (λ r. not (is_resolved_def members.now r)) references.now }
{
    for reference in references {
        if !is_resolved(members, reference) {
            return Some(*reference);
        }
    }
    None
}

/// The first reference of an object that names no member.
fn unresolved_of(
    alloc: Global,
    members: &Members,
    object: &Object,
) -> Result<Option<Reference>, AllocError>
    ensures { IfOk result (λ first. first ≡ unresolved_of_def members.now object.now) }
{
    let references = references(alloc, object)?;
    Ok(unresolved_in(members, &references))
}

/// The first reference of the objects that isn't resolved among the members: in the order of the
/// objects and of their fields.
pub(crate) fn first_unresolved(
    alloc: Global,
    members: &Members,
    objects: &[Member],
) -> Result<Option<Reference>, AllocError>
    ensures { IfOk result (λ first. first ≡ first_unresolved_def members.now objects.now) }
{
    for member in objects {
        if let Some(reference) = unresolved_of(alloc, members, member.object())? {
            return Ok(Some(reference));
        }
    }
    Ok(None)
}

/// Whether a reference is to that kind and name.
fn is_to(kind: Kind, name: &Label, reference: &Reference) -> bool
    ensures { result ≡ is_to_def kind name.now reference.now }
{
    reference.kind == kind && reference.name.as_bytes() == name.as_bytes()
}

/// Whether one of the references is to that kind and name.
fn some_is_to(kind: Kind, name: &Label, references: &[Reference]) -> bool
    ensures { result ≡ list_any (is_to_def kind name.now) references.now }
{
    for reference in references {
        if is_to(kind, name, reference) {
            return true;
        }
    }
    false
}

/// Whether an object refers to that kind and name.
fn refers_to(alloc: Global, kind: Kind, name: &Label, object: &Object) -> Result<bool, AllocError>
    ensures { IfOk result (λ answer. answer ≡ refers_to_def kind name.now object.now) }
{
    let references = references(alloc, object)?;
    Ok(some_is_to(kind, name, &references))
}

/// The first of the objects that refers to that kind and name.
fn referrer_in(
    alloc: Global,
    objects: &[Member],
    kind: Kind,
    name: Label,
) -> Result<Option<&Object>, AllocError>
    ensures { IfOk result (λ first. option_copied first
        ≡ first_referrer_def objects.now kind name) }
{
    for member in objects {
        if refers_to(alloc, kind, &name, member.object())? {
            return Ok(Some(member.object()));
        }
    }
    Ok(None)
}

/// The first member, in the catalog's order, that refers to that kind and name.
pub(crate) fn first_referrer(
    alloc: Global,
    members: &Members,
    kind: Kind,
    name: Label,
) -> Result<Option<&Object>, AllocError>
    ensures { IfOk result (λ first. option_copied first
        ≡ first_referrer_def members.now kind name) }
{
    referrer_in(alloc, members.as_slice(), kind, name)
}
