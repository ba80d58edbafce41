//! Bindings: the alerts that are kept.
ghost use Rattle.std.specs.Prelude.{◌≡◌, ◌≤◌, ◌++◌, List, ℕ, length, filter, Some, IfOk, OnOk};
ghost use Rattle.std.specs.Option.{option_copied};
ghost use Rattle.slo_limits.specs.declared.TheConstants.{MAX_BINDINGS, MAX_OBJECTIVES};
ghost use Rattle.object_terms.specs.Slo.{slo_in as slo_in_def};
ghost use Rattle.catalog_terms.specs.Bindings.{is_empty, policy_named as policy_named_def};
ghost use Rattle.catalog_terms.specs.Bindings.{lists_condition as lists_condition_def};
ghost use Rattle.catalog_terms.specs.Bindings.{has_condition as has_condition_def, bound};
ghost use Rattle.catalog_terms.specs.Bindings.{bound_from, bindings_in, bindings as bindings_def};

use crate::bodies::{objectives_of, policy_in, slo_in};
use crate::catalog::Catalog;
use crate::members::Members;
use crate::reference::{is_built_in, names_in};
use catalog_terms::Binding;
use exact_fraction::Label;
use object_terms::{AlertPolicy, Kind, Object, Objective, Slo};
use std::alloc::{AllocError, Global};

/// The alert policy of that name.
fn policy_named(members: &Members, name: Label) -> Option<&AlertPolicy>
    ensures { option_copied result ≡ policy_named_def members.now name }
{
    match members.find(Kind::AlertPolicy, name) {
        Some(member) => policy_in(&member.object().body),
        None => None,
    }
}

/// Whether a list has no names.
fn is_empty_list(names: &[Label]) -> bool
    ensures { result ≡ is_empty names.now }
{
    match names {
        [] => true,
        [_, ..] => false,
    }
}

/// Whether the ordinary policy of that name has a condition.
fn lists_condition(members: &Members, name: Label) -> bool
    ensures { result ≡ lists_condition_def (policy_named_def members.now name) }
{
    match policy_named(members, name) {
        Some(policy) => !is_empty_list(names_in(&policy.conditions)),
        None => false,
    }
}

/// Whether the policy of that name has a condition.
fn has_condition(members: &Members, name: &Label) -> bool
    ensures { result ≡ has_condition_def members.now name.now }
{
    is_built_in(name) || lists_condition(members, *name)
}

/// Lists those of the policies that have a condition, in place of what was listed before.
fn list_with_condition(
    kept: &mut Vec<Label>,
    members: &Members,
    names: &[Label],
) -> Result<(), AllocError>
    ensures { OnOk result (kept.new.items ≡ filter (has_condition_def members.now) names.now) }
{
    kept.clear();
    for name in names {
        if has_condition(members, name) {
            kept.push(*name)?;
        }
    }
    Ok(())
}

/// Adds the bindings of one objective.
fn bind(
    bindings: &mut Vec<Binding>,
    slo: &Label,
    policies: &[Label],
    objective: u32,
) -> Result<(), AllocError>
    ensures { OnOk result (bindings.new.items
        ≡ bindings.old.items ++ bound slo.now policies.now objective) }
{
    for policy in policies {
        bindings.push(Binding {
            slo: *slo,
            objective,
            policy: *policy,
        })?;
    }
    Ok(())
}

/// Adds the bindings of all objectives.
fn bind_each(
    bindings: &mut Vec<Binding>,
    slo: &Label,
    policies: &[Label],
    objectives: &[Objective],
) -> Result<(), AllocError>
    requires { length objectives.now ≤ MAX_OBJECTIVES }
    ensures { OnOk result (bindings.new.items
        ≡ bindings.old.items ++ bound_from slo.now policies.now 0 objectives.now) }
{
    let mut number = 0;
    for _objective in objectives {
        bind(bindings, slo, policies, number)?;
        number += 1;
    }
    Ok(())
}

/// Adds the bindings of an SLO, whose policies are listed anew.
fn bind_slo(
    bindings: &mut Vec<Binding>,
    policies: &mut Vec<Label>,
    members: &Members,
    name: &Label,
    slo: &Slo,
) -> Result<(), AllocError>
    ensures { OnOk result (bindings.new.items
        ≡ bindings.old.items ++ bindings_in members.now name.now (Some slo.now)) }
{
    list_with_condition(policies, members, names_in(&slo.alert_policies))?;
    bind_each(bindings, name, policies, objectives_of(slo))
}

/// Adds the bindings of an object, which has some where it is an SLO.
fn bind_object(
    bindings: &mut Vec<Binding>,
    policies: &mut Vec<Label>,
    members: &Members,
    object: &Object,
) -> Result<(), AllocError>
    ensures { OnOk result (bindings.new.items
        ≡ bindings.old.items ++ bindings_in members.now object.now.name
        (slo_in_def object.now.body)) }
{
    match slo_in(&object.body) {
        Some(slo) => bind_slo(bindings, policies, members, &object.name, slo),
        None => Ok(()),
    }
}

/// The bindings of members.
pub(crate) fn bindings_of(alloc: Global, members: &Members) -> Result<Vec<Binding>, AllocError>
    ensures { IfOk result (λ bindings. bindings.items ≡ bindings_def members.now) }
{
    let mut bindings = Vec::new(alloc);
    let mut policies = Vec::new(alloc);
    for member in members.as_slice() {
        bind_object(&mut bindings, &mut policies, members, member.object())?;
    }
    Ok(bindings)
}

/// How many of the policies have a condition.
fn count_with_condition(members: &Members, names: &[Label]) -> usize
    ensures { result ≡ length (filter (has_condition_def members.now) names.now) }
{
    let mut count = 0;
    for name in names {
        if has_condition(members, name) {
            count += 1;
        }
    }
    count
}

/// How many bindings an SLO has, whatever its name.
fn count_of_slo(members: &Members, slo: &Slo) -> u128
    ensures { (name : List ℕ)
        → result ≡ length (bindings_in members.now name (Some slo.now)) }
{
    let policies = count_with_condition(members, names_in(&slo.alert_policies));
    objectives_of(slo).len() as u128 * policies as u128
}

/// How many bindings an object has, which has some where it is an SLO.
fn count_of_object(members: &Members, object: &Object) -> u128
    ensures { result ≡ length (bindings_in members.now object.now.name
        (slo_in_def object.now.body)) }
{
    match slo_in(&object.body) {
        Some(slo) => count_of_slo(members, slo),
        None => 0,
    }
}

/// How many bindings members have, which pass no limit.
fn count_of_bindings(members: &Members) -> u64
    requires few { length (bindings_def members.now) ≤ MAX_BINDINGS }
    ensures { result ≡ length (bindings_def members.now) }
{
    let mut total: u128 = 0;
    for member in members.as_slice() {
        total += count_of_object(members, member.object());
    }
    total as u64
}

impl Catalog {
    ghost use Rattle.std.specs.Prelude.{◌≡◌, IfOk, length};
    ghost use Rattle.catalog_terms.specs.Bindings.{bindings as bindings_def};

    /// The bindings: by SLO, by the objective's number, and by the policy's place in the SLO.
    ///
    /// # Errors
    ///
    /// Memory ran out.
    pub fn bindings(&self, alloc: Global) -> Result<Vec<Binding>, AllocError>
        ensures { IfOk result (λ bindings. bindings.items ≡ bindings_def self.now) }
    {
        bindings_of(alloc, self.sorted())
    }

    /// How many bindings there are. Takes no memory.
    pub fn count_of_bindings(&self) -> u64
        ensures { result ≡ length (bindings_def self.now) }
    {
        count_of_bindings(self.sorted())
    }
}
