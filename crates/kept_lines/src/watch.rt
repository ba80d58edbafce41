//! An alert that is watched, and how it stands.
ghost use Rattle.std.specs.Prelude.{◌≡◌, IfSome};
ghost use Rattle.std.specs.List.{list_any};
ghost use Rattle.std.specs.Str.{bytes_eq};
ghost use Rattle.burn_core.specs.Alert.{IsRule};
ghost use Rattle.kept_sums.specs.Objectives.{IsObjective};
ghost use Rattle.catalog_measures.specs.Measures.{IsMeasure};
ghost use Rattle.office_history.specs.Alerts.{same_binding as same_binding_def};
ghost use Rattle.office_history.specs.Alerts.{watch_of as watch_of_def, watched as watched_def};
ghost use Rattle.catalog_terms.specs.References.{names_in};
ghost use Rattle.kept_lines.specs.Watches.{IsWatched, has_both as has_both_def};
ghost use Rattle.kept_lines.specs.Watches.{is_bound_in as is_bound_in_def};

use burn_core::AlertRule;
use catalog_measures::{measure_at, rule_named};
use catalog_terms::Binding;
use exact_fraction::Label;
use object_terms::{Body, Names, Object, Slo};
use office_history::Measure;
use slo_catalog::Catalog;
use std::marker::Model;

/// An objective, and the rule of an alert policy.
#[derive(Clone, Copy)]
pub struct Watch {
    measure: Measure,
    rule: AlertRule,
}

impl Model for Watch {
    ghost use Rattle.office_history.specs.Alerts as alerts;
    ghost use Rattle.kept_lines.specs.Sums.{IsWatch};

    ghost Value = { alerts.Watch };

    ghost view = { λ a. record { measure = a.measure; rule = a.rule } };

    ghost invariant = { λ a. IsWatch (record { measure = a.measure; rule = a.rule }) };

    ghost inverse = { λ w. record { measure = w.measure; rule = w.rule } };
}

impl Watch {
    /// What the objective counts.
    pub fn measure(&self) -> &Measure
        ensures value { result.now ≡ self.now.measure }
        ensures ranges { IsMeasure self.now.measure }
    {
        &self.measure
    }

    /// When its condition holds.
    pub fn rule(&self) -> &AlertRule
        ensures value { result.now ≡ self.now.rule }
        ensures ranges { IsRule self.now.rule }
    {
        &self.rule
    }
}

/// What a binding watches: none where its objective isn't there, or its policy has no condition.
pub fn watch_of(catalog: &Catalog, binding: &Binding) -> Option<Watch>
    ensures value { result ≡ watch_of_def catalog.now binding.now }
    ensures objective { IfSome result (λ watch. IsObjective catalog.now watch.measure) }
{
    let measure = measure_at(catalog, binding.slo, binding.objective)?;
    let rule = rule_named(catalog, binding.policy)?;
    Some(Watch { measure, rule })
}

/// Whether two bindings are of one SLO, objective and policy.
pub fn same_binding(a: &Binding, b: &Binding) -> bool
    ensures { result ≡ same_binding_def a.now b.now }
{
    a.slo == b.slo && a.objective == b.objective && a.policy == b.policy
}

/// Whether a list of names that may be omitted has a policy.
fn lists(names: &Option<Names>, policy: Label) -> bool
    ensures { result ≡ list_any (bytes_eq policy) (names_in names.now) }
{
    match names {
        Some(names) => names.as_slice().iter().any(|name| policy == *name),
        None => false,
    }
}

/// Whether an SLO has the objective of a binding, and lists its policy.
fn has_both(slo: &Slo, binding: &Binding) -> bool
    ensures { result ≡ has_both_def binding.now slo.now }
{
    (binding.objective as usize) < slo.objectives.as_slice().len()
        && lists(&slo.alert_policies, binding.policy)
}

/// Whether an object is the SLO of a binding, with its objective and its policy.
fn is_bound_in(object: &Object, binding: &Binding) -> bool
    ensures { result ≡ is_bound_in_def binding.now object.now }
{
    match &object.body {
        Body::Slo(slo) => binding.slo == object.name && has_both(slo, binding),
        _ => false,
    }
}

fn is_bound(catalog: &Catalog, binding: &Binding) -> bool
    ensures { result ≡ list_any (is_bound_in_def binding.now) catalog.now }
{
    let members = catalog.members();
    members
        .iter()
        .any(|member| is_bound_in(member.object(), binding))
}

/// What a binding of the catalog watches: none exactly where it is no binding of the catalog.
/// Takes no memory.
pub fn watched(catalog: &Catalog, binding: &Binding) -> Option<Watch>
    ensures value { result ≡ watched_def catalog.now binding.now }
    ensures objective { IfSome result (λ found. IsObjective catalog.now found.measure) }
    ensures watched { IfSome result (IsWatched catalog.now) }
{
    if !is_bound(catalog, binding) {
        return None;
    }
    watch_of(catalog, binding)
}
