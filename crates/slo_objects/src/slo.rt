//! Objectives over time, as they are read.
ghost use Rattle.std.specs.Prelude.{◌≤◌, [], length};
ghost use Rattle.yaml_terms.specs.NodeView.{node_view};
ghost use Rattle.object_terms.specs.Form.{map_with, each};
ghost use Rattle.object_fields.specs.Reading.{Gives, Reads, trees_view};
ghost use Rattle.object_terms.specs.Slo.{slo, slo_body, objectives, objective_item};
ghost use Rattle.object_terms.specs.Slo.{inline_indicator, policies, policy_item, policy_form};
ghost use Rattle.object_terms.specs.Slo.{is_policy_count};
ghost use Rattle.slo_limits.specs.declared.TheConstants.{MAX_OBJECTIVES};

use crate::alert_policy::PolicyBody;
use crate::objective::ObjectiveForm;
use crate::sli::SliBody;
use crate::window::{MethodForm, WindowsForm};
use exact_fraction::Label;
use object_fields::{
    DescriptionForm, NameForm, ReadForm, ReadItem, close_with, fail_at, inline_name, is_null,
    item_count, list_items, map_entries, names_of, one_of, optional, referenced, required,
    scalar_text,
};
use object_terms::keys::{
    ALERT_POLICIES, ALERT_POLICY_REF, BUDGETING_METHOD, DESCRIPTION, INDICATOR, INDICATOR_REF,
    OBJECTIVES, SERVICE, TIME_WINDOW,
};
use object_terms::{Body, BudgetingMethod, Kind, Names, Objectives, Objects, ReadError, Rule, Slo};
use slo_limits::{MAX_OBJECTIVES, MAX_POLICIES};
use yaml_terms::Node;

/// The objectives of the items, one behind the other.
fn each_objective(
    found: &mut Objects,
    key: &str,
    items: &[Node],
    method: BudgetingMethod,
) -> Result<Objectives, ReadError>
    requires { length items.now ≤ MAX_OBJECTIVES }
    ensures { Gives (λ objectives. (found.new, objectives)) result
        (each (objective_item method key.now) found.old [] (trees_view items.now)) }
{
    let mut objectives = Objectives::new(found.allocator());
    for node in items {
        let form = ObjectiveForm { method };
        let objective = form.read(found, key, node)?;
        objectives.push(objective)?;
    }
    Ok(objectives)
}

/// `objectives`: one to five.
#[derive(Clone, Copy)]
struct ObjectivesForm {
    method: BudgetingMethod,
}

impl ReadForm for ObjectivesForm {
    type Value = Objectives;

    ghost form = { λ o. objectives o.method };

    #[tactic(auto, using(object_fields::proofs::CountLemmas::count_trees))]
    fn read(&self, found: &mut Objects, key: &str, node: &Node) -> Result<Objectives, ReadError> {
        let Some(items) = list_items(node) else {
            return fail_at(found, key, Rule::NotList);
        };
        if item_count(items) < 1 || item_count(items) > MAX_OBJECTIVES {
            return fail_at(found, key, Rule::ListLength);
        }
        each_objective(found, key, items, self.method)
    }
}

/// `indicator`: an indicator that stands inline.
struct IndicatorForm;

impl ReadForm for IndicatorForm {
    type Value = Label;

    ghost form = { λ _. inline_indicator };

    fn read(&self, found: &mut Objects, key: &str, node: &Node) -> Result<Label, ReadError> {
        let Some(fields) = map_entries(node) else {
            return fail_at(found, key, Rule::NotMap);
        };
        inline_name(found, fields, Kind::Sli, &SliBody)
    }
}

/// A policy in a list, or its name.
fn policy_of(found: &mut Objects, key: &str, node: &Node) -> Result<Label, ReadError>
    ensures { Reads found.old found.new result (policy_form key.now (node_view node.now)) }
{
    if is_null(node) {
        return fail_at(found, key, Rule::BadName);
    }
    match scalar_text(node) {
        None => referenced(
            found,
            key,
            node,
            ALERT_POLICY_REF,
            Kind::AlertPolicy,
            &PolicyBody,
        ),
        Some(_) => NameForm.read(found, key, node),
    }
}

/// An item of `alertPolicies`: a policy that none before it has the name of.
struct PolicyItem;

impl ReadItem for PolicyItem {
    ghost item = { λ _. policy_item };

    ghost may_have = { λ _. is_policy_count };

    fn may_have(&self, count: usize) -> bool {
        count <= MAX_POLICIES
    }

    fn read_item(
        &self,
        found: &mut Objects,
        listed: &str,
        before: &Names,
        node: &Node,
    ) -> Result<Label, ReadError> {
        let name = policy_of(found, listed, node)?;
        if before.has(&name) {
            return fail_at(found, listed, Rule::Repeated);
        }
        Ok(name)
    }
}

/// `alertPolicies`: at most ten.
struct PoliciesForm;

impl ReadForm for PoliciesForm {
    type Value = Names;

    ghost form = { λ _. policies };

    fn read(&self, found: &mut Objects, key: &str, node: &Node) -> Result<Names, ReadError> {
        names_of(found, key, node, &PolicyItem)
    }
}

/// The `spec` of an SLO.
struct SloForm;

impl ReadForm for SloForm {
    type Value = Slo;

    ghost form = { λ _. map_with slo };

    #[tactic(auto, unfolding(object_terms::specs::Slo::slo))]
    fn read(&self, found: &mut Objects, key: &str, node: &Node) -> Result<Slo, ReadError> {
        let Some(fields) = map_entries(node) else {
            return fail_at(found, key, Rule::NotMap);
        };
        let description = optional(found, fields, DESCRIPTION, &DescriptionForm)?;
        let service = required(found, fields, SERVICE, &NameForm)?;
        let indicator = one_of(
            found,
            fields,
            INDICATOR,
            &IndicatorForm,
            INDICATOR_REF,
            &NameForm,
        )?;
        let time_window = required(found, fields, TIME_WINDOW, &WindowsForm)?;
        let method = required(found, fields, BUDGETING_METHOD, &MethodForm)?;
        let objectives_form = ObjectivesForm { method };
        let objectives = match required(found, fields, OBJECTIVES, &objectives_form) {
            Ok(objectives) => objectives,
            Err(error) => {
                drop(description);
                drop(time_window);
                return Err(error);
            }
        };
        let policies = match optional(found, fields, ALERT_POLICIES, &PoliciesForm) {
            Ok(policies) => policies,
            Err(error) => {
                drop(description);
                drop(time_window);
                drop(objectives);
                return Err(error);
            }
        };
        let slo = Slo {
            description,
            service,
            indicator,
            time_window,
            budgeting_method: method,
            objectives,
            alert_policies: policies,
        };
        close_with(
            found,
            fields,
            &[
                DESCRIPTION,
                SERVICE,
                INDICATOR,
                INDICATOR_REF,
                TIME_WINDOW,
                BUDGETING_METHOD,
                OBJECTIVES,
                ALERT_POLICIES,
            ],
            slo,
        )
    }
}

/// The body of an SLO.
pub(crate) struct SloBody;

impl ReadForm for SloBody {
    type Value = Body;

    ghost form = { λ _. slo_body };

    fn read(&self, found: &mut Objects, key: &str, node: &Node) -> Result<Body, ReadError> {
        match SloForm.read(found, key, node) {
            Ok(slo) => Ok(Body::Slo(slo)),
            Err(error) => Err(error),
        }
    }
}
