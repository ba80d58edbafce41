//! Alert policies, as they are read.
ghost use Rattle.object_terms.specs.Form.{map_with};
ghost use Rattle.object_terms.specs.AlertPolicy.{alert_policy, condition_item, target_item};
ghost use Rattle.object_terms.specs.AlertPolicy.{conditions, targets, policy_body, at_most_one};
ghost use Rattle.object_terms.specs.AlertPolicy.{any_number_of};

use crate::alert_condition::ConditionBody;
use crate::alert_notification_target::TargetBody;
use exact_fraction::Label;
use object_fields::{
    BooleanForm, DescriptionForm, ReadForm, ReadItem, close_with, fail_at, map_entries, names_of,
    optional, referenced,
};
use object_terms::keys::{
    ALERT_WHEN_BREACHING, ALERT_WHEN_NO_DATA, ALERT_WHEN_RESOLVED, CONDITION_REF, CONDITIONS,
    DESCRIPTION, NOTIFICATION_TARGETS, TARGET_REF,
};
use object_terms::{AlertPolicy, Body, Kind, Names, Objects, ReadError, Rule};
use yaml_terms::Node;

/// An item of `conditions`.
struct ConditionItem;

impl ReadItem for ConditionItem {
    ghost item = { λ _. condition_item };

    ghost may_have = { λ _. at_most_one };

    fn may_have(&self, count: usize) -> bool {
        count <= 1
    }

    fn read_item(
        &self,
        found: &mut Objects,
        listed: &str,
        _before: &Names,
        node: &Node,
    ) -> Result<Label, ReadError> {
        let kind = Kind::AlertCondition;
        referenced(found, listed, node, CONDITION_REF, kind, &ConditionBody)
    }
}

/// `conditions`: at most one.
struct ConditionsForm;

impl ReadForm for ConditionsForm {
    type Value = Names;

    ghost form = { λ _. conditions };

    fn read(&self, found: &mut Objects, key: &str, node: &Node) -> Result<Names, ReadError> {
        names_of(found, key, node, &ConditionItem)
    }
}

/// An item of `notificationTargets`.
struct TargetItem;

impl ReadItem for TargetItem {
    ghost item = { λ _. target_item };

    ghost may_have = { λ _. any_number_of };

    fn may_have(&self, _count: usize) -> bool {
        true
    }

    fn read_item(
        &self,
        found: &mut Objects,
        listed: &str,
        _before: &Names,
        node: &Node,
    ) -> Result<Label, ReadError> {
        let kind = Kind::AlertNotificationTarget;
        referenced(found, listed, node, TARGET_REF, kind, &TargetBody)
    }
}

/// `notificationTargets`.
struct TargetsForm;

impl ReadForm for TargetsForm {
    type Value = Names;

    ghost form = { λ _. targets };

    fn read(&self, found: &mut Objects, key: &str, node: &Node) -> Result<Names, ReadError> {
        names_of(found, key, node, &TargetItem)
    }
}

/// The `spec` of a policy.
struct PolicyForm;

impl ReadForm for PolicyForm {
    type Value = AlertPolicy;

    ghost form = { λ _. map_with alert_policy };

    #[tactic(auto, unfolding(object_terms::specs::AlertPolicy::alert_policy))]
    fn read(&self, found: &mut Objects, key: &str, node: &Node) -> Result<AlertPolicy, ReadError> {
        let Some(fields) = map_entries(node) else {
            return fail_at(found, key, Rule::NotMap);
        };
        let description = optional(found, fields, DESCRIPTION, &DescriptionForm)?;
        let alert_when_no_data = optional(found, fields, ALERT_WHEN_NO_DATA, &BooleanForm)?;
        let alert_when_resolved = optional(found, fields, ALERT_WHEN_RESOLVED, &BooleanForm)?;
        let alert_when_breaching = optional(found, fields, ALERT_WHEN_BREACHING, &BooleanForm)?;
        let conditions = match optional(found, fields, CONDITIONS, &ConditionsForm) {
            Ok(conditions) => conditions,
            Err(error) => {
                drop(description);
                return Err(error);
            }
        };
        let targets = match optional(found, fields, NOTIFICATION_TARGETS, &TargetsForm) {
            Ok(targets) => targets,
            Err(error) => {
                drop(description);
                drop(conditions);
                return Err(error);
            }
        };
        let policy = AlertPolicy {
            description,
            alert_when_no_data,
            alert_when_resolved,
            alert_when_breaching,
            conditions,
            notification_targets: targets,
        };
        close_with(
            found,
            fields,
            &[
                DESCRIPTION,
                ALERT_WHEN_NO_DATA,
                ALERT_WHEN_RESOLVED,
                ALERT_WHEN_BREACHING,
                CONDITIONS,
                NOTIFICATION_TARGETS,
            ],
            policy,
        )
    }
}

/// The body of a policy.
pub(crate) struct PolicyBody;

impl ReadForm for PolicyBody {
    type Value = Body;

    ghost form = { λ _. policy_body };

    fn read(&self, found: &mut Objects, key: &str, node: &Node) -> Result<Body, ReadError> {
        match PolicyForm.read(found, key, node) {
            Ok(policy) => Ok(Body::AlertPolicy(policy)),
            Err(error) => Err(error),
        }
    }
}
