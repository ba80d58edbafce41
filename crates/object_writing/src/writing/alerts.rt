//! Alert conditions and policies, as they are written.
ghost use Rattle.std.specs.Prelude.{◌≡◌, IfOk, OnOk};
ghost use Rattle.yaml_terms.specs.Spelling.{items as items_def};
ghost use Rattle.yaml_terms.specs.SpellingView.{spelling_view};
ghost use Rattle.object_terms.specs.Form.{map_with, optional, written_items};
ghost use Rattle.object_terms.specs.Inline.{reference_written};
ghost use Rattle.object_terms.specs.AlertCondition.{condition, alert_condition, condition_body};
ghost use Rattle.object_terms.specs.AlertCondition.{condition_kind};
ghost use Rattle.object_terms.specs.AlertPolicy.{alert_policy, policy_body, conditions, targets};
ghost use Rattle.object_terms.specs.Durations.{duration};
ghost use Rattle.object_terms.specs.Ranges.{wait_range};
ghost use Rattle.object_writing.specs.Adding.{Adds};

use crate::writing::field_lines::{
    optional_boolean, optional_description, optional_op, required_duration, required_name,
    required_number, required_text, required_word,
};
use crate::writing::fields::{list_of, map_of, put, put_item};
use crate::writing::words::condition_word;
use exact_fraction::Label;
use object_terms::keys::{
    ALERT_AFTER, ALERT_WHEN_BREACHING, ALERT_WHEN_NO_DATA, ALERT_WHEN_RESOLVED, CONDITION,
    CONDITION_REF, CONDITIONS, DESCRIPTION, KIND, LOOKBACK_WINDOW, NOTIFICATION_TARGETS, OP,
    SEVERITY, TARGET_REF, THRESHOLD,
};
use object_terms::{
    AlertAfter, AlertCondition, AlertPolicy, Body, Condition, ConditionKind, Names,
};
use std::alloc::{AllocError, Global};
use yaml_terms::{FieldKey, Spelling};

/// A field of the kind of a condition.
fn optional_condition_kind(
    fields: &mut Vec<(FieldKey, Spelling)>,
    key: &str,
    value: Option<ConditionKind>,
) -> Result<(), AllocError>
    ensures { OnOk result (Adds fields.old.items fields.new.items
        ((optional key.now condition_kind).write value)) }
{
    match value {
        Some(value) => required_word(fields, key, condition_word(value)),
        None => Ok(()),
    }
}

/// A field of a wait.
fn optional_wait(
    fields: &mut Vec<(FieldKey, Spelling)>,
    key: &str,
    value: Option<AlertAfter>,
) -> Result<(), AllocError>
    ensures { OnOk result (Adds fields.old.items fields.new.items
        ((optional key.now (duration wait_range)).write value)) }
{
    match value {
        Some(value) => required_duration(fields, key, value.span),
        None => Ok(()),
    }
}

/// The map of what has to hold.
#[tactic(auto, unfolding(object_terms::specs::AlertCondition::condition))]
fn inner_condition(alloc: Global, value: &Condition) -> Result<Spelling, AllocError>
    ensures { IfOk result (λ s. spelling_view s ≡ (map_with condition).write value.now) }
{
    let mut fields = Vec::new(alloc);
    optional_condition_kind(&mut fields, KIND, value.kind)?;
    optional_op(&mut fields, OP, value.op)?;
    required_number(&mut fields, THRESHOLD, value.threshold.rate)?;
    required_duration(&mut fields, LOOKBACK_WINDOW, value.lookback_window.span)?;
    optional_wait(&mut fields, ALERT_AFTER, value.alert_after)?;
    Ok(map_of(fields))
}

/// The map of an alert condition.
#[tactic(auto, unfolding(object_terms::specs::AlertCondition::alert_condition))]
fn condition_map(alloc: Global, value: &AlertCondition) -> Result<Spelling, AllocError>
    ensures { IfOk result (λ s. spelling_view s ≡ (map_with alert_condition).write value.now) }
{
    let mut fields = Vec::new(alloc);
    optional_description(&mut fields, DESCRIPTION, &value.description)?;
    required_text(&mut fields, SEVERITY, &value.severity)?;
    let condition = inner_condition(alloc, &value.condition)?;
    put(&mut fields, CONDITION, condition)?;
    Ok(map_of(fields))
}

/// The `spec` of a condition.
pub(crate) fn condition_spec(alloc: Global, body: &Body) -> Result<Spelling, AllocError>
    ensures { IfOk result (λ s. spelling_view s ≡ condition_body.write body.now) }
{
    match body {
        Body::AlertCondition(condition) => condition_map(alloc, condition),
        _ => Ok(map_of(Vec::new(alloc))),
    }
}

/// A reference: a map of that key alone.
fn reference(alloc: Global, key: &str, name: &Label) -> Result<Spelling, AllocError>
    ensures { IfOk result (λ s. spelling_view s ≡ reference_written key.now name.now) }
{
    let mut fields = Vec::new(alloc);
    required_name(&mut fields, key, name)?;
    Ok(map_of(fields))
}

/// References to these objects.
pub(crate) fn references(alloc: Global, key: &str, names: &[Label]) -> Result<Spelling, AllocError>
    ensures { IfOk result (λ s. spelling_view s
        ≡ items_def (written_items (reference_written key.now) names.now)) }
{
    let mut items = Vec::new(alloc);
    for name in names {
        let item = reference(alloc, key, name)?;
        put_item(&mut items, item)?;
    }
    Ok(list_of(items))
}

/// A field of references to conditions.
fn optional_conditions(
    fields: &mut Vec<(FieldKey, Spelling)>,
    key: &str,
    names: &Option<Names>,
) -> Result<(), AllocError>
    ensures { OnOk result (Adds fields.old.items fields.new.items
        ((optional key.now conditions).write names.now)) }
{
    let Some(names) = names else {
        return Ok(());
    };
    let list = references(*fields.allocator(), CONDITION_REF, names.as_slice())?;
    put(fields, key, list)
}

/// A field of references to targets.
fn optional_targets(
    fields: &mut Vec<(FieldKey, Spelling)>,
    key: &str,
    names: &Option<Names>,
) -> Result<(), AllocError>
    ensures { OnOk result (Adds fields.old.items fields.new.items
        ((optional key.now targets).write names.now)) }
{
    let Some(names) = names else {
        return Ok(());
    };
    let list = references(*fields.allocator(), TARGET_REF, names.as_slice())?;
    put(fields, key, list)
}

/// The map of a policy.
#[tactic(auto, unfolding(object_terms::specs::AlertPolicy::alert_policy))]
fn policy_map(alloc: Global, value: &AlertPolicy) -> Result<Spelling, AllocError>
    ensures { IfOk result (λ s. spelling_view s ≡ (map_with alert_policy).write value.now) }
{
    let mut fields = Vec::new(alloc);
    optional_description(&mut fields, DESCRIPTION, &value.description)?;
    optional_boolean(&mut fields, ALERT_WHEN_NO_DATA, value.alert_when_no_data)?;
    optional_boolean(&mut fields, ALERT_WHEN_RESOLVED, value.alert_when_resolved)?;
    optional_boolean(
        &mut fields,
        ALERT_WHEN_BREACHING,
        value.alert_when_breaching,
    )?;
    optional_conditions(&mut fields, CONDITIONS, &value.conditions)?;
    optional_targets(
        &mut fields,
        NOTIFICATION_TARGETS,
        &value.notification_targets,
    )?;
    Ok(map_of(fields))
}

/// The `spec` of a policy.
pub(crate) fn policy_spec(alloc: Global, body: &Body) -> Result<Spelling, AllocError>
    ensures { IfOk result (λ s. spelling_view s ≡ policy_body.write body.now) }
{
    match body {
        Body::AlertPolicy(policy) => policy_map(alloc, policy),
        _ => Ok(map_of(Vec::new(alloc))),
    }
}
