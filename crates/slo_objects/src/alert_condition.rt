//! Alert conditions, as they are read.
ghost use Rattle.std.specs.Prelude.{◌≡◌};
ghost use Rattle.yaml_terms.specs.Spelling.{word};
ghost use Rattle.object_terms.specs.Form.{map_with};
ghost use Rattle.object_terms.specs.AlertCondition.{condition, alert_condition, condition_body};
ghost use Rattle.object_terms.specs.AlertCondition.{condition_word, condition_kind_value};
ghost use Rattle.object_terms.specs.declared.fault.Rule.TheVariants as rules;

use object_fields::{
    DescriptionForm, LookbackForm, OpForm, ReadForm, ReadText, TextForm, ThresholdForm, WaitForm,
    close_with, fail_at, map_entries, optional, required,
};
use object_terms::keys::{
    ALERT_AFTER, CONDITION, DESCRIPTION, KIND, LOOKBACK_WINDOW, OP, SEVERITY, THRESHOLD,
};
use object_terms::{
    AlertCondition, Body, Condition, ConditionKind, Objects, ReadError, Rule, is_word,
};
use std::alloc::{AllocError, Global};
use yaml_terms::Node;

/// The kind of a condition, if the text is its word.
#[tactic(auto, unfolding(object_terms::specs::AlertCondition::condition_kind_value))]
fn read_condition_kind(text: &[u8]) -> Result<ConditionKind, Rule>
    ensures { result ≡ condition_kind_value text.now }
{
    if is_word(text, "burnrate") {
        Ok(ConditionKind::Burnrate)
    } else {
        Err(Rule::BadWord)
    }
}

/// The kind of a condition.
pub(crate) struct ConditionKindForm;

impl ReadText for ConditionKindForm {
    type Value = ConditionKind;

    ghost other = { λ _. rules.BadWord };

    ghost value = { λ _. condition_kind_value };

    ghost spelled = { λ _ k. word (condition_word k) };

    fn rule(&self) -> Rule {
        Rule::BadWord
    }

    fn parse(
        &self,
        _alloc: Global,
        text: &[u8],
    ) -> Result<Result<ConditionKind, Rule>, AllocError> {
        Ok(read_condition_kind(text))
    }
}

/// `condition`.
struct ConditionForm;

impl ReadForm for ConditionForm {
    type Value = Condition;

    ghost form = { λ _. map_with condition };

    #[tactic(auto, unfolding(object_terms::specs::AlertCondition::condition))]
    fn read(&self, found: &mut Objects, key: &str, node: &Node) -> Result<Condition, ReadError> {
        let Some(fields) = map_entries(node) else {
            return fail_at(found, key, Rule::NotMap);
        };
        let kind = optional(found, fields, KIND, &ConditionKindForm)?;
        let op = optional(found, fields, OP, &OpForm)?;
        let threshold = required(found, fields, THRESHOLD, &ThresholdForm)?;
        let lookback_window = required(found, fields, LOOKBACK_WINDOW, &LookbackForm)?;
        let alert_after = optional(found, fields, ALERT_AFTER, &WaitForm)?;
        let condition = Condition {
            kind,
            op,
            threshold,
            lookback_window,
            alert_after,
        };
        close_with(
            found,
            fields,
            &[KIND, OP, THRESHOLD, LOOKBACK_WINDOW, ALERT_AFTER],
            condition,
        )
    }
}

/// The `spec` of a condition.
struct AlertConditionForm;

impl ReadForm for AlertConditionForm {
    type Value = AlertCondition;

    ghost form = { λ _. map_with alert_condition };

    #[tactic(auto, unfolding(object_terms::specs::AlertCondition::alert_condition))]
    fn read(
        &self,
        found: &mut Objects,
        key: &str,
        node: &Node,
    ) -> Result<AlertCondition, ReadError> {
        let Some(fields) = map_entries(node) else {
            return fail_at(found, key, Rule::NotMap);
        };
        let description = optional(found, fields, DESCRIPTION, &DescriptionForm)?;
        let severity = match required(found, fields, SEVERITY, &TextForm) {
            Ok(severity) => severity,
            Err(error) => {
                drop(description);
                return Err(error);
            }
        };
        let condition = match required(found, fields, CONDITION, &ConditionForm) {
            Ok(condition) => condition,
            Err(error) => {
                drop(description);
                drop(severity);
                return Err(error);
            }
        };
        let condition = AlertCondition {
            description,
            severity,
            condition,
        };
        close_with(
            found,
            fields,
            &[DESCRIPTION, SEVERITY, CONDITION],
            condition,
        )
    }
}

/// The body of a condition.
pub(crate) struct ConditionBody;

impl ReadForm for ConditionBody {
    type Value = Body;

    ghost form = { λ _. condition_body };

    fn read(&self, found: &mut Objects, key: &str, node: &Node) -> Result<Body, ReadError> {
        match AlertConditionForm.read(found, key, node) {
            Ok(condition) => Ok(Body::AlertCondition(condition)),
            Err(error) => Err(error),
        }
    }
}
