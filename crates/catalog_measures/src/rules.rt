//! The rules of alert policies.
ghost use Rattle.std.specs.Prelude.{◌≡◌, IfSome, Some, option_map, unwrap_or};
ghost use Rattle.burn_core.specs.Alert.{IsRule};
ghost use Rattle.object_terms.specs.declared.AlertAfter.{AlertAfter};
ghost use Rattle.std.specs.Option.{option_copied};
ghost use Rattle.office_history.specs.Alerts.{first_condition as first_condition_def};
ghost use Rattle.office_history.specs.Alerts.{flags_named as flags_named_def};
ghost use Rattle.office_history.specs.Alerts.{flags_of as flags_of_def};
ghost use Rattle.office_history.specs.Alerts.{rule_named as rule_named_def, rule_of as rule_of_def};
ghost use Rattle.slo_duration.specs.Minutes.{minutes_of};

use crate::bodies::{condition_named, names_in, policy_named};
use crate::laws;
use burn_core::{AlertRule, Flags};
use exact_fraction::{Label, Op};
use object_terms::{AlertCondition, AlertPolicy, Condition};
use slo_catalog::Catalog;
use slo_duration::rolling_minutes;

fn wait_of(condition: &Condition) -> u32
    ensures { result ≡ unwrap_or
        (option_map (λ (a : AlertAfter). minutes_of a.span) condition.now.alert_after) 0 }
{
    match condition.alert_after {
        Some(after) => rolling_minutes(after.span),
        None => 0,
    }
}

fn rule_of(condition: &Condition) -> AlertRule
    ensures { result ≡ rule_of_def condition.now }
{
    AlertRule::Single {
        op: condition.op.unwrap_or(Op::Gte),
        threshold: condition.threshold.rate,
        lookback: rolling_minutes(condition.lookback_window.span),
        after: wait_of(condition),
    }
}

fn first_condition<'a>(catalog: &'a Catalog, policy: &AlertPolicy) -> Option<&'a AlertCondition>
    ensures { option_copied result ≡ first_condition_def catalog.now policy.now }
{
    let name = names_in(&policy.conditions).get(0)?;
    condition_named(catalog, *name)
}

/// The rule of a policy: none exactly where there is no such policy, or it has no condition.
pub fn rule_named(catalog: &Catalog, name: Label) -> Option<AlertRule>
    ensures value { result ≡ rule_named_def catalog.now name }
    ensures ranges { IfSome result IsRule }
{
    if name.as_str() == "workbook-page" {
        return Some(AlertRule::Page);
    }
    if name.as_str() == "workbook-ticket" {
        return Some(AlertRule::Ticket);
    }
    let policy = policy_named(catalog, name)?;
    let condition = first_condition(catalog, policy)?;
    laws::conditions_give_rules();
    Some(rule_of(&condition.condition))
}

fn flags_of(policy: &AlertPolicy) -> Flags
    ensures { result ≡ flags_of_def (Some policy.now) }
{
    Flags {
        breaching: policy.alert_when_breaching.unwrap_or(true),
        resolved: policy.alert_when_resolved.unwrap_or(false),
        no_data: policy.alert_when_no_data.unwrap_or(false),
    }
}

/// Which changes a policy tells: those of a built-in one where there is no such member.
pub fn flags_named(catalog: &Catalog, name: Label) -> Flags
    ensures { result ≡ flags_named_def catalog.now name }
{
    match policy_named(catalog, name) {
        Some(policy) => flags_of(policy),
        None => Flags::built_in(),
    }
}
