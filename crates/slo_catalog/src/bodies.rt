//! What stands in the `spec` of an object of one kind.
ghost use Rattle.std.specs.Prelude.{◌≡◌, ◌≤◌, length};
ghost use Rattle.std.specs.Option.{option_copied};
ghost use Rattle.slo_limits.specs.declared.TheConstants.{MAX_OBJECTIVES};
ghost use Rattle.object_terms.specs.AlertCondition.{condition_in as condition_in_def};
ghost use Rattle.object_terms.specs.AlertPolicy.{policy_in as policy_in_def};
ghost use Rattle.object_terms.specs.Sli.{sli_in as sli_in_def};
ghost use Rattle.object_terms.specs.Slo.{slo_in as slo_in_def};

use object_terms::{AlertCondition, AlertPolicy, Body, Objective, Sli, Slo};

/// The indicator that a body is.
pub fn sli_in(body: &Body) -> Option<&Sli>
    ensures { option_copied result ≡ sli_in_def body.now }
{
    match body {
        Body::Sli(sli) => Some(sli),
        Body::DataSource(_)
        | Body::Service(_)
        | Body::Slo(_)
        | Body::AlertPolicy(_)
        | Body::AlertCondition(_)
        | Body::AlertNotificationTarget(_) => None,
    }
}

/// The objective over time that a body is.
pub fn slo_in(body: &Body) -> Option<&Slo>
    ensures { option_copied result ≡ slo_in_def body.now }
{
    match body {
        Body::Slo(slo) => Some(slo),
        Body::DataSource(_)
        | Body::Service(_)
        | Body::Sli(_)
        | Body::AlertPolicy(_)
        | Body::AlertCondition(_)
        | Body::AlertNotificationTarget(_) => None,
    }
}

/// The alert policy that a body is.
pub fn policy_in(body: &Body) -> Option<&AlertPolicy>
    ensures { option_copied result ≡ policy_in_def body.now }
{
    match body {
        Body::AlertPolicy(policy) => Some(policy),
        Body::DataSource(_)
        | Body::Service(_)
        | Body::Sli(_)
        | Body::Slo(_)
        | Body::AlertCondition(_)
        | Body::AlertNotificationTarget(_) => None,
    }
}

/// The alert condition that a body is.
pub fn condition_in(body: &Body) -> Option<&AlertCondition>
    ensures { option_copied result ≡ condition_in_def body.now }
{
    match body {
        Body::AlertCondition(condition) => Some(condition),
        Body::DataSource(_)
        | Body::Service(_)
        | Body::Sli(_)
        | Body::Slo(_)
        | Body::AlertPolicy(_)
        | Body::AlertNotificationTarget(_) => None,
    }
}

/// The objectives of an SLO, of which there are five at most.
pub(crate) fn objectives_of(slo: &Slo) -> &[Objective]
    ensures all { result.now ≡ slo.now.objectives }
    ensures few { length slo.now.objectives ≤ MAX_OBJECTIVES }
{
    // The list says how many objectives it may have where it is counted.
    let _ = slo.objectives.count();
    slo.objectives.as_slice()
}
