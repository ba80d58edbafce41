//! Objectives over values that lack `op` or `value`.
ghost use Rattle.std.specs.Prelude.{◌≡◌, ◌≤◌, Some, length};
ghost use Rattle.std.specs.Option.{option_copied};
ghost use Rattle.std.specs.List.{position_from};
ghost use Rattle.slo_limits.specs.declared.TheConstants.{MAX_OBJECTIVES};
ghost use Rattle.catalog_terms.specs.References.{first_given};
ghost use Rattle.catalog_terms.specs.NeedsOp.{sli_named as sli_named_def};
ghost use Rattle.catalog_terms.specs.NeedsOp.{gives_values as gives_values_def};
ghost use Rattle.catalog_terms.specs.NeedsOp.{lacks_op as lacks_op_def};
ghost use Rattle.catalog_terms.specs.NeedsOp.{lacking_in as lacking_in_def};
ghost use Rattle.catalog_terms.specs.NeedsOp.{needing_op as needing_op_def};
ghost use Rattle.catalog_terms.specs.NeedsOp.{first_needing_op as first_needing_op_def};

use crate::bodies::{objectives_of, sli_in, slo_in};
use crate::member::Member;
use crate::members::Members;
use catalog_terms::NeedsOp;
use exact_fraction::Label;
use object_terms::{Kind, Metric, Object, Objective, Sli, Slo};

/// The indicator of that name.
fn sli_named(members: &Members, name: Label) -> Option<&Sli>
    ensures { option_copied result ≡ sli_named_def members.now name }
{
    match members.find(Kind::Sli, name) {
        Some(member) => sli_in(&member.object().body),
        None => None,
    }
}

/// Whether the indicator of that name is there and gives values.
fn gives_values(members: &Members, name: Label) -> bool
    ensures { result ≡ gives_values_def (sli_named_def members.now name) }
{
    let Some(sli) = sli_named(members, name) else {
        return false;
    };
    match &sli.metric {
        Metric::Threshold(_) => true,
        Metric::Ratio(_) => false,
    }
}

/// Whether an objective can be compared with no value.
fn lacks_op(objective: &Objective) -> bool
    ensures { result ≡ lacks_op_def objective.now }
{
    objective.op.is_none() || objective.value.is_none()
}

/// The number of the first objective that can be compared with no value.
fn first_lacking(objectives: &[Objective]) -> Option<u32>
    requires { length objectives.now ≤ MAX_OBJECTIVES }
    ensures { result ≡ position_from lacks_op_def 0 objectives.now }
{
    let mut number = 0;
    for objective in objectives {
        if lacks_op(objective) {
            return Some(number);
        }
        number += 1;
    }
    None
}

/// The number of the first objective of an SLO over values that lacks `op` or `value`.
fn lacking_in(members: &Members, slo: &Slo) -> Option<u32>
    ensures { result ≡ lacking_in_def members.now (Some slo.now) }
{
    if gives_values(members, slo.indicator) {
        first_lacking(objectives_of(slo))
    } else {
        None
    }
}

/// The first objective of an object that needs `op` or `value`.
fn needing_op(members: &Members, object: &Object) -> Option<NeedsOp>
    ensures { result ≡ needing_op_def members.now object.now }
{
    let Some(slo) = slo_in(&object.body) else {
        return None;
    };
    match lacking_in(members, slo) {
        Some(objective) => Some(NeedsOp {
            slo: object.name,
            objective,
        }),
        None => None,
    }
}

/// The first objective of the objects that needs `op` or `value`.
fn first_in(members: &Members, objects: &[Member]) -> Option<NeedsOp>
    ensures { result ≡ first_given (needing_op_def members.now) objects.now }
{
    for member in objects {
        if let Some(needs) = needing_op(members, member.object()) {
            return Some(needs);
        }
    }
    None
}

/// The first objective that needs `op` or `value`: of the SLOs of the objects in their order, then
/// of those of the members in theirs.
#[tactic(auto, using(crate::proofs::SearchLemmas::given_by_both))]
pub(crate) fn first_needing_op(members: &Members, objects: &[Member]) -> Option<NeedsOp>
    ensures { result ≡ first_needing_op_def members.now objects.now }
{
    match first_in(members, objects) {
        Some(needs) => Some(needs),
        None => first_in(members, members.as_slice()),
    }
}
