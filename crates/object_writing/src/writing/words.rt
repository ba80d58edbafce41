//! The fixed words.
ghost use Rattle.std.specs.Prelude.{◌≡◌};
ghost use Rattle.object_terms.specs.Scalars.{op_word as op_word_def};
ghost use Rattle.object_terms.specs.AlertCondition.{condition_word as condition_word_def};
ghost use Rattle.object_terms.specs.Sli.{raw_type_word as raw_type_word_def};
ghost use Rattle.object_terms.specs.Slo.{method_word as method_word_def};

use exact_fraction::Op;
use object_terms::{BudgetingMethod, ConditionKind, RawType};

/// The word of a comparison.
pub(crate) fn op_word(op: Op) -> &'static str
    ensures { result.now ≡ op_word_def op }
{
    match op {
        Op::Lte => "lte",
        Op::Gte => "gte",
        Op::Lt => "lt",
        Op::Gt => "gt",
    }
}

/// The word of a kind of condition.
pub(crate) fn condition_word(kind: ConditionKind) -> &'static str
    ensures { result.now ≡ condition_word_def kind }
{
    match kind {
        ConditionKind::Burnrate => "burnrate",
    }
}

/// The word of what a raw ratio is a ratio of.
pub(crate) fn raw_type_word(raw_type: RawType) -> &'static str
    ensures { result.now ≡ raw_type_word_def raw_type }
{
    match raw_type {
        RawType::Success => "success",
        RawType::Failure => "failure",
    }
}

/// The word of a budgeting method.
pub(crate) fn method_word(method: BudgetingMethod) -> &'static str
    ensures { result.now ≡ method_word_def method }
{
    match method {
        BudgetingMethod::Occurrences => "Occurrences",
        BudgetingMethod::Timeslices => "Timeslices",
        BudgetingMethod::RatioTimeslices => "RatioTimeslices",
    }
}
