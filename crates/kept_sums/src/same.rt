//! Whether two objectives count the same.
ghost use Rattle.std.specs.Prelude.{◌≡◌};
ghost use Rattle.std.specs.Bool.{Decides};
ghost use Rattle.kept_sums.specs.Objectives.{counted, key_by, pooled};

use exact_fraction::Op;
use office_history::Measure;
use slice_method::{Method, Reading};

/// Whether two operators are one.
fn is_same_op(a: Op, b: Op) -> bool
    ensures { Decides result (a ≡ b) }
{
    a == b
}

/// Whether two readings are one.
fn is_same_reading(a: Reading, b: Reading) -> bool
    ensures { Decides result (a ≡ b) }
{
    a == b
}

/// Whether two methods are one.
fn is_same_method(a: Method, b: Method) -> bool
    ensures { Decides result (a ≡ b) }
{
    a == b
}

/// Whether two objectives are one: the name first, in which most differ.
pub fn is_same_measure(a: &Measure, b: &Measure) -> bool
    ensures { Decides result (a.now ≡ b.now) }
{
    a.slo == b.slo
        && a.value == b.value
        && a.target == b.target
        && a.sli == b.sli
        && is_same_reading(a.reading, b.reading)
        && is_same_op(a.op, b.op)
        && is_same_method(a.method, b.method)
}

/// Whether two objectives count the same for their SLO: their targets alone may differ.
fn is_counted_as(a: &Measure, b: &Measure) -> bool
    ensures { Decides result (counted a.now ≡ counted b.now) }
{
    a.slo == b.slo
        && a.sli == b.sli
        && a.value == b.value
        && is_same_reading(a.reading, b.reading)
        && is_same_op(a.op, b.op)
        && is_same_method(a.method, b.method)
}

/// Whether two objectives count the same where nothing is excluded: their SLOs and targets may
/// differ.
fn is_pooled_as(a: &Measure, b: &Measure) -> bool
    ensures { Decides result (pooled a.now ≡ pooled b.now) }
{
    a.sli == b.sli
        && a.value == b.value
        && is_same_reading(a.reading, b.reading)
        && is_same_op(a.op, b.op)
        && is_same_method(a.method, b.method)
}

/// Whether sums of two objectives are kept under one key.
pub fn has_same_key(pool: bool, a: &Measure, b: &Measure) -> bool
    ensures { Decides result (key_by pool a.now ≡ key_by pool b.now) }
{
    if pool {
        return is_pooled_as(a, b);
    }
    is_counted_as(a, b)
}
