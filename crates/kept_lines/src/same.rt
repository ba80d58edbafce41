//! Whether two alerts that are watched are one.
ghost use Rattle.std.specs.Prelude.{◌≡◌};
ghost use Rattle.std.specs.Bool.{Decides};

use crate::watch::Watch;
use burn_core::AlertRule;

fn is_same_rule(a: &AlertRule, b: &AlertRule) -> bool
    ensures { Decides result (a.now ≡ b.now) }
{
    *a == *b
}

/// Whether two alerts watch the same: the objective first, in which most differ.
pub(crate) fn is_same_watch(a: &Watch, b: &Watch) -> bool
    ensures { Decides result (a.now ≡ b.now) }
{
    kept_sums::is_same_measure(a.measure(), b.measure()) && is_same_rule(a.rule(), b.rule())
}
