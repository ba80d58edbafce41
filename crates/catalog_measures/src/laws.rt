//! The laws of what the objects of a catalog give by their names.
ghost use Rattle.std.specs.Prelude.{◌≡◌, ◌<◌, ℕ, All, List, Some};
ghost use Rattle.std.specs.Int.{◌∣◌};
ghost use Rattle.burn_core.specs.declared.AlertRule.{AlertRule};
ghost use Rattle.burn_core.specs.Alert.{IsRule, lookback_of};
ghost use Rattle.office_history.specs.declared.Measure.{Measure};
ghost use Rattle.office_history.specs.Alerts.{rule_named, rule_of};
ghost use Rattle.office_history.specs.Objectives.{measure_at, measure_of, slo_named};
ghost use Rattle.slice_method.specs.declared.Reading.{Reading};
ghost use Rattle.slo_limits.specs.declared.TheConstants.{WHOLE};
ghost use Rattle.object_terms.specs.declared.Object.{Object};
ghost use Rattle.object_terms.specs.declared.Slo.{Slo};
ghost use Rattle.object_terms.specs.declared.objective.Objective.{Objective};
ghost use Rattle.object_terms.specs.declared.alert_condition.Condition.{Condition};
ghost use Rattle.object_terms.specs.Document.{IsOfDocument};
ghost use Rattle.window_sums.specs.Slices.{width_of};
ghost use Rattle.catalog_measures.specs.Measures.{HasSliceTarget, IsMeasure};
ghost use Rattle.object_laws.specs.Ranges.{IsObjective, IsWindow};

use object_laws::laws;

/// What an objective with all that its method wants counts is in its ranges, whatever the indicator
/// reads.
pub fn objectives_give_measures()
    ensures { (name : List ℕ) (slo : Slo) (reading : Reading) (o : Objective) →
        IsObjective slo.budgeting_method o → IsMeasure (measure_of name slo reading o) }
{}

/// The rule of a condition has a threshold of at most 10,000, and a lookback and a wait of at most
/// 30 days; it looks back for at least a minute.
pub fn conditions_give_rules()
    ensures rule { (c : Condition) → IsRule (rule_of c) }
    ensures lookback { (c : Condition) → 0 < lookback_of (rule_of c) }
{}

/// What an objective counts has a target below one (in billionths), slices of which an hour has
/// a whole number, and a ratio of a slice, where its method asks for one, above zero and at most
/// one.
pub fn measures_are_in_range()
    ensures target { (members : List Object) (slo : List ℕ) (number : ℕ) (m : Measure) →
        All IsOfDocument members → measure_at members slo number ≡ Some m → m.target < WHOLE }
    ensures width { (members : List Object) (slo : List ℕ) (number : ℕ) (m : Measure) →
        All IsOfDocument members → measure_at members slo number ≡ Some m → width_of m.method ∣ 60 }
    ensures some { (members : List Object) (slo : List ℕ) (number : ℕ) (m : Measure) →
        All IsOfDocument members → measure_at members slo number ≡ Some m → 0 < width_of m.method }
    ensures slices { (members : List Object) (slo : List ℕ) (number : ℕ) (m : Measure) →
        All IsOfDocument members → measure_at members slo number ≡ Some m
        → HasSliceTarget m.method }
{
    laws::each_object_reads_back();
}

/// The rule of a policy is one too, and looks back for at least a minute.
pub fn rules_are_in_range()
    ensures rule { (members : List Object) (policy : List ℕ) (rule : AlertRule) →
        rule_named members policy ≡ Some rule → IsRule rule }
    ensures lookback { (members : List Object) (policy : List ℕ) (rule : AlertRule) →
        rule_named members policy ≡ Some rule → 0 < lookback_of rule }
{}

/// The window of the SLO of a name has a calendar where it isn't rolling, and there alone; the
/// calendar's starts can follow each other by the window's length.
pub fn named_windows_are_in_range()
    ensures { (members : List Object) (name : List ℕ) (slo : Slo) →
        All IsOfDocument members → slo_named members name ≡ Some slo → IsWindow slo.time_window }
{
    laws::each_object_reads_back();
}
