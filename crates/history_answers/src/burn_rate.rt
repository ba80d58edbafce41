//! The burn rate of an objective.
ghost use Rattle.std.specs.Prelude.{◌≡◌, ◌||◌, ◌==◌, Some, nat_lt};
ghost use Rattle.record_form.specs.declared.Query.TheVariants as queries;
ghost use Rattle.office_history.specs.History.{Office};
ghost use Rattle.slo_duration.specs.Minutes.{minutes_of};
ghost use Rattle.office_history.specs.Answers.{Answers, burn_answer};
ghost use Rattle.kept_sums.specs.Objectives.{IsObjective};
ghost use Rattle.catalog_measures.specs.Measures.{IsMeasure};
ghost use Rattle.office_derived.specs.Derived.{IsSound, Reflects};

use crate::asked::{asked_at, is_outside};
use crate::sums::sum_between;
use burn_core::burn;
use catalog_measures::measure_at;
use exact_fraction::Label;
use office_derived::Derived;
use office_history::Measure;
use record_form::{Outcome, Refusal};
use slo_duration::{Duration, rolling_minutes};
use slo_limits::MAX_LOOKBACK;

/// A lookback lasts at least a minute and at most 30 days.
fn is_no_lookback(minutes: u32) -> bool
    ensures { result ≡ ((minutes == 0) || nat_lt MAX_LOOKBACK minutes) }
{
    minutes == 0 || MAX_LOOKBACK < minutes
}

fn burn_of(derived: &Derived, moment: u32, measure: &Measure, lookback: u32, at: u32) -> Outcome
    requires sound { IsSound derived.now }
    requires ranges { IsMeasure measure.now }
    requires objective { IsObjective derived.now.catalog measure.now }
    ensures { (o : Office) → Reflects derived.now o
        → result ≡ burn_answer o moment at lookback (Some measure.now) }
{
    if is_outside(derived, moment, at) || is_no_lookback(lookback) {
        return Outcome::Refused(Refusal::Range);
    }
    let from = at.saturating_sub(lookback);
    let sum = sum_between(derived, measure, from, at);
    Outcome::Burn {
        at,
        burn: burn(sum, measure.target),
        den: sum.den,
        entries: derived.entries,
        num: sum.num,
    }
}

/// The burn rate of an objective over the lookback that ends at a minute, or else at the moment.
/// Takes no memory.
pub(crate) fn burn_rate(
    derived: &Derived,
    moment: u32,
    slo: Label,
    objective: u32,
    lookback: Duration,
    at: Option<u32>,
) -> Outcome
    requires { IsSound derived.now }
    ensures { (o : Office) → Reflects derived.now o
        → Answers o moment (queries.Burn slo objective lookback at) result }
{
    match measure_at(&derived.catalog, slo, objective) {
        Some(measure) => {
            let at = asked_at(moment, at);
            burn_of(derived, moment, &measure, rolling_minutes(lookback), at)
        }
        None => Outcome::Refused(Refusal::NotFound),
    }
}
