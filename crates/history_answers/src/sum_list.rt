//! The sums of an objective over stretches of minutes, one behind another.
ghost use Rattle.std.specs.Prelude.{◌≡◌, ◌+◌, ◌*◌, ◌<◌, ◌≤◌, ◌^◌, min, IfOk, Some};
ghost use Rattle.slo_terms.specs.Sums.{sum_of_slices};
ghost use Rattle.window_sums.specs.Slices.{leaf_at, width_of};
ghost use Rattle.record_form.specs.declared.Query.TheVariants as queries;
ghost use Rattle.office_history.specs.History.{Office};
ghost use Rattle.office_history.specs.Answers.{Answers, are_asked, sums_answer};
ghost use Rattle.office_history.specs.Stretches.{sums_over as sums_over_def};
ghost use Rattle.kept_sums.specs.Objectives.{IsObjective};
ghost use Rattle.office_derived.specs.Derived.{IsSound, Reflects};
ghost use Rattle.kept_lines.specs.Sums.{samples_of};

use crate::sums::sum_in;
use catalog_measures::measure_at;
use exact_fraction::{Label, Leaf};
use kept_lines::objective_sums;
use office_derived::Derived;
use office_history::{MAX_SUMS, MAX_SUMS_MINUTES, Measure};
use record_form::{Listed, Outcome, Refusal};
use std::alloc::{AllocError, Global};
use window_sums::WindowSums;

/// Whether [from, to) lies between the origin and the moment and is short enough, and has neither
/// no stretches nor too many.
fn are_asked(derived: &Derived, moment: u32, from: u32, to: u32, step: u32) -> bool
    ensures { result ≡ are_asked derived.now.origin moment from to step }
{
    derived.origin <= from
        && (from <= to
            && (to <= moment
                && (0 < step
                    && (to - from <= MAX_SUMS_MINUTES && (to - from).div_ceil(step) <= MAX_SUMS))))
}

/// The sum over the stretch of this number, which begins before `to`.
fn sum_of_stretch(sums: &WindowSums, from: u32, to: u32, step: u32, k: u32) -> Leaf
    requires some { 0 < step }
    requires begun { from + k * step < to }
    ensures { result ≡ sum_of_slices (width_of sums.now.method) (leaf_at sums.now) (from + k * step)
        (min (from + k * step + step) to) }
{
    let begin = from + k * step;
    let end = begin + step.min(to - begin);
    sum_in(sums, begin, end)
}

/// The sums of an objective over the stretches of [from, to), each by the sums that are kept.
fn sums_over(
    alloc: Global,
    derived: &Derived,
    measure: &Measure,
    from: u32,
    to: u32,
    step: u32,
) -> Result<Vec<Leaf>, AllocError>
    requires sound { IsSound derived.now }
    requires objective { IsObjective derived.now.catalog measure.now }
    requires order { from ≤ to }
    requires some { 0 < step }
    ensures { IfOk result (λ list. list.items
        ≡ sums_over_def (samples_of derived.now.book) measure.now from to step) }
{
    let sums = objective_sums(derived, measure);
    let mut list = Vec::new(alloc);
    for k in 0..(to - from).div_ceil(step) {
        list.push(sum_of_stretch(sums, from, to, step, k))?;
    }
    Ok(list)
}

fn sums_of(
    alloc: Global,
    derived: &Derived,
    moment: u32,
    measure: &Measure,
    from: u32,
    to: u32,
    step: u32,
) -> Result<Outcome, AllocError>
    requires sound { IsSound derived.now }
    requires objective { IsObjective derived.now.catalog measure.now }
    ensures { (o : Office) → Reflects derived.now o
        → IfOk result (λ outcome. outcome
        ≡ sums_answer o moment from to step (Some measure.now)) }
{
    if !are_asked(derived, moment, from, to, step) {
        return Ok(Outcome::Refused(Refusal::Range));
    }
    let sums = sums_over(alloc, derived, measure, from, to, step)?;
    Ok(Outcome::Sums {
        at: moment,
        entries: derived.entries,
        sums: Listed::from_vec(sums),
    })
}

/// The sums of an objective over the stretches of so many minutes from one minute to another.
pub(crate) fn sum_list(
    alloc: Global,
    derived: &Derived,
    moment: u32,
    slo: Label,
    objective: u32,
    from: u32,
    to: u32,
    step: u32,
) -> Result<Outcome, AllocError>
    requires { IsSound derived.now }
    ensures { (o : Office) → Reflects derived.now o
        → IfOk result (Answers o moment (queries.Sums slo objective from to step)) }
{
    match measure_at(&derived.catalog, slo, objective) {
        Some(measure) => sums_of(alloc, derived, moment, &measure, from, to, step),
        None => Ok(Outcome::Refused(Refusal::NotFound)),
    }
}
