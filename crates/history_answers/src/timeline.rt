//! The stretches in which an alert is active, and how it stands.
ghost use Rattle.std.specs.Prelude.{◌≡◌, ◌-◌, ◌<◌, ◌≤◌, ◌&&◌, IfOk, Some, nat_le};
ghost use Rattle.catalog_terms.specs.declared.Binding.{Binding};
ghost use Rattle.record_form.specs.declared.Query.TheVariants.{Timeline};
ghost use Rattle.office_history.specs.History.{Office, end_of};
ghost use Rattle.office_history.specs.Answers.{Answers, AnswersTimeline};
ghost use Rattle.office_derived.specs.Derived.{IsSound, Reflects};
ghost use Rattle.office_history.specs.Alerts.{watched as watched_def};
ghost use Rattle.kept_lines.specs.Known.{AllKnow};
ghost use Rattle.kept_lines.specs.Lines.{HasLines};
ghost use Rattle.kept_lines.specs.Watches.{IsWatched};
ghost use Rattle.history_answers.specs.Learning.{KnowsGiven};
ghost use Rattle.history_answers.specs.States.{binding_state};

use burn_core::State;
use catalog_terms::Binding;
use exact_fraction::Label;
use kept_lines::{KeptLines, Watch, watched};
use office_derived::Derived;
use record_form::{Listed, Outcome, Refusal};
use slo_limits::MAX_TIMELINE;
use std::alloc::AllocError;

/// Whether [from, to) lies between the origin and the moment, and is short enough.
fn is_timeline(derived: &Derived, moment: u32, from: u32, to: u32) -> bool
    ensures { result ≡ (nat_le derived.now.origin from && nat_le from to && nat_le to moment
        && nat_le (to - from) MAX_TIMELINE) }
{
    derived.origin <= from && (from <= to && (to <= moment && to - from <= MAX_TIMELINE))
}

fn timeline_of(
    derived: &Derived,
    lines: &mut KeptLines,
    moment: u32,
    watch: &Watch,
    from: u32,
    to: u32,
) -> Result<Outcome, AllocError>
    requires sound { IsSound derived.now }
    requires begun { derived.now.origin ≤ moment }
    requires in_range { moment < end_of derived.now.origin }
    requires watched { IsWatched derived.now.catalog watch.now }
    requires lines { HasLines derived.now lines.old.kept }
    ensures answer { (o : Office) → Reflects derived.now o
        → IfOk result (AnswersTimeline o moment from to (Some watch.now)) }
    ensures learnt { IfOk result (λ outcome. KnowsGiven lines.new.kept from to outcome
        (Some watch.now)) }
    ensures lines { HasLines derived.now lines.new.kept }
    ensures know { AllKnow lines.old.kept lines.new.kept }
    ensures spare { lines.new.spare ≡ lines.old.spare }
{
    if !is_timeline(derived, moment, from, to) {
        return Ok(Outcome::Refused(Refusal::Range));
    }
    let intervals = Listed::from_vec(lines.intervals(derived, watch, from, to)?);
    let state = lines.state_at(derived, watch, moment);
    Ok(Outcome::Timeline {
        entries: derived.entries,
        intervals,
        state,
    })
}

/// The stretches of [from, to) in which a binding's alert is active, and its state at the moment.
pub(crate) fn timeline(
    derived: &Derived,
    lines: &mut KeptLines,
    moment: u32,
    binding: &Binding,
    from: u32,
    to: u32,
) -> Result<Outcome, AllocError>
    requires sound { IsSound derived.now }
    requires begun { derived.now.origin ≤ moment }
    requires in_range { moment < end_of derived.now.origin }
    requires lines { HasLines derived.now lines.old.kept }
    ensures answer { (o : Office) → Reflects derived.now o
        → IfOk result (Answers o moment (Timeline binding.now.slo binding.now.objective
        binding.now.policy from to)) }
    ensures learnt { IfOk result (λ outcome. KnowsGiven lines.new.kept from to outcome
        (watched_def derived.now.catalog binding.now)) }
    ensures lines { HasLines derived.now lines.new.kept }
    ensures know { AllKnow lines.old.kept lines.new.kept }
    ensures spare { lines.new.spare ≡ lines.old.spare }
{
    match watched(&derived.catalog, binding) {
        Some(watch) => timeline_of(derived, lines, moment, &watch, from, to),
        None => Ok(Outcome::Refused(Refusal::NotFound)),
    }
}

/// The state of a binding at a minute of the office's range: none exactly where there is no such
/// binding. Takes no memory.
pub fn state_of(
    derived: &Derived,
    lines: &mut KeptLines,
    slo: Label,
    objective: u32,
    policy: Label,
    at: u32,
) -> Option<State>
    requires sound { IsSound derived.now }
    requires begun { derived.now.origin ≤ at }
    requires in_range { at < end_of derived.now.origin }
    requires lines { HasLines derived.now lines.old.kept }
    ensures state { (o : Office) → Reflects derived.now o → result ≡ binding_state o
        (record { slo = slo; objective = objective; policy = policy }) at }
    ensures lines { HasLines derived.now lines.new.kept }
    ensures know { AllKnow lines.old.kept lines.new.kept }
    ensures spare { lines.new.spare ≡ lines.old.spare }
{
    let binding = Binding {
        slo,
        objective,
        policy,
    };
    match watched(&derived.catalog, &binding) {
        Some(watch) => Some(lines.state_at(derived, &watch, at)),
        None => None,
    }
}
