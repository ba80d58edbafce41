//! How all bindings of a catalog stand.
ghost use Rattle.std.specs.Prelude.{◌≡◌, ◌<◌, ◌≤◌, ◌+◌, IfOk, map};
ghost use Rattle.std.specs.List.{Contains};
ghost use Rattle.slo_limits.specs.declared.TheConstants.{RANGE_MINUTES};
ghost use Rattle.office_history.specs.Alerts.{state_if, states_at, watch_of as watch_of_def};
ghost use Rattle.office_derived.specs.Derived.{IsSound};
ghost use Rattle.catalog_terms.specs.Bindings.{bindings as bindings_def};
ghost use Rattle.kept_lines.specs.Sums.{samples_of};
ghost use Rattle.kept_lines.specs.Known.{AllKnow};
ghost use Rattle.kept_lines.specs.Lines.{HasLines, watches_of};
ghost use Rattle.kept_lines.specs.Carried.{IsHint};
ghost use Rattle.kept_lines.specs.States.{with_state};

use crate::binding_walk::Hint;
use crate::kept::KeptLines;
use crate::watch::watch_of;
use burn_core::State;
use catalog_terms::Binding;
use office_derived::Derived;
use std::alloc::{AllocError, Global};

/// How the alert of a binding stands. The binding is looked up in the catalog only where the line
/// that the hint tells of doesn't remember it.
fn state_of_binding(
    derived: &Derived,
    lines: &mut KeptLines,
    binding: &Binding,
    minute: u32,
    hint: &mut Hint,
) -> State
    requires sound { IsSound derived.now }
    requires lines { HasLines derived.now lines.old.kept }
    requires among { Contains (bindings_def derived.now.catalog) binding.now }
    requires begun { derived.now.origin ≤ minute }
    requires in_range { minute < derived.now.origin + RANGE_MINUTES }
    requires hint { IsHint (samples_of derived.now.book) minute hint.old }
    ensures hint { IsHint (samples_of derived.now.book) minute hint.new }
    ensures value { result ≡ state_if derived.now.origin (samples_of derived.now.book) minute
        (watch_of_def derived.now.catalog binding.now) }
    ensures lines { HasLines derived.now lines.new.kept }
    ensures watches { watches_of lines.new.kept ≡ watches_of lines.old.kept }
    ensures know { AllKnow lines.old.kept lines.new.kept }
    ensures spare { lines.new.spare ≡ lines.old.spare }
{
    let place = hint.line;
    if lines.remembers(place, binding) {
        return lines.state_in(derived, place, minute, hint);
    }
    match watch_of(&derived.catalog, binding) {
        Some(watch) => lines.state_anew(derived, binding, &watch, minute, hint),
        None => State::Quiet,
    }
}

/// Each of the bindings with its state.
fn states_of(
    alloc: Global,
    derived: &Derived,
    lines: &mut KeptLines,
    bindings: &[Binding],
    minute: u32,
) -> Result<Vec<(Binding, State)>, AllocError>
    requires sound { IsSound derived.now }
    requires lines { HasLines derived.now lines.old.kept }
    requires bindings { bindings.now ≡ bindings_def derived.now.catalog }
    requires begun { derived.now.origin ≤ minute }
    requires in_range { minute < derived.now.origin + RANGE_MINUTES }
    ensures value { IfOk result (λ states. states.items
        ≡ map (with_state derived.now minute) bindings.now) }
    ensures lines { HasLines derived.now lines.new.kept }
    ensures watches { watches_of lines.new.kept ≡ watches_of lines.old.kept }
    ensures know { AllKnow lines.old.kept lines.new.kept }
    ensures spare { lines.new.spare ≡ lines.old.spare }
{
    let mut states = Vec::with_capacity(alloc, bindings.len())?;
    let mut hint = Hint::new();
    for binding in bindings {
        let state = state_of_binding(derived, lines, binding, minute, &mut hint);
        states.push((*binding, state))?;
    }
    Ok(states)
}

/// Each binding of the catalog with its state at a minute of the office's range. Afterwards the
/// lines know the minutes that decide about the states, and no line forgets a minute.
///
/// # Errors
///
/// Memory ran out.
pub fn states_over(
    alloc: Global,
    derived: &Derived,
    lines: &mut KeptLines,
    minute: u32,
) -> Result<Vec<(Binding, State)>, AllocError>
    requires sound { IsSound derived.now }
    requires lines { HasLines derived.now lines.old.kept }
    requires begun { derived.now.origin ≤ minute }
    requires in_range { minute < derived.now.origin + RANGE_MINUTES }
    ensures value { IfOk result (λ states. states.items
        ≡ states_at derived.now.origin derived.now.catalog (samples_of derived.now.book) minute) }
    ensures lines { HasLines derived.now lines.new.kept }
    ensures watches { watches_of lines.new.kept ≡ watches_of lines.old.kept }
    ensures know { AllKnow lines.old.kept lines.new.kept }
    ensures spare { lines.new.spare ≡ lines.old.spare }
{
    let bindings = derived.catalog.bindings(alloc)?;
    states_of(alloc, derived, lines, &bindings, minute)
}
