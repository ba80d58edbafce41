//! Which changes of states a tick tells.
ghost use Rattle.std.specs.Prelude.{◌≡◌, ◌++◌, ◌∷◌, [], IfOk, IfSome, OnOk, cond, slice_get};
ghost use Rattle.std.specs.Option.{option_copied};
ghost use Rattle.office_history.specs.Notices.{changes as changes_def, is_told as is_told_def};
ghost use Rattle.office_history.specs.Notices.{state_among as state_among_def};
ghost use Rattle.office_history.specs.Notices.{state_eq as state_eq_def};
ghost use Rattle.notice_changes.specs.States.{AreByBinding};

use burn_core::State;
use catalog_measures::flags_named;
use catalog_terms::Binding;
use kept_lines::same_binding;
use slo_catalog::Catalog;
use std::alloc::{AllocError, Global};

/// The state before of a binding that wasn't there.
const UNSEEN: State = State::Quiet;

/// The state of a binding among these; quiet where it isn't among them.
fn state_among(states: &[(Binding, State)], binding: &Binding) -> State
    ensures { result ≡ state_among_def states.now binding.now }
{
    for kept in states {
        if same_binding(&kept.0, binding) {
            return kept.1;
        }
    }
    UNSEEN
}

fn kept_at(states: &[(Binding, State)], place: usize) -> Option<&(Binding, State)>
    ensures { option_copied result ≡ slice_get states.now place }
{
    states.get(place)
}

/// The state at a place among these, where it is a binding's.
fn state_at(states: &[(Binding, State)], place: usize, binding: &Binding) -> Option<State>
    ensures { AreByBinding states.now
        → IfSome result (λ state. state ≡ state_among_def states.now binding.now) }
{
    match kept_at(states, place) {
        Some(kept) => {
            if same_binding(&kept.0, binding) {
                Some(kept.1)
            } else {
                None
            }
        }
        None => None,
    }
}

/// The state of a binding among these, in which a binding has but one. It mostly stands where it
/// stands among the new ones, so that place is looked at first.
fn state_near(states: &[(Binding, State)], place: usize, binding: &Binding) -> State
    ensures { AreByBinding states.now → result ≡ state_among_def states.now binding.now }
{
    match state_at(states, place, binding) {
        Some(state) => state,
        None => state_among(states, binding),
    }
}

fn state_eq(a: State, b: State) -> bool
    ensures { result ≡ state_eq_def a b }
{
    match a {
        State::Quiet => b == State::Quiet,
        State::NoData => b == State::NoData,
        State::Breaching => b == State::Breaching,
    }
}

/// The state is another than before, and the policy tells the new one.
fn is_told(
    catalog: &Catalog,
    before: &[(Binding, State)],
    place: usize,
    now: &(Binding, State),
) -> bool
    ensures { AreByBinding before.now → result ≡ is_told_def catalog.now before.now now.now }
{
    !state_eq(state_near(before, place, &now.0), now.1)
        && flags_named(catalog, now.0.policy).of_state(now.1)
}

/// Adds a change where it is told.
fn add_if(
    told: &mut Vec<(Binding, State)>,
    tells: bool,
    change: &(Binding, State),
) -> Result<(), AllocError>
    ensures { OnOk result (told.new.items
        ≡ cond tells (told.old.items ++ change.now ∷ []) told.old.items) }
{
    if tells {
        told.push(*change)?;
    }
    Ok(())
}

/// The bindings whose change is told, with their new states. Before, a binding has but one state.
pub(crate) fn changes(
    alloc: Global,
    catalog: &Catalog,
    before: &[(Binding, State)],
    now: &[(Binding, State)],
) -> Result<Vec<(Binding, State)>, AllocError>
    ensures { AreByBinding before.now
        → IfOk result (λ told. told.items ≡ changes_def catalog.now before.now now.now) }
{
    let mut told = Vec::new(alloc);
    for (place, change) in now.iter().enumerate() {
        let tells = is_told(catalog, before, place, change);
        add_if(&mut told, tells, change)?;
    }
    Ok(told)
}
