//! Which changes of states a tick gives notice of.
ghost use Rattle.std.specs.Prelude.{◌≡◌, ◌++◌, ◌∷◌, [], ◌<◌, ◌^◌, IfOk, OnOk, cond, length};
ghost use Rattle.std.specs.Prelude.{slice_index_or};
ghost use Rattle.burn_core.specs.declared.alert.State.TheVariants.{Quiet};
ghost use Rattle.notice_box.specs.Plan.{is_due, is_due_at, plan_of, same_state};

use burn_core::{Flags, State};
use std::alloc::{AllocError, Global};

/// Of the places of three lists of one length, the states at the tick before, those now and the
/// flags of the alert policies, those at which there is to be a notice, with the new states.
pub fn plan(
    alloc: Global,
    before: &[State],
    now: &[State],
    flags: &[Flags],
) -> Result<Vec<(u32, State)>, AllocError>
    requires before { length before.now ≡ length now.now }
    requires flags { length flags.now ≡ length now.now }
    requires few { length now.now < 2 ^ 32 }
    ensures { IfOk result (λ plan. plan.items ≡ plan_of before.now now.now flags.now) }
{
    let mut plan = Vec::new(alloc);
    for place in 0..now.len() as u32 {
        let due = is_due_at(before, now, flags, place as usize);
        note_change(&mut plan, place, state_at(now, place as usize), due)?;
    }
    Ok(plan)
}

/// Adds a change of which a notice is due, and no other.
fn note_change(
    plan: &mut Vec<(u32, State)>,
    place: u32,
    state: State,
    due: bool,
) -> Result<(), AllocError>
    ensures { OnOk result (plan.new.items ≡ plan.old.items ++ cond due ((place, state) ∷ []) []) }
{
    if due {
        plan.push((place, state))?;
    }
    Ok(())
}

fn is_due_at(before: &[State], now: &[State], flags: &[Flags], place: usize) -> bool
    requires before { place < length before.now }
    requires now { place < length now.now }
    requires flags { place < length flags.now }
    ensures { result ≡ is_due_at before.now now.now flags.now place }
{
    is_due(state_at(before, place), state_at(now, place), &flags[place])
}

fn state_at(states: &[State], place: usize) -> State
    requires { place < length states.now }
    ensures { result ≡ slice_index_or states.now place Quiet }
{
    states[place]
}

/// The state is another than before, and the flag of the new one is set.
fn is_due(before: State, now: State, flags: &Flags) -> bool
    ensures { result ≡ is_due before now flags.now }
{
    !is_same_state(before, now) && flags.of_state(now)
}

fn is_same_state(a: State, b: State) -> bool
    ensures { result ≡ same_state a b }
{
    match a {
        State::Quiet => b == State::Quiet,
        State::NoData => b == State::NoData,
        State::Breaching => b == State::Breaching,
    }
}
