//! How the alerts of an office stand at a minute.
ghost use Rattle.std.specs.Prelude.{◌≡◌, ◌≤◌, ◌<◌, IfOk, map, unwrap_or};
ghost use Rattle.burn_core.specs.declared.State.TheVariants.{Quiet};
ghost use Rattle.office_history.specs.History.{end_of};
ghost use Rattle.office_history.specs.Notices.{states_over};
ghost use Rattle.history_answers.specs.States.{binding_state};
ghost use Rattle.office_report.specs.Bound.{with_state};

use burn_core::State;
use catalog_terms::Binding;
use office_core::Core;
use std::alloc::{AllocError, Global};

/// How the alert of a binding stands: quiet where there is none.
fn state_of(alloc: Global, core: &mut Core, at: u32, binding: &Binding) -> Result<State, AllocError>
    requires begun { core.old.office.origin ≤ at }
    requires in_range { at < end_of core.old.office.origin }
    ensures office { core.new.office ≡ core.old.office }
    ensures pending { core.new.pending ≡ core.old.pending }
    ensures state { IfOk result (λ state. state
        ≡ unwrap_or (binding_state core.old.office binding.now at) Quiet) }
{
    let state = core.state_of(alloc, binding.slo, binding.objective, binding.policy, at)?;
    Ok(state.unwrap_or(State::Quiet))
}

fn states_of(
    alloc: Global,
    core: &mut Core,
    at: u32,
    bindings: &[Binding],
) -> Result<Vec<(Binding, State)>, AllocError>
    requires begun { core.old.office.origin ≤ at }
    requires in_range { at < end_of core.old.office.origin }
    ensures office { core.new.office ≡ core.old.office }
    ensures pending { core.new.pending ≡ core.old.pending }
    ensures states { IfOk result (λ states. states.items
        ≡ map (with_state core.old.office at) bindings.now) }
{
    let mut states = Vec::new(alloc);
    for binding in bindings {
        let state = state_of(alloc, core, at, binding)?;
        states.push((*binding, state))?;
    }
    Ok(states)
}

/// Each binding of the catalog with its state at a minute.
pub(crate) fn states_at(
    alloc: Global,
    core: &mut Core,
    at: u32,
) -> Result<Vec<(Binding, State)>, AllocError>
    requires begun { core.old.office.origin ≤ at }
    requires in_range { at < end_of core.old.office.origin }
    ensures office { core.new.office ≡ core.old.office }
    ensures pending { core.new.pending ≡ core.old.pending }
    ensures states { IfOk result (λ states. states.items ≡ states_over core.old.office at) }
{
    let bindings = core.catalog().bindings(alloc)?;
    states_of(alloc, core, at, &bindings)
}
