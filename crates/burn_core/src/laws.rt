//! What budgets, conditions and active minutes come to.
ghost use Rattle.burn_core.specs.Laws.{ActiveMeansItHeld, BurnTimesAllowanceIsError};
ghost use Rattle.burn_core.specs.Laws.{OneSliceDecidesNearby, RemainingAndBurnAreOne};

/// The error rate is the burn rate times what the target allows: error = burn * (1 - target).
pub fn burn_times_allowance_is_error()
    ensures { BurnTimesAllowanceIsError }
{}

/// What is left of the budget and what was burned of it are the whole: remaining + burn = 1.
pub fn remaining_and_burn_are_one()
    ensures { RemainingAndBurnAreOne }
{}

/// A slice decides about the conditions of the minutes from its end to `reach` behind its start,
/// and about no other.
pub fn one_slice_decides_nearby()
    ensures { OneSliceDecidesNearby }
{}

/// An alert is active exactly where its condition holds, and held for as long as it has to.
pub fn active_means_it_held()
    ensures { ActiveMeansItHeld }
{}
