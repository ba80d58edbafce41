//! Laws of steps.
ghost use Rattle.office_counter.specs.Laws.{ComesToItsOutcome, OwnPlacesStay, StepsExtend};

/// What a request comes to is the outcome of the definitions.
pub fn what_it_comes_to_is_the_outcome()
    ensures { ComesToItsOutcome }
{}

/// The places of an asker's own entries rise and lie in the history, after each step again: a
/// change that was acknowledged stands in the history once.
pub fn own_places_stay()
    ensures { OwnPlacesStay }
{}

/// What is seen after a step extends what was seen before it.
pub fn steps_extend()
    ensures { StepsExtend }
{}
