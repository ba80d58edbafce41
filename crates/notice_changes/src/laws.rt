//! What becomes of notices as entries are added.
ghost use Rattle.std.specs.Prelude.{ℕ};
ghost use Rattle.office_history.specs.declared.Judgement.TheVariants.{Accepted};
ghost use Rattle.office_history.specs.History.{Office};
ghost use Rattle.office_history.specs.Judges.{Judges};
ghost use Rattle.office_derived.specs.declared.Work.{Work};
ghost use Rattle.office_derived.specs.Derived.{IsFound, command_of};
ghost use Rattle.notice_changes.specs.Laws.{ATakingActsOnce, NoticesAreInOrder, NoticesStay};
ghost use Rattle.notice_changes.specs.Works.{TellsFew};

/// Once: a notice that was taken stays taken. Over a legal history that takes it, at any moment, it
/// is the same when it is taken again.
pub fn a_taking_acts_once()
    ensures { ATakingActsOnce }
{}

/// Notices are numbered from 1, one after another, in the order in which ticks told them.
pub fn notices_are_in_order()
    ensures { NoticesAreInOrder }
{}

/// An entry leaves all notices, and at most adds some behind them.
pub fn notices_stay()
    ensures { NoticesStay }
{}

/// An accepted tick tells no more changes than notices may wait.
pub fn an_accepted_tick_tells_few()
    ensures { (o : Office) (moment : ℕ) (work : Work) → Judges o moment (command_of work) Accepted
        → IsFound o moment work → TellsFew work }
{}
