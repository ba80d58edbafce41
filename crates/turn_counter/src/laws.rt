//! Laws of passes at an office's desk.
ghost use Rattle.std.specs.Prelude.{ℕ, List};
ghost use Rattle.message_session.specs.declared.SessionEnd.{SessionEnd};
ghost use Rattle.message_session.specs.Sessions.{EndsSo, SessionWorld, Trace, Turn};
ghost use Rattle.turn_desk.specs.Passes.{PassState};
ghost use Rattle.office_session.specs.Messages.{AnswersMessage};
ghost use Rattle.own_counter.specs.Requests.{turns_of};
ghost use Rattle.turn_counter.specs.Asked.{MakesAsked};
ghost use Rattle.turn_counter.specs.Holding.{NewPassesSeeAll, OwnEntriesStay, PassesSeeBeginnings};
ghost use Rattle.turn_counter.specs.Holding.{QueriesOwnNothing, StaysAtDesk};
ghost use Rattle.turn_counter.specs.Turns.{TurnAsks};

use office_outside::Disk;
use record_form::laws;

/// After each turn of a session, and when it has ended, the pass by which it asked is one of the
/// same desk.
pub fn a_pass_stays_at_its_desk<D: Disk + Drop>()
    ensures turns { (count : ℕ) (old : PassState) (turns : List Turn) (new : PassState)
        → Trace (AnswersMessage (TurnAsks D.senses)) count old turns new → StaysAtDesk old new }
    ensures end { (refusal : PassState → ℕ → List ℕ) (end : SessionEnd)
        (old new : SessionWorld PassState) → EndsSo (AnswersMessage (TurnAsks D.senses)) refusal end
        old new → StaysAtDesk old.handler new.handler }
{}

/// What a pass has seen of an office's records is the beginning of the office's history, and for a
/// new pass all of it.
pub fn what_a_pass_has_seen()
    ensures beginnings { PassesSeeBeginnings }
    ensures all { NewPassesSeeAll }
{
    laws::an_entry_is_read_back();
}

/// The place of an own entry holds the very entry that the asking made, whatever others add later.
pub fn an_own_entry_stays()
    ensures changes { OwnEntriesStay }
    ensures queries { QueriesOwnNothing }
{}

/// Each entry that a pass makes by a session, or leaves in doubt, is one for which a message of the
/// session asks, over the office with the entries before it.
pub fn a_pass_makes_what_is_asked<D: Disk + Drop>()
    ensures { (refusal : PassState → ℕ → List ℕ) (end : SessionEnd)
        (old new : SessionWorld PassState)
        (ends : EndsSo (AnswersMessage (TurnAsks D.senses)) refusal end old new)
        → MakesAsked (turns_of (AnswersMessage (TurnAsks D.senses)) refusal end old new ends)
        old.handler new.handler }
{
    laws::an_entry_is_read_back();
}
