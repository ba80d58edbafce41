//! Laws of sessions over a counter.
ghost use Rattle.std.specs.Prelude.{ℕ, List};
ghost use Rattle.office_counter.specs.Laws.{Extends, IsOwned};
ghost use Rattle.message_session.specs.declared.SessionEnd.{SessionEnd};
ghost use Rattle.message_session.specs.Sessions.{EndsSo, SessionWorld, Trace, Turn};
ghost use Rattle.office_session.specs.Messages.{AnswersMessage, refusal_text};

use office_counter::Counter;

/// A counter's own places rise and lie in its history after each turn of a session, and when it has
/// ended: each change that was acknowledged in it stands in the history once.
pub fn own_places_stay_in_a_session<T: Counter>()
    ensures turns { (count : ℕ) (old : T) (turns : List Turn) (new : T)
        → Trace (AnswersMessage T.asks) count old turns new
        → IsOwned (T.standing old) → IsOwned (T.standing new) }
    ensures end { (end : SessionEnd) (old new : SessionWorld T)
        → EndsSo (AnswersMessage T.asks) refusal_text end old new
        → IsOwned (T.standing old.handler) → IsOwned (T.standing new.handler) }
{}

/// What a counter has seen after each turn of a session, and when it has ended, extends what it had
/// seen before.
pub fn what_is_seen_grows_in_a_session<T: Counter>()
    ensures turns { (count : ℕ) (old : T) (turns : List Turn) (new : T)
        → Trace (AnswersMessage T.asks) count old turns new
        → Extends (T.standing old).office (T.standing new).office }
    ensures end { (end : SessionEnd) (old new : SessionWorld T)
        → EndsSo (AnswersMessage T.asks) refusal_text end old new
        → Extends (T.standing old.handler).office (T.standing new.handler).office }
{}
