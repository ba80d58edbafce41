//! What is heard in the bytes of an export.
ghost use Rattle.std.specs.Prelude.{ℕ, List};
ghost use Rattle.message_session.specs.Sessions.{Trace, Turn, said_of_turns};
ghost use Rattle.record_form.specs.declared.Command.{Command};
ghost use Rattle.office_session.specs.Messages.{AnswersMessage};
ghost use Rattle.export_heard.specs.Asked.{AskChanges};
ghost use Rattle.export_heard.specs.Heard.{AreRequestsOf};
ghost use Rattle.export_heard.specs.Laws.{ChangesAreHeard, NothingElseIsHeard, PartsAreHeard};

use office_counter::Counter;
use wire_routes::laws as routes;

/// Changes that have records, written one behind another, are heard as these changes.
pub fn changes_are_heard_as_themselves()
    ensures { ChangesAreHeard }
{
    routes::a_message_stands_for_one_answer();
}

/// However many bytes were taken so far of those that are heard as changes, the messages in them
/// are the requests of the first changes.
pub fn nothing_else_is_heard()
    ensures { NothingElseIsHeard }
{}

/// Each part of an export is heard as its requests, over any history whose entries have records and
/// whose catalog has no object that is too large for a request.
pub fn an_export_is_heard_as_its_requests()
    ensures { PartsAreHeard }
{
    changes_are_heard_as_themselves();
}

/// A session that hears changes asks each of them once, in order, and tells what it came to, or
/// that memory ran out before, in which case it isn't asked.
pub fn a_session_asks_what_it_hears<T: Counter>()
    ensures { (count : ℕ) (old : T) (turns : List Turn) (new : T) (changes : List Command)
        → Trace (AnswersMessage T.asks) count old turns new
        → AreRequestsOf (said_of_turns turns) changes
        → AskChanges T.asks old turns changes new }
{}
