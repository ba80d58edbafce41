//! Laws of sessions over an office of one's own.
ghost use Rattle.std.specs.Prelude.{ℕ, List};
ghost use Rattle.office_keep.specs.Office.{StandsSettled};
ghost use Rattle.office_outside.specs.Disk.{All, LeavesOnly};
ghost use Rattle.message_session.specs.declared.SessionEnd.{SessionEnd};
ghost use Rattle.message_session.specs.Sessions.{EndsSo, SessionWorld, Trace, Turn};
ghost use Rattle.own_counter.specs.Own.{OwnAsks, OwnOn};
ghost use Rattle.own_counter.specs.Requests.{AddNoOther, turns_of};
ghost use Rattle.own_counter.specs.Runs.{IsBetween};
ghost use Rattle.office_session.specs.Messages.{AnswersMessage};

use office_outside::Disk;

/// A stop at any moment of a session leaves a file that stands for the office as it was before some
/// entry of the session, or for it with one entry more. It begins where the disk stands for the
/// office, as `Office::disk_stands` says of each.
pub fn a_stop_leaves_what_was_kept<D: Disk + Drop>()
    ensures turns { (count : ℕ) (old : OwnOn D) (turns : List Turn) (new : OwnOn D)
        → Trace (AnswersMessage (OwnAsks D.senses)) count old turns new
        → All (StandsSettled old.kept.office old.kept.doubt) (D.senses.images old.kept.disk)
        → LeavesOnly D.senses old.kept.disk new.kept.disk
        (IsBetween old.kept.office new.kept.office) }
    ensures end { (refusal : OwnOn D → ℕ → List ℕ) (end : SessionEnd)
        (old new : SessionWorld (OwnOn D)) → EndsSo (AnswersMessage (OwnAsks D.senses)) refusal end
        old new → All (StandsSettled old.handler.kept.office old.handler.kept.doubt)
        (D.senses.images old.handler.kept.disk)
        → LeavesOnly D.senses old.handler.kept.disk new.handler.kept.disk
        (IsBetween old.handler.kept.office new.handler.kept.office) }
{}

/// A session adds the entries of its requests, each at most once and in their order, and no other:
/// but for what was in doubt before it, each entry behind the history that it began with, and the
/// one in doubt, is that of a change which the message of one of its turns asks for.
pub fn a_session_adds_what_is_asked<D: Disk + Drop>()
    ensures turns { (count : ℕ) (old : OwnOn D) (turns : List Turn) (new : OwnOn D)
        → Trace (AnswersMessage (OwnAsks D.senses)) count old turns new
        → AddNoOther turns old.kept new.kept }
    ensures end { (refusal : OwnOn D → ℕ → List ℕ) (end : SessionEnd)
        (old new : SessionWorld (OwnOn D)) → (ends : EndsSo (AnswersMessage (OwnAsks D.senses))
        refusal end old new) → AddNoOther
        (turns_of (AnswersMessage (OwnAsks D.senses)) refusal end old new ends) old.handler.kept
        new.handler.kept }
{}
