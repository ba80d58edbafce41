//! What holds of all answers: a law without code.
ghost use Rattle.wire_replies.specs.Laws.{AnswersHaveTheirStatuses};

/// An outcome that failed is answered with the status that it names itself, any other with 200.
pub fn answers_have_their_statuses()
    ensures { AnswersHaveTheirStatuses }
{}
