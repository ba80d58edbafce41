//! What holds of all answers.
ghost use Rattle.history_answers.specs.Laws.{EachQueryHasOneAnswer};

/// A query has one answer: two outcomes that answer it over one office at one moment are the same.
pub fn each_query_has_one_answer()
    ensures { EachQueryHasOneAnswer }
{}
