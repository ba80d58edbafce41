//! How many notices wait.
ghost use Rattle.notice_box.specs.Laws.{TakingsAreFew};

/// All notices that were made are at most those that wait and the takings together: numbers are
/// distinct, so that what takes one number takes one notice at most.
pub fn takings_are_few()
    ensures { TakingsAreFew }
{}
