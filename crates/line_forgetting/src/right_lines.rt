//! Why a line stays right while the samples change.
ghost use Rattle.line_forgetting.specs.Right.{AgreeingLinesAreRight, RightLinesAgree};
ghost use Rattle.line_forgetting.specs.Right.{LinesStayRightOverBatches};
ghost use Rattle.line_forgetting.specs.Right.{LinesStayRightOverExclusions};
ghost use Rattle.line_forgetting.specs.Right.{LinesStayRightOverLikeExclusions};

/// No work, and laws: over the sums of its objective a line is right exactly where it agrees with
/// them.
pub fn right_lines_agree()
    ensures agree { RightLinesAgree }
    ensures right { AgreeingLinesAreRight }
{}

/// No work, and a law: a line that is right, and has forgotten what is near the slices of the rows
/// that move, is right over the samples with the batch.
pub fn lines_stay_right_over_batches()
    ensures { LinesStayRightOverBatches }
{}

/// No work, and a law: a line that is right, and has forgotten what is near the slices of the rows
/// that an exclusion changes, is right over the samples with it, or without it.
pub fn lines_stay_right_over_exclusions()
    ensures { LinesStayRightOverExclusions }
{}

/// No work, and a law: a line that is right is right over other exclusions that take the same
/// minutes.
pub fn lines_stay_right_where_minutes_are_alike()
    ensures { LinesStayRightOverLikeExclusions }
{}
