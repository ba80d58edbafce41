//! Why a line agrees with sums that changed.
ghost use Rattle.line_forgetting.specs.Following.{LinesFollowBatches, LinesFollowExclusions};
ghost use Rattle.line_forgetting.specs.Touched.{LinesAgreeAgain};

/// No work, and a law: a line whose known minutes look only at slices that have the leaves that
/// they had agrees with the new sums as it did with the old ones.
pub fn lines_agree_again()
    ensures { LinesAgreeAgain }
{}

/// No work, and laws: a line that agreed with the sums, and has forgotten what is near the slices
/// that a batch or an exclusion touches, agrees with the sums that followed it.
pub fn lines_follow_their_sums()
    ensures batches { LinesFollowBatches }
    ensures exclusions { LinesFollowExclusions }
{}
