//! What a line has to forget, and no more.
ghost use Rattle.alert_line.specs.Laws.{MarkedLinesAgree};

/// Let the counts of the slice [l, l + width) change. After `mark(l + width, l + reach + 1)` a line
/// that agreed with the sums before agrees with the sums afterwards.
pub fn marked_lines_agree()
    ensures { MarkedLinesAgree }
{}
