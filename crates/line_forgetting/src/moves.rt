//! At which minutes the rows of an indicator move that a batch puts.
ghost use Rattle.std.specs.Prelude.{◌≡◌, IfSome, length};
ghost use Rattle.line_forgetting.specs.Moves.{AreTold, IsMovedMinute, IsToldOf};
ghost use Rattle.line_forgetting.specs.Moves.{lengthened as lengthened_def};
ghost use Rattle.line_forgetting.specs.Moves.{with_minute as with_minute_def};

use exact_fraction::Label;
use kept_sums::changes_counts;
use office_history::Measure;
use sample_book::{Row, RowVerdict};

/// The minutes of an indicator's rows that move, as far as two numbers tell them.
#[derive(Clone, Copy)]
pub enum MovedMinutes {
    /// There are none.
    Nothing,
    /// They are those from the first to the last, each of them.
    Stretch { first: u32, last: u32 },
    /// One of them was neither in the stretch of those before it nor beside it.
    Scattered,
}

/// What is told of the rows of an indicator that a batch moves.
#[derive(Clone, Copy)]
pub struct IndicatorMoves {
    pub(crate) sli: Label,
    pub(crate) minutes: MovedMinutes,
}

/// A stretch of minutes with one more, where that is in it or beside it.
fn lengthened(first: u32, last: u32, minute: u32) -> MovedMinutes
    ensures { result ≡ lengthened_def first last minute }
{
    if first <= minute && minute <= last {
        MovedMinutes::Stretch { first, last }
    } else if minute.saturating_sub(last) == 1 {
        MovedMinutes::Stretch {
            first,
            last: minute,
        }
    } else if first.saturating_sub(minute) == 1 {
        MovedMinutes::Stretch {
            first: minute,
            last,
        }
    } else {
        MovedMinutes::Scattered
    }
}

/// What is told of minutes with one more.
fn with_minute(minutes: MovedMinutes, minute: u32) -> MovedMinutes
    ensures { result ≡ with_minute_def minutes minute }
{
    match minutes {
        MovedMinutes::Nothing => MovedMinutes::Stretch {
            first: minute,
            last: minute,
        },
        MovedMinutes::Stretch { first, last } => lengthened(first, last, minute),
        MovedMinutes::Scattered => MovedMinutes::Scattered,
    }
}

/// The minutes of the rows of an objective's indicator that move.
fn moved_minutes(measure: &Measure, rows: &[Row], verdicts: &[RowVerdict]) -> MovedMinutes
    requires judged { length verdicts.now ≡ length rows.now }
    ensures { AreTold (IsMovedMinute measure.now.sli rows.now verdicts.now) result }
{
    let mut minutes = MovedMinutes::Nothing;
    for (place, row) in rows.iter().enumerate() {
        if changes_counts(measure, row, &verdicts[place]) {
            minutes = with_minute(minutes, row.minute);
        }
    }
    minutes
}

/// What is told of the rows of an objective's indicator that move. They are looked at once for
/// objectives of one indicator that come one behind the other.
pub(crate) fn moves_of(
    told: Option<IndicatorMoves>,
    measure: &Measure,
    rows: &[Row],
    verdicts: &[RowVerdict],
) -> IndicatorMoves
    requires told { IfSome told (IsToldOf rows.now verdicts.now) }
    requires judged { length verdicts.now ≡ length rows.now }
    ensures told { IsToldOf rows.now verdicts.now result }
    ensures own { result.sli ≡ measure.now.sli }
{
    match told {
        Some(told) if told.sli == measure.sli => told,
        _ => IndicatorMoves {
            sli: measure.sli,
            minutes: moved_minutes(measure, rows, verdicts),
        },
    }
}
