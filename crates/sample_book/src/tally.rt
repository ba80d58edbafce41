//! What the current rows of an indicator count for.
ghost use Rattle.std.specs.Prelude.{◌≡◌, ◌^◌, ◌<◌, ◌≤◌, [], ◌∷◌, true, length, map};
ghost use Rattle.slo_limits.specs.declared.TheConstants.{MAX_SUMMED_ROWS};
ghost use Rattle.slice_method.specs.Readings.{HasForm};
ghost use Rattle.cell_index.specs.Chains.{IsIndexed};
ghost use Rattle.sample_book.specs.Counting.{HaveForm, counts_of_minute, first_of, is_of};
ghost use Rattle.sample_book.specs.Rows.{cell_of};

use crate::current_rows::CurrentRows;
use crate::row::Row;
use cell_index::CellIndex;
use exact_fraction::{Decimal, Label, Op};
use slice_method::{Counts, Reading, counts_of};
use slo_limits::MINUTES_A_DAY;

/// The first row of an indicator.
pub(crate) fn first_of(rows: &CurrentRows, index: &CellIndex, sli: Label) -> Option<Row>
    requires { IsIndexed (map cell_of rows.now.rows) index.now }
    ensures { result ≡ first_of rows.now.rows sli }
{
    match index.first_of(sli) {
        Some(place) => rows.at(place as usize),
        None => None,
    }
}

/// The sums over the rows of an indicator at a minute: only the rows of its day are looked at.
pub(crate) fn counts_at(
    rows: &CurrentRows,
    index: &CellIndex,
    sli: Label,
    reading: Reading,
    op: Op,
    value: Decimal,
    minute: u32,
) -> Counts
    requires indexed { IsIndexed (map cell_of rows.now.rows) index.now }
    requires form { HaveForm reading rows.now.rows sli minute }
    requires few { length rows.now.rows ≤ MAX_SUMMED_ROWS }
    ensures counts { result ≡ counts_of_minute reading op value rows.now.rows sli minute }
    ensures part { result.good ≤ result.total }
{
    let mut sum = Counts { good: 0, total: 0 };
    let mut next = index.last_on_day(sli, minute / MINUTES_A_DAY);
    while 0 < next {
        let place = next as usize - 1;
        let counts = share_of(rows.row(place), sli, reading, op, value, minute);
        sum.good += counts.good;
        sum.total += counts.total;
        next = index.before_on_day(place);
    }
    sum
}

/// What one row adds.
fn share_of(row: Row, sli: Label, reading: Reading, op: Op, value: Decimal, minute: u32) -> Counts
    requires { is_of sli row ≡ true → row.minute ≡ minute → HasForm reading row.amount }
    ensures share { result ≡ counts_of_minute reading op value (row ∷ []) sli minute }
    ensures part { result.good ≤ result.total }
    ensures few { result.total < 2 ^ 32 }
{
    if row.sli == sli && row.minute == minute {
        counts_of(reading, op, value, row.amount)
    } else {
        Counts { good: 0, total: 0 }
    }
}
