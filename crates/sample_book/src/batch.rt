//! Batches of rows, judged before any of them is put.
ghost use Rattle.std.specs.Prelude.{◌≡◌, [], IfOk};
ghost use Rattle.sample_book.specs.Puts.{verdicts};

use crate::current_rows::CurrentRows;
use crate::row::{Row, RowVerdict};
use std::alloc::{AllocError, Global};

/// What becomes of each row of a batch, each behind those before it: these are taken into rows of
/// their own.
pub(crate) fn check_batch(
    kept: &CurrentRows,
    alloc: Global,
    rows: &[Row],
) -> Result<Vec<RowVerdict>, AllocError>
    ensures { IfOk result (λ found. found.items ≡ verdicts kept.now.rows rows.now) }
{
    let mut earlier = CurrentRows::new(alloc);
    let found = judge_rows(kept, &mut earlier, alloc, rows);
    drop(earlier);
    found
}

/// Judges the rows of a batch one after another, and takes each.
fn judge_rows(
    kept: &CurrentRows,
    earlier: &mut CurrentRows,
    alloc: Global,
    rows: &[Row],
) -> Result<Vec<RowVerdict>, AllocError>
    requires { earlier.old.rows ≡ [] }
    ensures { IfOk result (λ found. found.items ≡ verdicts kept.now.rows rows.now) }
{
    let mut found = Vec::with_capacity(alloc, rows.len())?;
    for row in rows {
        found.push(kept.check_after(earlier, row))?;
        earlier.arrive(row)?;
    }
    Ok(found)
}
