//! The sample rows of differences, on a page that is written when it is full.
ghost use Rattle.std.specs.Prelude.{◌≡◌, ◌++◌, [], OnOk, decimal};
ghost use Rattle.counter_book.specs.Puts.{listed, listed_one};
ghost use Rattle.counters_command.specs.Rows.{field, row_of, rows_of};

use counter_book::{Changes, Difference};
use exact_fraction::Label;
use itoa::Buffer;
use std::alloc::AllocError;

/// Appends a text and a byte behind it.
fn push_text(page: &mut Vec<u8>, text: &[u8], mark: u8) -> Result<(), AllocError>
    ensures { OnOk result (page.new.items ≡ page.old.items ++ field text.now mark []) }
{
    page.extend_from_slice(text)?;
    page.push(mark)?;
    Ok(())
}

/// Appends the digits of a number and a byte behind them.
fn push_number(page: &mut Vec<u8>, number: u32, mark: u8) -> Result<(), AllocError>
    ensures { OnOk result (page.new.items ≡ page.old.items ++ field (decimal number) mark []) }
{
    let mut digits = Buffer::new();
    push_text(page, digits.format(number).as_bytes(), mark)
}

/// Appends the row of a difference.
fn push_row(page: &mut Vec<u8>, sli: &Label, difference: &Difference) -> Result<(), AllocError>
    ensures { OnOk result (page.new.items ≡ page.old.items ++ row_of sli.now difference.now) }
{
    push_text(page, sli.as_bytes(), b',')?;
    push_text(page, difference.source.as_bytes(), b',')?;
    push_number(page, difference.minute, b',')?;
    push_number(page, difference.revision, b',')?;
    push_number(page, difference.part, b',')?;
    push_number(page, difference.total, b'\n')
}

/// Appends the row of a difference that may be there.
fn push_one(
    page: &mut Vec<u8>,
    sli: &Label,
    difference: &Option<Difference>,
) -> Result<(), AllocError>
    ensures { OnOk result
        (page.new.items ≡ page.old.items ++ rows_of sli.now (listed_one difference.now)) }
{
    match difference {
        Some(difference) => push_row(page, sli, difference),
        None => Ok(()),
    }
}

/// Appends the rows of a reading's differences, the own one first.
pub(crate) fn push_rows(
    page: &mut Vec<u8>,
    sli: &Label,
    changes: &Changes,
) -> Result<(), AllocError>
    ensures { OnOk result
        (page.new.items ≡ page.old.items ++ rows_of sli.now (listed changes.now)) }
{
    push_one(page, sli, &changes.own)?;
    push_one(page, sli, &changes.next)
}
