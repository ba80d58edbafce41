//! The bodies of requests.
ghost use Rattle.std.specs.Prelude.{◌≡◌, ◌++◌, ◌∷◌, [], OnOk, decimal, drop, slice_get, take};
ghost use Rattle.std.specs.List.{flat_map};
ghost use Rattle.export_terms.specs.Texts.{amount_fields, exclusion_text, row_line};
ghost use Rattle.office_export.specs.Fields.{field};
ghost use Rattle.office_export.specs.Lines.{line_if};

use crate::listing::ROWS_AT_ONCE;
use exact_fraction::write_decimal;
use itoa::Buffer;
use sample_book::{Exclusion, Row, SampleBook};
use slice_method::Amount;
use std::alloc::AllocError;

/// Appends a text and a byte behind it.
fn push_text(body: &mut Vec<u8>, text: &[u8], mark: u8) -> Result<(), AllocError>
    ensures { OnOk result (body.new.items ≡ body.old.items ++ field text.now mark []) }
{
    body.extend_from_slice(text)?;
    body.push(mark)?;
    Ok(())
}

/// Appends the digits of a number and a byte behind them.
fn push_number(body: &mut Vec<u8>, number: u32, mark: u8) -> Result<(), AllocError>
    ensures { OnOk result (body.new.items ≡ body.old.items ++ field (decimal number) mark []) }
{
    let mut digits = Buffer::new();
    push_text(body, digits.format(number).as_bytes(), mark)
}

/// Appends the last two fields of a sample.
fn push_amount(body: &mut Vec<u8>, amount: Amount) -> Result<(), AllocError>
    ensures { OnOk result (body.new.items ≡ body.old.items ++ amount_fields amount) }
{
    match amount {
        Amount::Counts { part, total } => {
            push_number(body, part, b',')?;
            push_number(body, total, b'\n')
        }
        Amount::Value(value) => {
            write_decimal(body, value)?;
            body.extend_from_slice(b",\n")
        }
        Amount::Withdrawn => body.extend_from_slice(b",\n"),
    }
}

/// Appends a sample.
fn push_row(body: &mut Vec<u8>, row: &Row) -> Result<(), AllocError>
    ensures { OnOk result (body.new.items ≡ body.old.items ++ row_line row.now) }
{
    push_text(body, row.sli.as_bytes(), b',')?;
    push_text(body, row.source.as_bytes(), b',')?;
    push_number(body, row.minute, b',')?;
    push_number(body, row.revision, b',')?;
    push_amount(body, row.amount)
}

/// Appends the row at a place, if there is one.
fn push_row_at(body: &mut Vec<u8>, book: &SampleBook, place: u32) -> Result<(), AllocError>
    ensures { OnOk result (body.new.items
        ≡ body.old.items ++ line_if (slice_get book.now.rows place)) }
{
    match book.row_at(place) {
        Some(row) => push_row(body, &row),
        None => Ok(()),
    }
}

/// Appends the rows from a place on, a thousand at most.
pub(crate) fn push_rows(body: &mut Vec<u8>, book: &SampleBook, first: u32) -> Result<(), AllocError>
    ensures { OnOk result (body.new.items
        ≡ body.old.items ++ flat_map row_line (take 1000 (drop first book.now.rows))) }
{
    let count = book.cells().saturating_sub(first).min(ROWS_AT_ONCE);
    for place in first..first + count {
        push_row_at(body, book, place)?;
    }
    Ok(())
}

/// Appends the body that puts an exclusion.
pub(crate) fn push_exclusion(body: &mut Vec<u8>, value: &Exclusion) -> Result<(), AllocError>
    ensures { OnOk result (body.new.items ≡ body.old.items ++ exclusion_text value.now) }
{
    let alloc = *body.allocator();
    let (from, to) = (value.from, value.to);
    let slo = value.slo.as_str();
    let text = format!(in alloc; "{{\"from\":{from},\"slo\":\"{slo}\",\"to\":{to}}}")?;
    body.extend_from_slice(text.as_bytes())
}
