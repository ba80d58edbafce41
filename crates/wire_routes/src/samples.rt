//! The body of samples.
ghost use Rattle.std.specs.Prelude.{◌≡◌, ◌+◌, ◌<◌, ◌≤◌, ◌^◌, [], ℕ, length, Ok, Err, IfOk, OnOk};
ghost use Rattle.csv_records.specs.Records.{csv_records};
ghost use Rattle.plain_fields.specs.Lines.{IsLineStart, six_of};
ghost use Rattle.wire_routes.specs.RowByRow.{Adds, HaveRead, rows_behind, rows_from};
ghost use Rattle.wire_routes.specs.Samples.{amount_alone, amount_of, revision_of, row_of};
ghost use Rattle.wire_routes.specs.Samples.{row_of_six, samples_of};

use crate::cuts::read_number32;
use csv_records::{Record, RecordReader};
use exact_fraction::{read_decimal, read_label};
use plain_fields::{LineOfSix, begins_as_line, read_field_number, read_six, rest_at};
use record_form::Rows;
use sample_book::Row;
use slice_method::Amount;
use slo_limits::{MAX_BATCH_ROWS, MAX_MINUTE, MAX_REVISION};
use std::alloc::{AllocError, Global};

/// The bytes of the shortest line of a row: four fields of one byte, two of none, and their ends.
const SHORTEST_LINE: usize = 10;

/// Why a body isn't read as samples.
#[derive(Clone, Copy, Drop)]
pub(crate) enum SampleFault {
    /// The record of this number, from 1, is the first that isn't of the form.
    Record(u32),
    NoMemory,
}

impl From<AllocError> for SampleFault {
    ghost use Rattle.std.specs.Prelude.{◌≡◌};
    ghost use Rattle.wire_routes.specs.declared.samples.SampleFault.TheVariants.{NoMemory};

    ghost from_gives = { λ _ e. e ≡ NoMemory };

    fn from(_error: AllocError) -> SampleFault {
        SampleFault::NoMemory
    }
}

/// An amount without a total; none at all where the row is withdrawn.
fn read_amount_alone(amount: &[u8]) -> Option<Amount>
    ensures { result ≡ amount_alone amount.now }
{
    if amount.is_empty() {
        return Some(Amount::Withdrawn);
    }
    match read_decimal(amount) {
        Ok(value) => Some(Amount::Value(value)),
        Err(_) => None,
    }
}

fn read_amount(amount: &[u8], total: &[u8]) -> Option<Amount>
    ensures { result ≡ amount_of amount.now total.now }
{
    if total.is_empty() {
        read_amount_alone(amount)
    } else {
        let part = read_number32(amount)?;
        let total = read_number32(total)?;
        Some(Amount::Counts { part, total })
    }
}

fn read_revision(text: &[u8]) -> Option<u32>
    ensures { result ≡ revision_of text.now }
{
    let revision = read_field_number(text, u64::from(MAX_REVISION))?;
    if revision == 0 {
        return None;
    }
    Some(revision as u32)
}

/// The row of six fields, where each has its form.
fn read_fields(fields: (&[u8], &[u8], &[u8], &[u8], &[u8], &[u8])) -> Option<Row>
    ensures { result ≡ row_of_six (
      fields.entry.0.now,
      fields.entry.1.now,
      fields.entry.2.now,
      fields.entry.3.now,
      fields.entry.4.now,
      fields.entry.5.now,
    ) }
{
    let sli = read_label(fields.0)?;
    let source = read_label(fields.1)?;
    let minute = read_field_number(fields.2, u64::from(MAX_MINUTE))? as u32;
    let revision = read_revision(fields.3)?;
    let amount = read_amount(fields.4, fields.5)?;
    Some(Row {
        sli,
        source,
        minute,
        revision,
        amount,
    })
}

fn read_row(fields: &Record) -> Option<Row>
    ensures { result ≡ row_of fields.now }
{
    match fields.six() {
        Some(six) => read_fields(six),
        None => None,
    }
}

/// Adds a row behind the others, where there is one; whether there is. The amount has a name, since
/// the prover finds its type, which is of a crate below that of rows, by nothing else.
fn add(rows: &mut Rows, read: Option<Row>) -> Result<bool, AllocError>
    ensures { IfOk result (λ added. Adds added read rows.old rows.new) }
{
    let Some(row) = read else {
        return Ok(false);
    };
    let amount = row.amount;
    rows.push(Row { amount, ..row })?;
    Ok(true)
}

/// Adds the row of a record; whether the record is one.
fn add_row(rows: &mut Rows, fields: &Record) -> Result<bool, AllocError>
    ensures { IfOk result (λ added. Adds added (row_of fields.now) rows.old rows.new) }
{
    add(rows, read_row(fields))
}

/// The same of a line.
fn add_line(rows: &mut Rows, line: &LineOfSix) -> Result<bool, AllocError>
    ensures { IfOk result (λ added. Adds added (row_of (six_of line.now)) rows.old rows.new) }
{
    add(rows, read_fields(line.fields))
}

/// Where the plain lines in front of a body end.
#[derive(Clone, Copy)]
struct LinesEnd {
    /// The number of the record that is next, from 1.
    number: u64,
    /// The place where it begins.
    at: usize,
}

/// Adds the rows of the plain lines in front of a body, up to a line that is none.
fn read_lines(rows: &mut Rows, body: &[u8]) -> Result<LinesEnd, SampleFault>
    requires short { length body.now < 2 ^ 32 }
    requires begun { IsLineStart body.now 0 }
    requires none { rows.old ≡ [] }
    ensures ok { IfOk result (λ end. HaveRead body.now end.number end.at rows.new) }
    ensures fault { (number : ℕ) → result ≡ Err (SampleFault.Record number)
        → samples_of body.now ≡ Err number }
{
    let mut number: u64 = 1;
    let mut at: usize = 0;
    'lines: loop {
        let Some(line) = read_six(body, at) else {
            return Ok(LinesEnd { number, at });
        };
        if !add_line(rows, &line)? {
            return Err(SampleFault::Record(number as u32));
        }
        number += 1;
        at = line.end;
    }
}

/// Adds the rows of a text's records, the first of which has this number, whatever their form.
fn read_records(alloc: Global, rows: &mut Rows, number: u64, text: &[u8]) -> Result<(), SampleFault>
    requires { number + length (csv_records text.now) ≤ 2 ^ 32 }
    ensures ok { OnOk result (rows_behind rows.old (rows_from number (csv_records text.now))
        ≡ Ok rows.new) }
    ensures fault { (at : ℕ) → result ≡ Err (SampleFault.Record at)
        → rows_behind rows.old (rows_from number (csv_records text.now)) ≡ Err at }
{
    let mut reader = RecordReader::new(alloc, text);
    let mut fields = Record::new(alloc);
    let mut next = number;
    'records: while reader.read(&mut fields)? {
        if !add_row(rows, &fields)? {
            return Err(SampleFault::Record(next as u32));
        }
        next += 1;
    }
    Ok(())
}

/// Adds the rows of the records behind the plain lines of a body, where there are more.
fn read_rest(alloc: Global, rows: &mut Rows, end: LinesEnd, body: &[u8]) -> Result<(), SampleFault>
    requires short { length body.now < 2 ^ 32 }
    requires lines { HaveRead body.now end.number end.at rows.old }
    ensures ok { OnOk result (samples_of body.now ≡ Ok rows.new) }
    ensures fault { (number : ℕ) → result ≡ Err (SampleFault.Record number)
        → samples_of body.now ≡ Err number }
{
    match rest_at(body, end.at) {
        Some(rest) => read_records(alloc, rows, end.number, rest),
        None => Ok(()),
    }
}

/// Adds the rows of a body. Plain lines are read where they stand.
fn read_body(alloc: Global, rows: &mut Rows, body: &[u8]) -> Result<(), SampleFault>
    requires short { length body.now < 2 ^ 32 }
    requires none { rows.old ≡ [] }
    ensures ok { OnOk result (samples_of body.now ≡ Ok rows.new) }
    ensures fault { (number : ℕ) → result ≡ Err (SampleFault.Record number)
        → samples_of body.now ≡ Err number }
{
    if !begins_as_line(body) {
        return read_records(alloc, rows, 1, body);
    }
    match read_lines(rows, body) {
        Ok(end) => read_rest(alloc, rows, end, body),
        Err(fault) => Err(fault),
    }
}

/// Room for as many rows as so many bytes can have, and a batch may have.
fn room_for_rows(alloc: Global, bytes: usize) -> Result<Rows, AllocError>
    ensures { IfOk result (λ rows. rows ≡ []) }
{
    let most = (bytes / SHORTEST_LINE + 1).min(MAX_BATCH_ROWS);
    Ok(Rows::from_vec(Vec::with_capacity(alloc, most)?))
}

/// The samples of a body.
pub(crate) fn read_samples(alloc: Global, body: &[u8]) -> Result<Rows, SampleFault>
    requires { length body.now < 2 ^ 32 }
    ensures ok { IfOk result (λ rows. samples_of body.now ≡ Ok rows) }
    ensures fault { (number : ℕ) → result ≡ Err (SampleFault.Record number)
        → samples_of body.now ≡ Err number }
{
    let mut rows = room_for_rows(alloc, body.len())?;
    match read_body(alloc, &mut rows, body) {
        Ok(()) => Ok(rows),
        Err(fault) => Err(fault),
    }
}
