//! Writing records.
ghost use Rattle.std.specs.Prelude.{ℕ, ◌<◌, ◌≤◌, length, IfOk, IsTrue, OnOk};
ghost use Rattle.std.specs.Int.{w32};
ghost use Rattle.exact_fraction.specs.Label.{is_label};
ghost use Rattle.exact_fraction.specs.ZoneName.{is_zone_name};
ghost use Rattle.record_form.specs.Form.{byte, number, text};
ghost use Rattle.record_form.specs.Records.{amount, command as command_form, exclusion};
ghost use Rattle.record_form.specs.Records.{label as label_form, row as row_form};
ghost use Rattle.record_form.specs.Records.{rows as rows_form, text_within, zone_name};
ghost use Rattle.record_form.specs.Ranges.{Fits, FitsAmount, FitsExclusion, FitsRow, FitsRows};
ghost use Rattle.record_form.specs.Ranges.{IsEntryInRange, IsExclusionInRange, IsInRange, IsRecord};
ghost use Rattle.record_form.specs.Ranges.{IsRowInRange, AreRowsInRange};
ghost use Rattle.record_form.specs.Writing.{Writes};

use crate::command::Command;
use crate::entry::Entry;
use crate::fields::kind_byte;
use exact_fraction::{Bytes, Label, ZoneName};
use sample_book::{Exclusion, Row};
use slice_method::Amount;
use slo_limits::{MAX_BATCH_ROWS, MAX_TEXT_BYTES, MAX_ZONE_BYTES};
use std::alloc::{AllocError, Global};

fn put_number(out: &mut Vec<u8>, n: u32) -> Result<(), AllocError>
    ensures { OnOk result (Writes (number w32) n out.old.items out.new.items) }
{
    out.extend_from_slice(&n.to_be_bytes())
}

/// A byte of length, and the text.
fn put_short(out: &mut Vec<u8>, bytes: &[u8]) -> Result<(), AllocError>
    requires { length bytes.now < 256 }
    ensures { OnOk result (Writes (text byte) bytes.now out.old.items out.new.items) }
{
    out.push(bytes.len() as u8)?;
    out.extend_from_slice(bytes)
}

#[tactic(auto, unfolding(crate::specs::Records::label))]
fn put_label(out: &mut Vec<u8>, label: Label) -> Result<(), AllocError>
    ensures bytes { OnOk result (Writes label_form label out.old.items out.new.items) }
    ensures fits { OnOk result (IsTrue (is_label label)) }
{
    put_short(out, label.as_bytes())
}

#[tactic(auto, unfolding(crate::specs::Records::zone_name))]
fn put_zone_name(out: &mut Vec<u8>, name: ZoneName) -> Result<(), AllocError>
    ensures bytes { OnOk result (Writes zone_name name out.old.items out.new.items) }
    ensures fits { OnOk result (IsTrue (is_zone_name name)) }
{
    put_short(out, name.as_bytes())
}

#[tactic(auto, unfolding(crate::specs::Records::text_within, crate::specs::Records::number_within))]
fn put_text(out: &mut Vec<u8>, text: &[u8]) -> Result<(), AllocError>
    requires { length text.now ≤ MAX_TEXT_BYTES }
    ensures { OnOk result ((most : ℕ) → Writes (text_within most) text.now out.old.items
        out.new.items) }
{
    put_number(out, text.len() as u32)?;
    out.extend_from_slice(text)
}

#[tactic(auto, unfolding(crate::specs::Records::amount))]
fn put_amount(out: &mut Vec<u8>, value: Amount) -> Result<(), AllocError>
    ensures bytes { OnOk result (Writes amount value out.old.items out.new.items) }
    ensures fits { OnOk result (FitsAmount value) }
{
    match value {
        Amount::Counts { part, total } => {
            out.push(0)?;
            put_number(out, part)?;
            put_number(out, total)
        }
        Amount::Value(value) => {
            out.push(1)?;
            out.extend_from_slice(&value.billionths().to_be_bytes())
        }
        Amount::Withdrawn => {
            out.push(2)?;
            Ok(())
        }
    }
}

#[tactic(auto, unfolding(crate::specs::Records::row, crate::specs::Records::label, crate::specs::Records::amount, crate::specs::Records::number_within))]
fn put_row(out: &mut Vec<u8>, row: &Row) -> Result<(), AllocError>
    requires { IsRowInRange row.now }
    ensures bytes { OnOk result (Writes row_form row.now out.old.items out.new.items) }
    ensures fits { OnOk result (FitsRow row.now) }
{
    put_label(out, row.sli)?;
    put_label(out, row.source)?;
    put_number(out, row.minute)?;
    put_number(out, row.revision)?;
    put_amount(out, row.amount)
}

#[tactic(auto, unfolding(crate::specs::Records::rows))]
fn put_rows(out: &mut Vec<u8>, rows: &[Row]) -> Result<(), AllocError>
    requires { AreRowsInRange rows.now }
    ensures bytes { OnOk result (Writes rows_form rows.now out.old.items out.new.items) }
    ensures fits { OnOk result (FitsRows rows.now) }
{
    out.extend_from_slice(&(rows.len() as u16).to_be_bytes())?;
    for row in rows {
        put_row(out, row)?;
    }
    Ok(())
}

#[tactic(auto, unfolding(crate::specs::Records::exclusion, crate::specs::Records::label, crate::specs::Records::number_within))]
fn put_exclusion(out: &mut Vec<u8>, value: &Exclusion) -> Result<(), AllocError>
    requires { IsExclusionInRange value.now }
    ensures bytes { OnOk result (Writes exclusion value.now out.old.items out.new.items) }
    ensures fits { OnOk result (FitsExclusion value.now) }
{
    put_label(out, value.id)?;
    put_label(out, value.slo)?;
    put_number(out, value.from)?;
    put_number(out, value.to)
}

/// The kind byte, and the fields.
#[tactic(auto, unfolding(crate::specs::Records::command, crate::specs::Records::kind, crate::specs::Records::zone_name))]
fn put_command(out: &mut Vec<u8>, command: &Command) -> Result<(), AllocError>
    requires { IsInRange command.now }
    ensures bytes { OnOk result (Writes command_form command.now out.old.items out.new.items) }
    ensures fits { OnOk result (Fits command.now) }
{
    match command {
        Command::Define(documents) => {
            out.push(1)?;
            put_text(out, documents.as_bytes())
        }
        Command::Remove(kind, name) => {
            out.push(2)?;
            out.push(kind_byte(*kind))?;
            put_label(out, *name)
        }
        Command::PutZone(name, bytes) => {
            out.push(3)?;
            put_zone_name(out, *name)?;
            put_text(out, bytes.as_bytes())
        }
        Command::Samples(rows) => {
            out.push(4)?;
            put_rows(out, rows.as_slice())
        }
        Command::Exclude(value) => {
            out.push(5)?;
            put_exclusion(out, value)
        }
        Command::Lift(id) => {
            out.push(6)?;
            put_label(out, *id)
        }
        Command::Tick => {
            out.push(7)?;
            Ok(())
        }
        Command::Take(number) => {
            out.push(8)?;
            put_number(out, *number)
        }
        Command::Upgrade => {
            out.push(9)?;
            Ok(())
        }
    }
}

/// The record of a command's entry at a moment, in minutes since 1970-01-01T00:00Z.
#[tactic(auto, unfolding(crate::specs::Records::entry, crate::specs::Records::number_within))]
pub fn write_command(alloc: Global, moment: u32, command: &Command) -> Result<Bytes, AllocError>
    requires { IsEntryInRange (record { moment = moment; command = command.now }) }
    ensures { IfOk result (λ bytes. IsRecord bytes
        (record { moment = moment; command = command.now })) }
{
    let mut out = Vec::new(alloc);
    put_number(&mut out, moment)?;
    put_command(&mut out, command)?;
    Ok(Bytes::from_vec(out))
}

/// The record of an entry.
pub fn write_record(alloc: Global, entry: &Entry) -> Result<Bytes, AllocError>
    requires { IsEntryInRange entry.now }
    ensures { IfOk result (λ bytes. IsRecord bytes entry.now) }
{
    write_command(alloc, entry.moment, &entry.command)
}
