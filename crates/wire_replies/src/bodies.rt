//! Outcomes of status 200 as values of JSON.
ghost use Rattle.std.specs.Prelude.{◌≡◌, IfOk};
ghost use Rattle.serde_json.specs.Data.{string};
ghost use Rattle.serde_json.specs.View.{view};
ghost use Rattle.wire_replies.specs.Bodies.{amount_data, budget_data, budgets_data, burn_data};
ghost use Rattle.wire_replies.specs.Bodies.{entry_data, sum_data, sums_data};
ghost use Rattle.wire_replies.specs.Bodies.{exclusions_data, found_row_data, fraction_data};
ghost use Rattle.wire_replies.specs.Bodies.{interval_data, kept_exclusion_data, notice_data};
ghost use Rattle.wire_replies.specs.Bodies.{notices_data, object_data, objects_data, sample_data};
ghost use Rattle.wire_replies.specs.Bodies.{timeline_data, window_data, windows_data, zones_data};
ghost use Rattle.wire_replies.specs.Values.{IsValue};

use crate::in_json::{InJson, list_value};
use burn_core::State;
use exact_fraction::{Fraction, Label, Leaf, ZoneName};
use notice_box::Notice;
use object_terms::Kind;
use record_form::{BudgetRow, WindowRow};
use sample_book::{Exclusion, Row};
use serde_json::{Value, json};
use slice_method::Amount;
use std::alloc::{AllocError, Global};

fn fraction_value(alloc: Global, fraction: Option<Fraction>) -> Result<Value, AllocError>
    ensures { IfOk result (IsValue (fraction_data fraction)) }
{
    match fraction {
        Some(fraction) => Ok(Value::String(format!(in alloc; "{fraction}")?)),
        None => Ok(Value::Null),
    }
}

impl InJson for (Kind, Label) {
    ghost content = { object_data };

    fn value(&self, alloc: Global) -> Result<Value, AllocError> {
        json!(in alloc; {"kind": self.0.word(), "name": self.1.as_str()})
    }
}

impl InJson for BudgetRow {
    ghost content = { budget_data };

    fn value(&self, alloc: Global) -> Result<Value, AllocError> {
        let burn = fraction_value(alloc, self.burn)?;
        let error = fraction_value(alloc, self.error)?;
        let remaining = fraction_value(alloc, self.remaining)?;
        json!(in alloc; {
            "burn": burn,
            "den": self.den,
            "error": error,
            "from": self.from,
            "num": self.num,
            "objective": self.objective,
            "remaining": remaining
        })
    }
}

impl InJson for (u32, u32) {
    ghost content = { interval_data };

    fn value(&self, alloc: Global) -> Result<Value, AllocError> {
        json!(in alloc; [self.0, self.1])
    }
}

impl InJson for Notice {
    ghost content = { notice_data };

    fn value(&self, alloc: Global) -> Result<Value, AllocError> {
        json!(in alloc; {
            "at": self.at,
            "number": self.number,
            "objective": self.objective,
            "policy": self.policy.as_str(),
            "slo": self.slo.as_str(),
            "state": self.state.word()
        })
    }
}

pub(crate) fn objects(
    alloc: Global,
    entries: u32,
    objects: &[(Kind, Label)],
) -> Result<Value, AllocError>
    ensures { IfOk result (IsValue (objects_data entries objects.now)) }
{
    let objects = list_value(alloc, objects)?;
    json!(in alloc; {"entries": entries, "objects": objects})
}

pub(crate) fn budgets(
    alloc: Global,
    at: u32,
    budgets: &[BudgetRow],
    entries: u32,
) -> Result<Value, AllocError>
    ensures { IfOk result (IsValue (budgets_data at budgets.now entries)) }
{
    let budgets = list_value(alloc, budgets)?;
    json!(in alloc; {"at": at, "budgets": budgets, "entries": entries})
}

pub(crate) fn burn(
    alloc: Global,
    at: u32,
    burn: Option<Fraction>,
    den: u64,
    entries: u32,
    num: u64,
) -> Result<Value, AllocError>
    ensures { IfOk result (IsValue (burn_data at burn den entries num)) }
{
    let burn = fraction_value(alloc, burn)?;
    json!(in alloc; {"at": at, "burn": burn, "den": den, "entries": entries, "num": num})
}

pub(crate) fn timeline(
    alloc: Global,
    entries: u32,
    intervals: &[(u32, u32)],
    state: State,
) -> Result<Value, AllocError>
    ensures { IfOk result (IsValue (timeline_data entries intervals.now state)) }
{
    let intervals = list_value(alloc, intervals)?;
    json!(in alloc; {"entries": entries, "intervals": intervals, "state": state.word()})
}

pub(crate) fn notices(alloc: Global, entries: u32, notices: &[Notice]) -> Result<Value, AllocError>
    ensures { IfOk result (IsValue (notices_data entries notices.now)) }
{
    let notices = list_value(alloc, notices)?;
    json!(in alloc; {"entries": entries, "notices": notices})
}

/// What an amount and its revision say.
fn amount_value(alloc: Global, revision: u32, amount: Amount) -> Result<Value, AllocError>
    ensures { IfOk result (IsValue (amount_data revision amount)) }
{
    match amount {
        Amount::Counts { part, total } => {
            json!(in alloc; {"amount": part, "revision": revision, "total": total})
        }
        Amount::Value(value) => {
            let text = format!(in alloc; "{value}")?;
            json!(in alloc; {"amount": text.as_str(), "revision": revision, "total": null})
        }
        Amount::Withdrawn => {
            json!(in alloc; {"amount": null, "revision": revision, "total": null})
        }
    }
}

fn sample_value(alloc: Global, row: Option<Row>) -> Result<Value, AllocError>
    ensures { IfOk result (IsValue (sample_data row)) }
{
    match row {
        Some(row) => amount_value(alloc, row.revision, row.amount),
        None => Ok(Value::Null),
    }
}

pub(crate) fn row(alloc: Global, entries: u32, row: Option<Row>) -> Result<Value, AllocError>
    ensures { IfOk result (IsValue (found_row_data entries row)) }
{
    let row = sample_value(alloc, row)?;
    json!(in alloc; {"entries": entries, "row": row})
}

impl InJson for (Exclusion, bool) {
    ghost content = { kept_exclusion_data };

    fn value(&self, alloc: Global) -> Result<Value, AllocError> {
        json!(in alloc; {
            "from": self.0.from,
            "id": self.0.id.as_str(),
            "live": self.1,
            "slo": self.0.slo.as_str(),
            "to": self.0.to
        })
    }
}

pub(crate) fn exclusions(
    alloc: Global,
    entries: u32,
    exclusions: &[(Exclusion, bool)],
) -> Result<Value, AllocError>
    ensures { IfOk result (IsValue (exclusions_data entries exclusions.now)) }
{
    let exclusions = list_value(alloc, exclusions)?;
    json!(in alloc; {"entries": entries, "exclusions": exclusions})
}

impl InJson for ZoneName {
    ghost content = { string };

    fn value(&self, alloc: Global) -> Result<Value, AllocError> {
        Ok(Value::String(String::from_str(alloc, self.as_str())?))
    }
}

pub(crate) fn zones(alloc: Global, entries: u32, zones: &[ZoneName]) -> Result<Value, AllocError>
    ensures { IfOk result (IsValue (zones_data entries zones.now)) }
{
    let zones = list_value(alloc, zones)?;
    json!(in alloc; {"entries": entries, "zones": zones})
}

pub(crate) fn minute_value(minute: Option<u32>) -> Value
    ensures { IsValue (entry_data minute) result }
{
    match minute {
        Some(minute) => Value::from(minute),
        None => Value::Null,
    }
}

impl InJson for Leaf {
    ghost content = { sum_data };

    fn value(&self, alloc: Global) -> Result<Value, AllocError> {
        json!(in alloc; [self.num, self.den])
    }
}

pub(crate) fn sums(alloc: Global, at: u32, entries: u32, sums: &[Leaf]) -> Result<Value, AllocError>
    ensures { IfOk result (IsValue (sums_data at entries sums.now)) }
{
    let sums = list_value(alloc, sums)?;
    json!(in alloc; {"at": at, "entries": entries, "sums": sums})
}

impl InJson for WindowRow {
    ghost content = { window_data };

    fn value(&self, alloc: Global) -> Result<Value, AllocError> {
        let budgets = list_value(alloc, self.budgets.as_slice())?;
        json!(in alloc; {"budgets": budgets, "from": self.from, "to": minute_value(self.to)})
    }
}

pub(crate) fn windows(
    alloc: Global,
    at: u32,
    entries: u32,
    windows: &[WindowRow],
) -> Result<Value, AllocError>
    ensures { IfOk result (IsValue (windows_data at entries windows.now)) }
{
    let windows = list_value(alloc, windows)?;
    json!(in alloc; {"at": at, "entries": entries, "windows": windows})
}
