//! Refusals as values of JSON: a function for each set of members.
ghost use Rattle.std.specs.Prelude.{◌≡◌, IfOk, string_bytes};
ghost use Rattle.wire_replies.specs.Answers.{error_data};
ghost use Rattle.wire_replies.specs.Refusals.{amount_text, conflict_data, early_data};
ghost use Rattle.wire_replies.specs.Refusals.{exclusion_data, field_data, has_samples_data};
ghost use Rattle.wire_replies.specs.Refusals.{in_use_data, limit_data, name_data};
ghost use Rattle.wire_replies.specs.Refusals.{needs_op_data, no_window_data, object_name_data};
ghost use Rattle.wire_replies.specs.Refusals.{open_minute_data, refusal_data, row_data};
ghost use Rattle.wire_replies.specs.Refusals.{unknown_notice_data, unknown_sli_data};
ghost use Rattle.wire_replies.specs.Refusals.{unresolved_data, withdrawn_data, yaml_data};
ghost use Rattle.wire_replies.specs.Values.{IsValue};

use record_form::Refusal;
use serde_json::{Value, json};
use slice_method::Amount;
use std::alloc::{AllocError, Global};

/// An amount as it is told.
fn amount_text(alloc: Global, amount: Amount) -> Result<String, AllocError>
    ensures { IfOk result (λ text. string_bytes text ≡ amount_text amount) }
{
    match amount {
        Amount::Counts { part, total } => format!(in alloc; "{part},{total}"),
        Amount::Value(value) => format!(in alloc; "{value}"),
        Amount::Withdrawn => String::from_str(alloc, "withdrawn"),
    }
}

fn error_value(alloc: Global, error: &str) -> Result<Value, AllocError>
    ensures { IfOk result (IsValue (error_data error.now)) }
{
    json!(in alloc; {"error": error})
}

fn limit(alloc: Global, error: &str, which: &str) -> Result<Value, AllocError>
    ensures { IfOk result (IsValue (limit_data error.now which.now)) }
{
    json!(in alloc; {"error": error, "which": which})
}

fn yaml(alloc: Global, error: &str, line: u32, which: &str) -> Result<Value, AllocError>
    ensures { IfOk result (IsValue (yaml_data error.now line which.now)) }
{
    json!(in alloc; {"error": error, "line": line, "which": which})
}

fn field(
    alloc: Global,
    document: u32,
    error: &str,
    field: &str,
    rule: &str,
) -> Result<Value, AllocError>
    ensures { IfOk result (IsValue (field_data document error.now field.now rule.now)) }
{
    json!(in alloc; {"document": document, "error": error, "field": field, "rule": rule})
}

fn name(alloc: Global, error: &str, name: &str) -> Result<Value, AllocError>
    ensures { IfOk result (IsValue (name_data error.now name.now)) }
{
    json!(in alloc; {"error": error, "name": name})
}

fn object_name(alloc: Global, error: &str, kind: &str, name: &str) -> Result<Value, AllocError>
    ensures { IfOk result (IsValue (object_name_data error.now kind.now name.now)) }
{
    json!(in alloc; {"error": error, "kind": kind, "name": name})
}

fn unresolved(
    alloc: Global,
    error: &str,
    from_kind: &str,
    from_name: &str,
    kind: &str,
    name: &str,
) -> Result<Value, AllocError>
    ensures { IfOk result (IsValue
        (unresolved_data error.now from_kind.now from_name.now kind.now name.now)) }
{
    json!(in alloc; {
        "error": error,
        "from_kind": from_kind,
        "from_name": from_name,
        "kind": kind,
        "name": name
    })
}

fn needs_op(alloc: Global, error: &str, objective: u32, slo: &str) -> Result<Value, AllocError>
    ensures { IfOk result (IsValue (needs_op_data error.now objective slo.now)) }
{
    json!(in alloc; {"error": error, "objective": objective, "slo": slo})
}

fn has_samples(
    alloc: Global,
    error: &str,
    minute: u32,
    name: &str,
    source: &str,
) -> Result<Value, AllocError>
    ensures { IfOk result (IsValue (has_samples_data error.now minute name.now source.now)) }
{
    json!(in alloc; {"error": error, "minute": minute, "name": name, "source": source})
}

fn in_use(alloc: Global, by_kind: &str, by_name: &str, error: &str) -> Result<Value, AllocError>
    ensures { IfOk result (IsValue (in_use_data by_kind.now by_name.now error.now)) }
{
    json!(in alloc; {"by_kind": by_kind, "by_name": by_name, "error": error})
}

fn unknown_sli(alloc: Global, error: &str, name: &str, row: u32) -> Result<Value, AllocError>
    ensures { IfOk result (IsValue (unknown_sli_data error.now name.now row)) }
{
    json!(in alloc; {"error": error, "name": name, "row": row})
}

fn row_value(alloc: Global, error: &str, row: u32) -> Result<Value, AllocError>
    ensures { IfOk result (IsValue (row_data error.now row)) }
{
    json!(in alloc; {"error": error, "row": row})
}

fn early(
    alloc: Global,
    error: &str,
    minute: u32,
    origin: u32,
    row: u32,
) -> Result<Value, AllocError>
    ensures { IfOk result (IsValue (early_data error.now minute origin row)) }
{
    json!(in alloc; {"error": error, "minute": minute, "origin": origin, "row": row})
}

fn open_minute(
    alloc: Global,
    error: &str,
    minute: u32,
    moment: u32,
    row: u32,
) -> Result<Value, AllocError>
    ensures { IfOk result (IsValue (open_minute_data error.now minute moment row)) }
{
    json!(in alloc; {"error": error, "minute": minute, "moment": moment, "row": row})
}

fn conflict(
    alloc: Global,
    amount: Amount,
    error: &str,
    revision: u32,
    row: u32,
) -> Result<Value, AllocError>
    ensures { IfOk result (IsValue (conflict_data (amount_text amount) error.now revision row)) }
{
    let amount = amount_text(alloc, amount)?;
    json!(in alloc; {"amount": amount.as_str(), "error": error, "revision": revision, "row": row})
}

fn withdrawn(alloc: Global, error: &str, id: &str) -> Result<Value, AllocError>
    ensures { IfOk result (IsValue (withdrawn_data error.now id.now)) }
{
    json!(in alloc; {"error": error, "id": id})
}

fn exclusion(alloc: Global, error: &str, from: u32, slo: &str, to: u32) -> Result<Value, AllocError>
    ensures { IfOk result (IsValue (exclusion_data error.now from slo.now to)) }
{
    json!(in alloc; {"error": error, "from": from, "slo": slo, "to": to})
}

fn unknown_notice(alloc: Global, error: &str, made: u32, number: u32) -> Result<Value, AllocError>
    ensures { IfOk result (IsValue (unknown_notice_data error.now made number)) }
{
    json!(in alloc; {"error": error, "made": made, "number": number})
}

fn no_window(alloc: Global, at: u32, error: &str) -> Result<Value, AllocError>
    ensures { IfOk result (IsValue (no_window_data at error.now)) }
{
    json!(in alloc; {"at": at, "error": error})
}

/// The body of a refusal.
pub(crate) fn refusal_value(alloc: Global, refusal: &Refusal) -> Result<Value, AllocError>
    ensures { IfOk result (IsValue (refusal_data refusal.now)) }
{
    let error = refusal.word();
    match refusal {
        Refusal::Limit { which } => limit(alloc, error, which.word()),
        Refusal::Yaml { line, which } => yaml(alloc, error, *line, which.word()),
        Refusal::Object {
            document,
            field: key,
            rule,
        } => field(alloc, *document, error, key.as_str(), rule.word()),
        Refusal::ReservedPolicy { name: policy } => name(alloc, error, policy.as_str()),
        Refusal::ReservedZone { name: zone } => name(alloc, error, zone.as_str()),
        Refusal::Duplicate { kind, name } => object_name(alloc, error, kind.word(), name.as_str()),
        Refusal::Unresolved {
            from_kind,
            from_name,
            kind,
            name,
        } => unresolved(
            alloc,
            error,
            from_kind.word(),
            from_name.as_str(),
            kind.word(),
            name.as_str(),
        ),
        Refusal::NoSuchSlo { kind, name } => object_name(alloc, error, kind.word(), name.as_str()),
        Refusal::NeedsOp { objective, slo } => needs_op(alloc, error, *objective, slo.as_str()),
        Refusal::UnknownZone { name: zone } => name(alloc, error, zone.as_str()),
        Refusal::HasSamples {
            minute,
            name,
            source,
        } => has_samples(alloc, error, *minute, name.as_str(), source.as_str()),
        Refusal::NotFound => error_value(alloc, error),
        Refusal::InUse { by_kind, by_name } => in_use(
            alloc,
            by_kind.word(),
            by_name.as_str(),
            error,
        ),
        Refusal::ZoneDiffers { name: zone } => name(alloc, error, zone.as_str()),
        Refusal::BadZone { name: zone } => name(alloc, error, zone.as_str()),
        Refusal::UnknownSli { name, row } => unknown_sli(alloc, error, name.as_str(), *row),
        Refusal::Version { row } => row_value(alloc, error, *row),
        Refusal::WrongKind { row } => row_value(alloc, error, *row),
        Refusal::Counts { row } => row_value(alloc, error, *row),
        Refusal::Early {
            minute,
            origin,
            row,
        } => early(alloc, error, *minute, *origin, *row),
        Refusal::OpenMinute {
            minute,
            moment,
            row,
        } => open_minute(alloc, error, *minute, *moment, *row),
        Refusal::RowConflict {
            amount,
            revision,
            row,
        } => conflict(alloc, *amount, error, *revision, *row),
        Refusal::Withdrawn { id } => withdrawn(alloc, error, id.as_str()),
        Refusal::ExclusionConflict { from, slo, to } => exclusion(
            alloc,
            error,
            *from,
            slo.as_str(),
            *to,
        ),
        Refusal::Range => error_value(alloc, error),
        Refusal::UnknownNotice { made, number } => unknown_notice(alloc, error, *made, *number),
        Refusal::NoWindow { at } => no_window(alloc, *at, error),
    }
}
