//! How full an office is, as a value of JSON.
ghost use Rattle.std.specs.Prelude.{◌≡◌, IfOk, OnOk};
ghost use Rattle.serde_json.specs.Data.{put as with_member};
ghost use Rattle.serde_json.specs.View.{members_view};
ghost use Rattle.wire_replies.specs.Answers.{whole};
ghost use Rattle.wire_replies.specs.Bodies.{entry_data, status_data, used_data};
ghost use Rattle.wire_replies.specs.Values.{IsValue};

use crate::bodies::minute_value;
use record_form::{OfficeStatus, Used};
use serde_json::{Map, Value, json, put};
use std::alloc::{AllocError, Global};

/// Puts a count, and what it may be at most.
fn put_used(
    map: &mut Map<String, Value>,
    alloc: Global,
    key: &str,
    used: Used,
) -> Result<(), AllocError>
    ensures { OnOk result (members_view map.new.entries
        ≡ with_member key.now (used_data used) (members_view map.old.entries)) }
{
    let value = json!(in alloc; [used.count, used.limit])?;
    put(map, alloc, key, value)
}

fn put_number(
    map: &mut Map<String, Value>,
    alloc: Global,
    key: &str,
    number: u32,
) -> Result<(), AllocError>
    ensures { OnOk result (members_view map.new.entries
        ≡ with_member key.now (whole number) (members_view map.old.entries)) }
{
    put(map, alloc, key, Value::from(number))
}

/// Puts a minute, or null where there is none.
fn put_minute(
    map: &mut Map<String, Value>,
    alloc: Global,
    key: &str,
    minute: Option<u32>,
) -> Result<(), AllocError>
    ensures { OnOk result (members_view map.new.entries
        ≡ with_member key.now (entry_data minute) (members_view map.old.entries)) }
{
    put(map, alloc, key, minute_value(minute))
}

pub(crate) fn status(alloc: Global, status: &OfficeStatus) -> Result<Value, AllocError>
    ensures { IfOk result (IsValue (status_data status.now)) }
{
    let mut map = Map::new(alloc);
    put_used(&mut map, alloc, "accepted", status.accepted)?;
    put_number(&mut map, alloc, "at", status.at)?;
    put_used(&mut map, alloc, "bindings", status.bindings)?;
    put_used(&mut map, alloc, "bytes", status.bytes)?;
    put_used(&mut map, alloc, "cells", status.cells)?;
    put_used(&mut map, alloc, "days", status.days)?;
    put_number(&mut map, alloc, "entries", status.entries)?;
    put_used(&mut map, alloc, "exclusions", status.exclusions)?;
    put_minute(&mut map, alloc, "last", status.last)?;
    put_used(&mut map, alloc, "notices", status.notices)?;
    put_used(&mut map, alloc, "objects", status.objects)?;
    put_number(&mut map, alloc, "origin", status.origin)?;
    put_used(&mut map, alloc, "slis", status.slis)?;
    put_used(&mut map, alloc, "slos", status.slos)?;
    put_number(&mut map, alloc, "version", status.version as u32)?;
    put_used(&mut map, alloc, "zones", status.zones)?;
    Ok(Value::Object(map))
}
