//! The body of an exclusion.
ghost use Rattle.std.specs.Prelude.{◌≡◌, IfOk};
ghost use Rattle.serde_json.specs.View.{view};
ghost use Rattle.wire_routes.specs.Exclusions.{exclusion_in, exclusion_of, label_at, whole_at};

use exact_fraction::{Label, read_label};
use sample_book::Exclusion;
use serde_json::Value;
use std::alloc::{AllocError, Global};

/// A member that is a whole number below 2^32, written in digits alone.
fn whole_at(value: &Value, key: &str) -> Option<u32>
    ensures { result ≡ whole_at key.now (view value.now) }
{
    let n = value.get(key).and_then(Value::as_u64)?;
    if n < 4_294_967_296 {
        Some(n as u32)
    } else {
        None
    }
}

/// A member that is a text that is a label.
fn label_at(value: &Value, key: &str) -> Option<Label>
    ensures { result ≡ label_at key.now (view value.now) }
{
    let text = value.get(key).and_then(Value::as_str)?;
    read_label(text.as_bytes())
}

fn exclusion_in(id: Label, value: &Value) -> Option<Exclusion>
    ensures { result ≡ exclusion_in id (view value.now) }
{
    let members = value.as_object()?;
    if members.len() != 3 {
        return None;
    }
    let from = whole_at(value, "from")?;
    let slo = label_at(value, "slo")?;
    let to = whole_at(value, "to")?;
    Some(Exclusion { id, slo, from, to })
}

/// The exclusion of that id that a body tells; none where the body isn't of the form.
pub(crate) fn read_exclusion(
    alloc: Global,
    id: Label,
    body: &[u8],
) -> Result<Option<Exclusion>, AllocError>
    ensures { IfOk result (λ x. x ≡ exclusion_of id body.now) }
{
    match Value::from_slice(alloc, body) {
        Ok(value) => Ok(exclusion_in(id, &value)),
        Err(error) => {
            if error.is_memory() {
                Err(AllocError)
            } else {
                Ok(None)
            }
        }
    }
}
