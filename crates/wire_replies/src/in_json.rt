//! Items of lists, and lists, as values of JSON.
ghost use Rattle.std.specs.Prelude.{◌≡◌, IfOk};
ghost use Rattle.wire_replies.specs.Bodies.{list_of};
ghost use Rattle.wire_replies.specs.Values.{IsValue};

use serde_json::Value;
use std::alloc::{AllocError, Global};

/// What stands in a list of an answer.
pub(crate) trait InJson {
    ghost use Rattle.serde_json.specs.Data.{Data};

    /// What is said of it.
    ghost content: { Self → Data };

    fn value(&self, alloc: Global) -> Result<Value, AllocError>
        ensures { IfOk result (IsValue (content self.now)) };
}

/// What is said of each.
pub(crate) fn list_value<T: InJson>(alloc: Global, items: &[T]) -> Result<Value, AllocError>
    ensures { IfOk result (IsValue (list_of T.content items.now)) }
{
    let mut values = Vec::new(alloc);
    for item in items {
        values.push(item.value(alloc)?)?;
    }
    Ok(Value::Array(values))
}
