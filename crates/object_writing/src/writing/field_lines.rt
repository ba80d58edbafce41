//! The lines of the tables, as they are written: a field that is omitted is left out.
ghost use Rattle.std.specs.Prelude.{OnOk};
ghost use Rattle.yaml_terms.specs.Spelling.{word};
ghost use Rattle.exact_fraction.specs.DecimalText.{decimal_text};
ghost use Rattle.slo_duration.specs.Writing.{duration_text};
ghost use Rattle.object_terms.specs.Form.{own, optional, required, free, free_map};
ghost use Rattle.object_terms.specs.Scalars.{text, description, name, op, boolean};
ghost use Rattle.object_writing.specs.Adding.{Adds};

use crate::writing::fields::put;
use crate::writing::scalars;
use crate::writing::words::op_word;
use exact_fraction::{Decimal, Label, Op, Text};
use object_terms::FreePart;
use slo_duration::Duration;
use std::alloc::AllocError;
use yaml_terms::{FieldKey, Spelling};

/// A fixed word.
pub(crate) fn required_word(
    fields: &mut Vec<(FieldKey, Spelling)>,
    key: &str,
    value: &str,
) -> Result<(), AllocError>
    ensures { OnOk result (Adds fields.old.items fields.new.items (own key.now (word value.now))) }
{
    let spelling = scalars::plain(*fields.allocator(), value)?;
    put(fields, key, spelling)
}

/// A text.
pub(crate) fn required_text(
    fields: &mut Vec<(FieldKey, Spelling)>,
    key: &str,
    value: &Text,
) -> Result<(), AllocError>
    ensures { OnOk result (Adds fields.old.items fields.new.items
        ((required key.now text).write value.now)) }
{
    let spelling = scalars::in_quotes(*fields.allocator(), value.as_bytes())?;
    put(fields, key, spelling)
}

/// A name.
pub(crate) fn required_name(
    fields: &mut Vec<(FieldKey, Spelling)>,
    key: &str,
    value: &Label,
) -> Result<(), AllocError>
    ensures { OnOk result (Adds fields.old.items fields.new.items
        ((required key.now name).write value.now)) }
{
    let spelling = scalars::in_quotes(*fields.allocator(), value.as_bytes())?;
    put(fields, key, spelling)
}

/// A decimal.
pub(crate) fn required_number(
    fields: &mut Vec<(FieldKey, Spelling)>,
    key: &str,
    value: Decimal,
) -> Result<(), AllocError>
    ensures { OnOk result (Adds fields.old.items fields.new.items
        (own key.now (word (decimal_text value)))) }
{
    let spelling = scalars::number(*fields.allocator(), value)?;
    put(fields, key, spelling)
}

/// A duration.
pub(crate) fn required_duration(
    fields: &mut Vec<(FieldKey, Spelling)>,
    key: &str,
    value: Duration,
) -> Result<(), AllocError>
    ensures { OnOk result (Adds fields.old.items fields.new.items
        (own key.now (word (duration_text value)))) }
{
    let spelling = scalars::duration(*fields.allocator(), value)?;
    put(fields, key, spelling)
}

/// A description, which may be omitted.
pub(crate) fn optional_description(
    fields: &mut Vec<(FieldKey, Spelling)>,
    key: &str,
    value: &Option<Text>,
) -> Result<(), AllocError>
    ensures { OnOk result (Adds fields.old.items fields.new.items
        ((optional key.now description).write value.now)) }
{
    match value {
        Some(value) => required_text(fields, key, value),
        None => Ok(()),
    }
}

/// A text, which may be omitted.
pub(crate) fn optional_text(
    fields: &mut Vec<(FieldKey, Spelling)>,
    key: &str,
    value: &Option<Text>,
) -> Result<(), AllocError>
    ensures { OnOk result (Adds fields.old.items fields.new.items
        ((optional key.now text).write value.now)) }
{
    match value {
        Some(value) => required_text(fields, key, value),
        None => Ok(()),
    }
}

/// A name, which may be omitted.
pub(crate) fn optional_name(
    fields: &mut Vec<(FieldKey, Spelling)>,
    key: &str,
    value: &Option<Label>,
) -> Result<(), AllocError>
    ensures { OnOk result (Adds fields.old.items fields.new.items
        ((optional key.now name).write value.now)) }
{
    match value {
        Some(value) => required_name(fields, key, value),
        None => Ok(()),
    }
}

/// A boolean, which may be omitted.
pub(crate) fn optional_boolean(
    fields: &mut Vec<(FieldKey, Spelling)>,
    key: &str,
    value: Option<bool>,
) -> Result<(), AllocError>
    ensures { OnOk result (Adds fields.old.items fields.new.items
        ((optional key.now boolean).write value)) }
{
    let Some(value) = value else {
        return Ok(());
    };
    let spelling = scalars::boolean(*fields.allocator(), value)?;
    put(fields, key, spelling)
}

/// A comparison, which may be omitted.
pub(crate) fn optional_op(
    fields: &mut Vec<(FieldKey, Spelling)>,
    key: &str,
    value: Option<Op>,
) -> Result<(), AllocError>
    ensures { OnOk result (Adds fields.old.items fields.new.items
        ((optional key.now op).write value)) }
{
    match value {
        Some(value) => required_word(fields, key, op_word(value)),
        None => Ok(()),
    }
}

/// A free part, which may be omitted.
pub(crate) fn optional_free(
    fields: &mut Vec<(FieldKey, Spelling)>,
    key: &str,
    value: &Option<FreePart>,
) -> Result<(), AllocError>
    ensures { OnOk result (Adds fields.old.items fields.new.items
        ((optional key.now free).write value.now)) }
{
    let Some(value) = value else {
        return Ok(());
    };
    let spelling = scalars::free(*fields.allocator(), value)?;
    put(fields, key, spelling)
}

/// A free part that is a map, which may be omitted.
pub(crate) fn optional_free_map(
    fields: &mut Vec<(FieldKey, Spelling)>,
    key: &str,
    value: &Option<FreePart>,
) -> Result<(), AllocError>
    ensures { OnOk result (Adds fields.old.items fields.new.items
        ((optional key.now free_map).write value.now)) }
{
    let Some(value) = value else {
        return Ok(());
    };
    let spelling = scalars::free(*fields.allocator(), value)?;
    put(fields, key, spelling)
}
