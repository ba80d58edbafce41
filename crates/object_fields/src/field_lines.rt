//! The lines of the tables: each kind of line once, over the forms of its values.
ghost use Rattle.std.specs.Prelude.{map};
ghost use Rattle.yaml_terms.specs.NodeView.{node_view};
ghost use Rattle.object_terms.specs.Form.{required as required_line, optional as optional_line};
ghost use Rattle.object_terms.specs.Form.{required_where as required_where_line};
ghost use Rattle.object_terms.specs.Form.{optional_alone as optional_alone_line};
ghost use Rattle.object_terms.specs.Form.{required_unless as required_unless_line, either_field};
ghost use Rattle.object_terms.specs.Form.{field_of, mapped};
ghost use Rattle.object_fields.specs.Reading.{Reads, entries_view};

use crate::fields::{fail_at, field, has_one_of};
use crate::forms::ReadForm;
use object_terms::{Objects, ReadError, Rule};
use yaml_terms::{Node, ScalarText};

/// A field that must stand.
pub fn required<F: ReadForm>(
    found: &mut Objects,
    fields: &[(ScalarText, Node)],
    key: &str,
    how: &F,
) -> Result<F::Value, ReadError>
    ensures { Reads found.old found.new result
        ((required_line key.now (F.form how.now)).read (entries_view fields.now)) }
{
    match field(fields, key) {
        Some(node) => how.read(found, key, node),
        None => fail_at(found, key, Rule::Missing),
    }
}

/// The value of a field that stands, as one that may be omitted.
fn read_some<F: ReadForm>(
    found: &mut Objects,
    key: &str,
    node: &Node,
    how: &F,
) -> Result<Option<F::Value>, ReadError>
    ensures { Reads found.old found.new result
        (mapped Some ((F.form how.now).read key.now (node_view node.now))) }
{
    match how.read(found, key, node) {
        Ok(value) => Ok(Some(value)),
        Err(error) => Err(error),
    }
}

/// A field that may be omitted.
pub fn optional<F: ReadForm>(
    found: &mut Objects,
    fields: &[(ScalarText, Node)],
    key: &str,
    how: &F,
) -> Result<Option<F::Value>, ReadError>
    ensures { Reads found.old found.new result
        ((optional_line key.now (F.form how.now)).read (entries_view fields.now)) }
{
    match field(fields, key) {
        Some(node) => read_some(found, key, node, how),
        None => Ok(None),
    }
}

/// A field that must stand where it is needed.
pub fn required_where<F: ReadForm>(
    found: &mut Objects,
    fields: &[(ScalarText, Node)],
    needed: bool,
    key: &str,
    how: &F,
) -> Result<Option<F::Value>, ReadError>
    ensures { Reads found.old found.new result
        ((required_where_line needed key.now (F.form how.now)).read (entries_view fields.now)) }
{
    match (field(fields, key), needed) {
        (Some(node), _) => read_some(found, key, node, how),
        (None, false) => Ok(None),
        (None, true) => fail_at(found, key, Rule::Missing),
    }
}

/// A field that must stand unless it is barred, where it may not.
pub fn required_unless<F: ReadForm>(
    found: &mut Objects,
    fields: &[(ScalarText, Node)],
    barred: bool,
    key: &str,
    how: &F,
) -> Result<Option<F::Value>, ReadError>
    ensures { Reads found.old found.new result
        ((required_unless_line barred key.now (F.form how.now)).read (entries_view fields.now)) }
{
    match (field(fields, key), barred) {
        (None, true) => Ok(None),
        (None, false) => fail_at(found, key, Rule::Missing),
        (Some(_), true) => fail_at(found, key, Rule::Both),
        (Some(node), false) => read_some(found, key, node, how),
    }
}

/// A field that may be omitted, and beside which none of the others may stand.
pub fn optional_alone<F: ReadForm>(
    found: &mut Objects,
    fields: &[(ScalarText, Node)],
    key: &str,
    others: &[&str],
    how: &F,
) -> Result<Option<F::Value>, ReadError>
    ensures { Reads found.old found.new result ((optional_alone_line key.now
        (map (λ k. k.now) others.now) (F.form how.now)).read (entries_view fields.now)) }
{
    let Some(node) = field(fields, key) else {
        return Ok(None);
    };
    if has_one_of(fields, others) {
        return fail_at(found, key, Rule::Both);
    }
    read_some(found, key, node, how)
}

/// Exactly one of two fields, whose fault has the first one's name.
pub fn one_of<F: ReadForm, G: ReadForm<Value = F::Value>>(
    found: &mut Objects,
    fields: &[(ScalarText, Node)],
    key: &str,
    how: &F,
    other: &str,
    how_other: &G,
) -> Result<F::Value, ReadError>
    ensures { Reads found.old found.new result (either_field (F.form how.now) key.now
        (G.form how_other.now) other.now (field_of key.now (entries_view fields.now))
        (field_of other.now (entries_view fields.now))) }
{
    match (field(fields, key), field(fields, other)) {
        (Some(node), None) => how.read(found, key, node),
        (None, Some(node)) => how_other.read(found, other, node),
        (None, None) => fail_at(found, key, Rule::Neither),
        (Some(_), Some(_)) => fail_at(found, key, Rule::Both),
    }
}
