//! The fields of a map.
ghost use Rattle.std.specs.Prelude.{◌≡◌, ◌&&◌, ◌||◌, not, option_map, map};
ghost use Rattle.std.specs.Str.{bytes_eq};
ghost use Rattle.yaml_terms.specs.NodeView.{node_view};
ghost use Rattle.object_terms.specs.Form.{and_then, closed, field_of, refused};
ghost use Rattle.object_terms.specs.Form.{is_among as is_among_def, is_null as is_null_def, gives};
ghost use Rattle.object_terms.specs.Form.{shown, utf8_in, has_one_of as has_one_of_def};
ghost use Rattle.object_fields.specs.Reading.{Gives, Reads, alone, entries_view};

use crate::shape::is_null;
use exact_fraction::Text;
use object_terms::{ObjectFault, Objects, ReadError, Rule};
use std::str;
use yaml_terms::{Node, ScalarText};

/// Fails at a key: the one way in which a reader finds a fault.
pub fn fail_at<T>(found: &Objects, key: &str, rule: Rule) -> Result<T, ReadError>
    ensures { Reads found.now found.now result (refused key.now rule) }
{
    let field = Text::from_string(String::from_str(found.allocator(), key)?);
    Err(ReadError::Fault(ObjectFault { field, rule }))
}

/// Whether a key is one of these.
pub(crate) fn is_among(known: &[&str], key: &[u8]) -> bool
    ensures { result ≡ is_among_def (map (λ k. k.now) known.now) key.now }
{
    for name in known {
        if name.as_bytes() == key {
            return true;
        }
    }
    false
}

/// Whether it is the field of that key, and not omitted.
fn is_field(name: &ScalarText, value: &Node, key: &str) -> bool
    ensures { result ≡ (bytes_eq name.now key.now && not (is_null_def (node_view value.now))) }
{
    name.as_bytes() == key.as_bytes() && !is_null(value)
}

/// The value of the field of that key. A field whose value is null is as omitted.
pub(crate) fn field<'a>(fields: &'a [(ScalarText, Node)], key: &str) -> Option<&'a Node>
    ensures { option_map (λ n. node_view n.now) result
        ≡ field_of key.now (entries_view fields.now) }
{
    for (name, value) in fields {
        if is_field(name, value, key) {
            return Some(value);
        }
    }
    None
}

/// Whether one of these fields stands.
pub(crate) fn has_one_of(fields: &[(ScalarText, Node)], keys: &[&str]) -> bool
    ensures { result ≡ has_one_of_def (map (λ k. k.now) keys.now) (entries_view fields.now) }
{
    for key in keys {
        if field(fields, key).is_some() {
            return true;
        }
    }
    false
}

/// Whether the field is known, or as omitted.
fn may_stand(name: &ScalarText, value: &Node, known: &[&str]) -> bool
    ensures { result ≡ (is_among_def (map (λ k. k.now) known.now) name.now
        || is_null_def (node_view value.now)) }
{
    is_among(known, name.as_bytes()) || is_null(value)
}

/// The bytes as a text, if they are UTF-8.
pub(crate) fn utf8_text(bytes: &[u8]) -> Option<&str>
    ensures { option_map (λ text. text.now) result ≡ utf8_in bytes.now }
{
    match str::from_utf8(bytes) {
        Ok(text) => Some(text),
        Err(_) => None,
    }
}

/// Fails at a field that no map has.
#[tactic(auto, unfolding(object_terms::specs::Form::shown))]
fn fail_at_unknown<T>(found: &Objects, name: &[u8]) -> Result<T, ReadError>
    ensures { Reads found.now found.now result (refused (shown name.now) Rule.UnknownField) }
{
    match utf8_text(name) {
        Some(name) => fail_at(found, name, Rule::UnknownField),
        None => fail_at(found, "", Rule::UnknownField),
    }
}

/// Refuses a map with a field beside the known ones.
fn close(found: &Objects, fields: &[(ScalarText, Node)], known: &[&str]) -> Result<(), ReadError>
    ensures { Gives alone result (closed (map (λ k. k.now) known.now) (entries_view fields.now)) }
{
    for (name, value) in fields {
        if !may_stand(name, value, known) {
            return fail_at_unknown(found, name.as_bytes());
        }
    }
    Ok(())
}

/// Closes a map behind the value that was read of it.
pub fn close_with<T: Drop>(
    found: &Objects,
    fields: &[(ScalarText, Node)],
    known: &[&str],
    value: T,
) -> Result<T, ReadError>
    ensures { Reads found.now found.now result (and_then (closed (map (λ k. k.now) known.now)
        (entries_view fields.now)) (λ _. gives value)) }
{
    match close(found, fields, known) {
        Ok(()) => Ok(value),
        Err(error) => Err(error),
    }
}
