//! Forms: how values are read of nodes.
ghost use Rattle.std.specs.Prelude.{◌≡◌, IfOk, List, ℕ, Result};
ghost use Rattle.yaml_terms.specs.Spelling.{Spelling};
ghost use Rattle.yaml_terms.specs.NodeView.{node_view};
ghost use Rattle.object_terms.specs.Form.{Form, scalar_form, scalar_read, free, free_map};
ghost use Rattle.object_fields.specs.Reading.{Reads};
ghost use Rattle.object_terms.specs.declared.fault.Rule.{Rule};

use crate::fields::fail_at;
use crate::shape::{map_entries, scalar_text};
use object_terms::{FreePart, Objects, ReadError, Rule};
use std::alloc::{AllocError, Global};
use yaml_terms::Node;
use yaml_writing::copy_node;

/// How a value is read: its form.
pub trait ReadForm {
    type Value;

    ghost form: { Self → Form Self.Value };

    /// Reads a node, whose key a fault names. Objects that stand inline are added to those that
    /// were found before.
    fn read(&self, found: &mut Objects, key: &str, node: &Node) -> Result<Self::Value, ReadError>
        ensures { Reads found.old found.new result
            ((form self.now).read key.now (node_view node.now)) };
}

/// How a value is read of a scalar's text.
pub trait ReadText {
    type Value;

    ghost other: { Self → Rule };

    ghost value: { Self → List ℕ → Result Self.Value Rule };

    ghost spelled: { Self → Self.Value → Spelling };

    /// The rule that a node breaks which is no scalar.
    fn rule(&self) -> Rule
        ensures { result ≡ other self.now };

    /// The value that a text stands for, or the rule that it breaks.
    fn parse(&self, alloc: Global, text: &[u8]) -> Result<Result<Self::Value, Rule>, AllocError>
        ensures { IfOk result (λ r. r ≡ value self.now text.now) };
}

/// A scalar.
fn scalar<S: ReadText>(
    found: &Objects,
    key: &str,
    node: &Node,
    how: &S,
) -> Result<S::Value, ReadError>
    ensures { Reads found.now found.now result
        (scalar_read (S.other how.now) (S.value how.now) key.now (node_view node.now)) }
{
    let Some(text) = scalar_text(node) else {
        return fail_at(found, key, how.rule());
    };
    match how.parse(found.allocator(), text)? {
        Ok(value) => Ok(value),
        Err(rule) => fail_at(found, key, rule),
    }
}

impl<S: ReadText> ReadForm for S {
    type Value = S::Value;

    ghost form = { λ s. scalar_form (S.other s) (S.value s) (S.spelled s) };

    fn read(&self, found: &mut Objects, key: &str, node: &Node) -> Result<S::Value, ReadError> {
        scalar(found, key, node, self)
    }
}

/// A free part: any node.
pub struct Free;

impl ReadForm for Free {
    type Value = FreePart;

    ghost form = { λ _. free };

    fn read(&self, found: &mut Objects, _key: &str, node: &Node) -> Result<FreePart, ReadError> {
        Ok(FreePart::of(copy_node(found.allocator(), node)?))
    }
}

/// A free part that must be a map.
pub(crate) struct FreeMap;

impl ReadForm for FreeMap {
    type Value = FreePart;

    ghost form = { λ _. free_map };

    fn read(&self, found: &mut Objects, key: &str, node: &Node) -> Result<FreePart, ReadError> {
        let Some(_) = map_entries(node) else {
            return fail_at(found, key, Rule::NotMap);
        };
        Ok(FreePart::of(copy_node(found.allocator(), node)?))
    }
}
