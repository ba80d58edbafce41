//! What a node is: a scalar, a map or a list.
ghost use Rattle.std.specs.Prelude.{◌≡◌, option_map};
ghost use Rattle.yaml_terms.specs.NodeView.{node_view};
ghost use Rattle.object_terms.specs.Form.{scalar_in, mapping_in, list_in, is_null, count, only_in};
ghost use Rattle.object_fields.specs.Reading.{entries_view, trees_view};

use crate::fields::is_among;
use yaml_terms::{Node, ScalarText};

/// The text of a scalar.
pub fn scalar_text(node: &Node) -> Option<&[u8]>
    ensures { option_map (λ text. text.now) result ≡ scalar_in (node_view node.now) }
{
    match node {
        Node::Map(_) => None,
        Node::List(_) => None,
        Node::Scalar { text, plain: _ } => Some(text.as_bytes()),
    }
}

/// The entries of a map.
pub fn map_entries(node: &Node) -> Option<&[(ScalarText, Node)]>
    ensures { option_map (λ entries. entries_view entries.now) result
        ≡ mapping_in (node_view node.now) }
{
    match node {
        Node::Map(entries) => Some(entries.as_slice()),
        Node::List(_) => None,
        Node::Scalar { text: _, plain: _ } => None,
    }
}

/// The items of a list.
pub fn list_items(node: &Node) -> Option<&[Node]>
    ensures { option_map (λ items. trees_view items.now) result ≡ list_in (node_view node.now) }
{
    match node {
        Node::Map(_) => None,
        Node::List(items) => Some(items.as_slice()),
        Node::Scalar { text: _, plain: _ } => None,
    }
}

/// The item of a list that has one.
pub fn only_item(items: &[Node]) -> Option<&Node>
    ensures { option_map (λ n. node_view n.now) result ≡ only_in (trees_view items.now) }
{
    match items {
        [] => None,
        [node] => Some(node),
        [_, _, ..] => None,
    }
}

/// How many items a list has.
#[tactic(auto, using(crate::proofs::CountLemmas::count_trees))]
pub fn item_count(items: &[Node]) -> usize
    ensures { result ≡ count (trees_view items.now) }
{
    items.len()
}

/// Whether it is a plain scalar that stands for nothing.
pub fn is_null(node: &Node) -> bool
    ensures { result ≡ is_null (node_view node.now) }
{
    match node {
        Node::Map(_) => false,
        Node::List(_) => false,
        Node::Scalar { text, plain } => {
            *plain && is_among(&["", "~", "null", "Null", "NULL"], text.as_bytes())
        }
    }
}
