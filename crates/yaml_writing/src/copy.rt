//! Copies of nodes.

ghost use Rattle.std.specs.Prelude.{◌≡◌, IfOk, map};
ghost use Rattle.yaml_terms.specs.NodeView.{node_view, fields_view};

use std::alloc::{AllocError, Global};
use yaml_terms::{Node, Nodes, Pairs, ScalarText};

/// A copy of a text.
pub(crate) fn copy_text(alloc: Global, text: &ScalarText) -> Result<ScalarText, AllocError>
    ensures { IfOk result (λ t. t ≡ text.now) }
{
    ScalarText::copy_of(alloc, text.as_bytes())
}

/// A copy of a node, with all that it holds.
///
/// # Errors
///
/// Memory ran out.
#[cycle(copies)]
pub fn copy_node(alloc: Global, node: &Node) -> Result<Node, AllocError>
    ensures { IfOk result (λ n. node_view n ≡ node_view node.now) }
{
    match node {
        Node::Map(entries) => Ok(Node::Map(copy_pairs(alloc, entries)?)),
        Node::List(items) => Ok(Node::List(copy_nodes(alloc, items)?)),
        Node::Scalar { text, plain } => Ok(Node::Scalar {
            text: copy_text(alloc, text)?,
            plain: *plain,
        }),
    }
}

/// Copies of entries.
#[cycle(copies)]
fn copy_pairs(alloc: Global, entries: &[(ScalarText, Node)]) -> Result<Pairs, AllocError>
    ensures { IfOk result (λ v. fields_view v.items ≡ fields_view entries.now) }
{
    let mut copies = Vec::with_capacity(alloc, entries.len())?;
    for (key, node) in entries {
        let key = copy_text(alloc, key)?;
        let node = copy_node(alloc, node)?;
        copies.push((key, node))?;
    }
    Ok(copies)
}

/// Copies of nodes.
#[cycle(copies)]
fn copy_nodes(alloc: Global, items: &[Node]) -> Result<Nodes, AllocError>
    ensures { IfOk result (λ v. map node_view v.items ≡ map node_view items.now) }
{
    let mut copies = Vec::with_capacity(alloc, items.len())?;
    for node in items {
        copies.push(copy_node(alloc, node)?)?;
    }
    Ok(copies)
}
