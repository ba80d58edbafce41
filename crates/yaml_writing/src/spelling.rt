//! Nodes as they are written.

ghost use Rattle.std.specs.Prelude.{◌≡◌, IfOk, map};
ghost use Rattle.yaml_terms.specs.Tree.{trees};
ghost use Rattle.yaml_terms.specs.Spelling.{spelled as spelled_def, fields_spelled, items_spelled};
ghost use Rattle.yaml_terms.specs.NodeView.{node_view};
ghost use Rattle.yaml_terms.specs.SpellingView.{spelling_view, fields_view, items_view};
ghost use Rattle.yaml_terms.specs.SpellingView.{entries_view};

use crate::copy::copy_text;
use std::alloc::{AllocError, Global};
use yaml_terms::{FieldKey, Node, Nodes, Pairs, ScalarText, Spelling};

/// A node as it is written: its keys in quotes, plain scalars plain, other scalars in quotes. The
/// error is want of memory.
#[cycle(spelled)]
pub fn spelled(alloc: Global, node: &Node) -> Result<Spelling, AllocError>
    ensures { IfOk result (λ s. spelling_view s ≡ spelled_def (node_view node.now)) }
{
    match node {
        Node::Map(entries) => Ok(Spelling::Fields(spelled_fields(alloc, entries)?)),
        Node::List(items) => Ok(Spelling::Items(spelled_items(alloc, items)?)),
        Node::Scalar { text, plain } => spelled_scalar(alloc, text, *plain),
    }
}

/// The fields of a map, in the order of its entries.
#[cycle(spelled)]
fn spelled_fields(alloc: Global, entries: &Pairs) -> Result<Vec<(FieldKey, Spelling)>, AllocError>
    ensures { IfOk result (λ v. fields_view v.items
        ≡ fields_spelled (entries_view entries.now.items)) }
{
    let mut fields = Vec::with_capacity(alloc, entries.len())?;
    for entry in entries {
        let key = FieldKey::Quoted(copy_text(alloc, &entry.0)?);
        let value = spelled(alloc, &entry.1)?;
        fields.push((key, value))?;
    }
    Ok(fields)
}

/// The items of a list.
#[cycle(spelled)]
fn spelled_items(alloc: Global, nodes: &Nodes) -> Result<Vec<Spelling>, AllocError>
    ensures { IfOk result (λ v. items_view v.items
        ≡ items_spelled (trees (map node_view nodes.now.items))) }
{
    let mut items = Vec::with_capacity(alloc, nodes.len())?;
    for node in nodes {
        let item = spelled(alloc, node)?;
        items.push(item)?;
    }
    Ok(items)
}

/// A scalar, plain where it was written plain.
fn spelled_scalar(alloc: Global, text: &ScalarText, plain: bool) -> Result<Spelling, AllocError>
    ensures { IfOk result (λ s. spelling_view s
        ≡ spelled_def (node_view (Node.Scalar text.now plain))) }
{
    let text = copy_text(alloc, text)?;
    if plain {
        Ok(Spelling::Word(text))
    } else {
        Ok(Spelling::Quoted(text))
    }
}
