//! Nodes: what a document is made of.

ghost use Rattle.std.specs.Prelude.{◌≡◌};
ghost use Rattle.yaml_terms.specs.Profile.{is_shallow};
ghost use Rattle.yaml_terms.specs.NodeView.{node_view};

use crate::text::ScalarText;

/// How deep maps and lists are nested at most, the root's node being 1: what OpenSLO's objects
/// need, with room.
pub const MAX_DEPTH: usize = 32;

/// The entries of a map, in the text's order; no two keys are alike.
pub type Pairs = Vec<(ScalarText, Node)>;

/// Nodes in order: the items of a list, or the documents of a text.
pub type Nodes = Vec<Node>;

/// A node of a document.
#[derive(Debug, Drop)]
pub enum Node {
    /// A map, by its entries.
    Map(Pairs),
    /// A list, by its items.
    List(Nodes),
    /// A scalar's text, and whether it was written plain.
    Scalar { text: ScalarText, plain: bool },
}

/// Whether a node is a scalar, and so no level deeper than where it stands.
pub fn is_scalar(node: &Node) -> bool
    ensures { result ≡ is_shallow 0 (node_view node.now) }
{
    match node {
        Node::Map(_) => false,
        Node::List(_) => false,
        Node::Scalar { text: _, plain: _ } => true,
    }
}
