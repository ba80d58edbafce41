//! Free parts of documents.

use std::marker::Model;
use yaml_terms::Node;

/// A part of a document whose form is free: it is kept as its node.
#[derive(Debug, Drop)]
pub struct FreePart {
    node: Node,
}

impl Model for FreePart {
    ghost use Rattle.yaml_terms.specs.Tree.{Tree};
    ghost use Rattle.yaml_terms.specs.NodeView.{node_view};
    ghost use Rattle.object_terms.specs.TreeCode.{coded_tree};

    ghost Value = { Tree };

    ghost coded = { coded_tree };

    ghost view = { λ p. node_view p.node };
}

impl FreePart {
    ghost use Rattle.std.specs.Prelude.{◌≡◌};
    ghost use Rattle.yaml_terms.specs.NodeView.{node_view};

    /// The part that is this node.
    pub fn of(node: Node) -> FreePart
        ensures { result ≡ node_view node }
    {
        FreePart { node }
    }

    /// The node.
    pub fn node(&self) -> &Node
        ensures { node_view result.now ≡ self.now }
    {
        &self.node
    }
}
