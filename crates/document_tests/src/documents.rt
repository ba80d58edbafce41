//! The documents of a text and their objects, with what writers and catalogs ask of them: that a
//! node can be written, and that an object is of some document.

ghost use Rattle.std.specs.List.{All};
ghost use Rattle.yaml_terms.specs.NodeView.{node_view};
ghost use Rattle.yaml_terms.specs.SpellingFits.{IsWritable};
ghost use Rattle.object_terms.specs.Document.{IsOfDocument};

use object_terms::Objects;
use sample_stream::{ALERT_TARGETS, SHOP};
use slo_objects::read_object;
use std::alloc::Global;
use std::process::Abort;
use yaml_subset::read_documents;
use yaml_terms::{Node, Nodes};
use yaml_writing::laws;

/// The version and the name of a document.
const HEAD: &str = "apiVersion: openslo/v1
metadata:
  name: shop
";

/// What begins the `spec` of an SLO of the service `shop` and the indicator `speed`.
const SLO: &str = "  service: shop
  indicatorRef: speed
  timeWindow:
  - duration: 30d
    isRolling: true
  budgetingMethod: Occurrences
";

/// What stands in a text for these short names: `¶` for a line feed, the first two lines of a
/// document for `@kind`, and the next two for `@name`.
const SAMPLES: [(&str, &str); 7] = [
    ("¶", "\n"),
    ("@head\n", HEAD),
    ("@kind ", "---\napiVersion: openslo/v1\nkind: "),
    ("@name ", "metadata:\n  name: "),
    ("@slo\n", SLO),
    ("@targets\n", ALERT_TARGETS),
    ("@shop\n", SHOP),
];

/// A text with what its short names stand for.
pub(crate) fn with_samples(rt: &impl Abort, alloc: Global, text: &str) -> String {
    let mut whole = String::from_str(alloc, text).expect(rt, "memory");
    for (name, sample) in &SAMPLES {
        whole = whole.replace(alloc, *name, *sample).expect(rt, "memory");
    }
    whole
}

/// The documents of a text.
#[tactic(auto, using(crate::proofs::DocumentLemmas::each_node))]
pub(crate) fn documents_of(rt: &impl Abort, alloc: Global, text: &str) -> Nodes
    ensures { All (λ node. IsWritable (node_view node)) result.items }
{
    laws::standing_nodes_are_writable();
    let text = with_samples(rt, alloc, text);
    read_documents(alloc, text.as_bytes()).expect(rt, "documents")
}

/// The objects of a document.
fn objects_of_document(rt: &impl Abort, alloc: Global, node: &Node) -> Objects
    requires { IsWritable (node_view node.now) }
    ensures { All IsOfDocument result }
{
    read_object(alloc, node).expect(rt, "objects")
}

/// Objects behind others.
#[tactic(auto, using(crate::proofs::DocumentLemmas::all_of_both))]
fn append_all(rt: &impl Abort, mut objects: Objects, more: Objects) -> Objects
    requires first { All IsOfDocument objects }
    requires second { All IsOfDocument more }
    ensures { All IsOfDocument result }
{
    objects.append(more).expect(rt, "memory");
    objects
}

/// The objects of a text, in order.
pub(crate) fn objects_of(rt: &impl Abort, alloc: Global, text: &str) -> Objects
    ensures { All IsOfDocument result }
{
    let nodes = documents_of(rt, alloc, text);
    let mut objects = Objects::new(alloc);
    for node in nodes.as_slice() {
        objects = append_all(rt, objects, objects_of_document(rt, alloc, node));
    }
    objects
}
