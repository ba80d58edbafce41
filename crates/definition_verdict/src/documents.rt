//! The documents of a text, and their objects.
ghost use Rattle.std.specs.Prelude.{◌≡◌, ◌<◌, ◌^◌, ℕ, [], Ok, Err, IfOk, length, map};
ghost use Rattle.std.specs.List.{AllByRecursion};
ghost use Rattle.yaml_terms.specs.NodeView.{node_view, nodes_view};
ghost use Rattle.yaml_terms.specs.SpellingFits.{IsWritable};
ghost use Rattle.yaml_terms.specs.Text.{StandsFor};
ghost use Rattle.office_history.specs.Documents.{broken_document, objects_in as objects_in_def};
ghost use Rattle.office_history.specs.Texts.{IsYamlFault};

use object_terms::{ObjectFault, Objects, ReadError};
use record_form::{Refusal, YamlWord};
use slo_objects::read_object;
use std::alloc::Global;
use yaml_subset::read_documents;
use yaml_terms::{Node, Nodes, YamlFault};
use yaml_writing::laws;

/// Why a text stands for no documents.
pub(crate) enum TextError {
    Fault { line: u32, word: YamlWord },
    NoMemory,
}

/// Why documents stand for no objects.
#[derive(Drop)]
pub(crate) enum DocumentsError {
    Refused(Refusal),
    NoMemory,
}

/// A fault of a line.
fn form_fault(line: usize, word: YamlWord) -> TextError
    requires { line < 2 ^ 32 }
    ensures { result ≡ TextError.Fault line word }
{
    TextError::Fault {
        line: line as u32,
        word,
    }
}

/// The documents of a text. It has at most `MAX_TEXT_BYTES` bytes, so they are few, as its lines
/// are.
pub(crate) fn documents_in(alloc: Global, text: &[u8]) -> Result<Nodes, TextError>
    ensures ok { IfOk result (λ nodes. StandsFor text.now (nodes_view nodes.items)) }
    ensures writable { IfOk result (λ nodes. AllByRecursion IsWritable (nodes_view nodes.items)) }
    ensures few { IfOk result (λ nodes. length nodes.items < 2 ^ 32) }
    ensures fault { (line : ℕ) (word : YamlWord) → result ≡ Err (TextError.Fault line word) →
        IsYamlFault text.now line word }
{
    laws::standing_nodes_are_writable();
    match read_documents(alloc, text) {
        Ok(nodes) => Ok(nodes),
        Err(YamlFault::Form { line, which }) => Err(form_fault(line, YamlWord::Form(which))),
        Err(YamlFault::NotUtf8(_)) => Err(TextError::Fault {
            line: 0,
            word: YamlWord::NotUtf8,
        }),
        Err(YamlFault::TooLarge) => Err(TextError::Fault {
            line: 0,
            word: YamlWord::TooLarge,
        }),
        Err(YamlFault::NoMemory) => Err(TextError::NoMemory),
    }
}

/// The refusal of a document that stands for no objects.
fn broken(document: u32, fault: ObjectFault) -> Refusal
    ensures { result ≡ broken_document document fault }
{
    let ObjectFault { field, rule } = fault;
    Refusal::Object {
        document,
        field,
        rule,
    }
}

/// The objects of all documents in order.
pub(crate) fn objects_in(alloc: Global, documents: &[Node]) -> Result<Objects, DocumentsError>
    requires { length documents.now < 2 ^ 32 }
    ensures ok { IfOk result (λ objects. objects_in_def (map node_view documents.now)
        ≡ Ok objects) }
    ensures refused { (refusal : Refusal) → result ≡ Err (DocumentsError.Refused refusal) →
        objects_in_def (map node_view documents.now) ≡ Err refusal }
{
    let mut objects = Objects::new(alloc);
    let mut number: usize = 1;
    for node in documents {
        let own = match read_object(alloc, node) {
            Ok(own) => own,
            Err(ReadError::Fault(fault)) => {
                return Err(DocumentsError::Refused(broken(number as u32, fault)));
            }
            Err(ReadError::NoMemory) => return Err(DocumentsError::NoMemory),
        };
        if objects.append(own).is_err() {
            return Err(DocumentsError::NoMemory);
        }
        number += 1;
    }
    Ok(objects)
}
