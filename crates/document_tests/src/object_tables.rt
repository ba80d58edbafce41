//! The objects of OpenSLO texts, as tables name them.

use crate::documents::{documents_of, objects_of};
use object_terms::{Object, ReadError};
use slo_objects::read_object;
use std::alloc::Global;
use std::process::Abort;
use yaml_terms::Node;

/// Appends a line with the kind and name of each object.
fn show_names(rt: &impl Abort, alloc: Global, out: &mut String, objects: &[Object]) {
    for object in objects {
        let (kind, name) = (object.kind, object.name);
        let line = format!(in alloc; "{kind:?} {name}\n").expect(rt, "memory");
        out.push_str(&line).expect(rt, "memory");
    }
}

/// Appends these lines for the objects of a document, or one with its fault.
fn show_document(rt: &impl Abort, alloc: Global, out: &mut String, node: &Node) {
    match read_object(alloc, node) {
        Ok(objects) => show_names(rt, alloc, out, objects.as_slice()),
        Err(ReadError::Fault(fault)) => {
            let (field, rule) = (fault.field.as_str(), fault.rule);
            let line = format!(in alloc; "{field} {rule:?}\n").expect(rt, "memory");
            out.push_str(&line).expect(rt, "memory");
        }
        Err(ReadError::NoMemory) => {}
    }
}

/// A line with the kind and name of each object of a text, or with the fault of each document.
pub(crate) fn names_of(rt: &impl Abort, alloc: Global, text: &str) -> String {
    let nodes = documents_of(rt, alloc, text);
    let mut lines = String::new(alloc);
    for node in nodes.as_slice() {
        show_document(rt, alloc, &mut lines, node);
    }
    lines
}

/// What the objects of a text show with all their fields.
pub(crate) fn fields_of(rt: &impl Abort, alloc: Global, text: &str) -> String {
    let objects = objects_of(rt, alloc, text);
    format!(in alloc; "{objects:?}").expect(rt, "memory")
}
