//! Tables of texts, and what is wanted of each. A table is one text, since the proof of a test
//! costs by its functions and its literals, and not by their length. Its cases stand apart by
//! `====`, and what is wanted of one follows on `=> `. What stands before a case and those behind
//! it ends at `####`; a case behind `-- ` is that text with one part changed, which stands up to
//! `-> `, to what follows there.

use crate::catalog_tables::end_of;
use crate::expectations::{expect, expect_text};
use crate::object_tables::{fields_of, names_of};
use crate::written_nodes::expect_writing;
use crate::written_objects::expect_written;
use std::alloc::Global;
use std::process::Abort;

/// What is wanted of the text of a case.
pub(crate) enum Reading {
    /// A line with the kind and name of each object, or with the fault.
    Names,
    /// A part of what the objects show with all their fields. Its lines may be broken.
    Fields,
    /// What steps leave in a catalog, or the first fault.
    Steps,
    /// The writing of the objects.
    Objects,
    /// The writing of the documents.
    Nodes,
    /// The same behind three spaces.
    IndentedNodes,
}

/// The text of a case behind what stands before it, or that with the case's change.
fn text_of(rt: &impl Abort, alloc: Global, head: &str, case: &str) -> String {
    match case.strip_prefix("-- ") {
        Some(change) => {
            let (part, changed) = change.split_once("-> ").unwrap_or((change, ""));
            head.replace(alloc, part, changed)
        }
        None => format!(in alloc; "{head}{case}"),
    }
    .expect(rt, "memory")
}

/// The objects of a text show this, in one line, with all their fields.
fn expect_fields(rt: &impl Abort, alloc: Global, text: &str, wanted: &str) {
    let wanted = wanted
        .trim_end()
        .replace(alloc, "\n", " ")
        .expect(rt, "memory");
    let found = fields_of(rt, alloc, text);
    expect(rt, found.contains(wanted.as_str()), text);
}

/// A text has what is wanted of it.
fn expect_case(rt: &impl Abort, alloc: Global, reading: &Reading, text: &str, wanted: &str) {
    match reading {
        Reading::Names => expect_text(rt, text, &names_of(rt, alloc, text), wanted),
        Reading::Fields => expect_fields(rt, alloc, text, wanted),
        Reading::Steps => expect_text(rt, text, &end_of(rt, alloc, text), wanted),
        Reading::Objects => expect_written(rt, alloc, text, wanted),
        Reading::Nodes => expect_writing(rt, alloc, 0, text, wanted),
        Reading::IndentedNodes => expect_writing(rt, alloc, 3, text, wanted),
    }
}

/// Each case of a table has what is wanted of it.
pub(crate) fn expect_table(rt: &impl Abort, alloc: Global, reading: &Reading, table: &str) {
    let mut head = String::new(alloc);
    for case in table.split("====\n") {
        let (front, case) = case.split_once("####\n").unwrap_or((head.as_str(), case));
        head = String::from_str(alloc, front).expect(rt, "memory");
        let (case, wanted) = case.split_once("=> ").unwrap_or((case, "no case"));
        expect_case(rt, alloc, reading, &text_of(rt, alloc, &head, case), wanted);
    }
}
