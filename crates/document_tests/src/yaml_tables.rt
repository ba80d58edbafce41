//! Tables of YAML texts: each with what its documents stand for, or with its fault. A table is one
//! text, since the proof of a test costs by its literals and not by their length: a line for each
//! case, in which `¶` stands for a line feed and `@targets` or `@shop` for sample documents, and
//! behind ` => ` what is wanted.

use crate::documents::with_samples;
use crate::expectations::expect_text;
use std::alloc::{AllocError, Global};
use std::process::Abort;
use yaml_subset::read_documents;
use yaml_terms::{Node, Nodes, YamlFault};

/// Appends a text, with line feeds and tabs as one writes them and `~` for a byte above 127.
fn show_text(out: &mut String, bytes: &[u8]) -> Result<(), AllocError> {
    for byte in bytes {
        if *byte == b'\n' {
            out.push_str("\\n")?;
        } else if *byte == b'\t' {
            out.push_str("\\t")?;
        } else if *byte < 128 {
            out.push(*byte as char)?;
        } else {
            out.push('~')?;
        }
    }
    Ok(())
}

/// A plain scalar as it is, another in quotes, a map in braces, a list in brackets.
fn show(out: &mut String, node: &Node) -> Result<(), AllocError> {
    match node {
        Node::Scalar { text, plain } => {
            if *plain {
                show_text(out, text.as_bytes())
            } else {
                out.push('"')?;
                show_text(out, text.as_bytes())?;
                out.push('"')
            }
        }
        Node::List(items) => {
            out.push('[')?;
            for item in items {
                show(out, item)?;
                out.push(';')?;
            }
            out.push(']')
        }
        Node::Map(entries) => {
            out.push('{')?;
            for entry in entries {
                show_text(out, entry.0.as_bytes())?;
                out.push('=')?;
                show(out, &entry.1)?;
                out.push(';')?;
            }
            out.push('}')
        }
    }
}

fn show_documents(out: &mut String, nodes: &Nodes) -> Result<(), AllocError> {
    for node in nodes {
        show(out, node)?;
        out.push('.')?;
    }
    Ok(())
}

/// The documents of a text as they are shown, or the line and the row of its fault.
pub(crate) fn answer(alloc: Global, text: &str) -> Result<String, AllocError> {
    match read_documents(alloc, text.as_bytes()) {
        Ok(nodes) => {
            let mut out = String::new(alloc);
            show_documents(&mut out, &nodes)?;
            Ok(out)
        }
        Err(YamlFault::Form { line, which }) => format!(in alloc; "{line} {which:?}"),
        Err(YamlFault::TooLarge) => String::from_str(alloc, "too large"),
        Err(YamlFault::NotUtf8(at)) => format!(in alloc; "not utf8 {at}"),
        Err(YamlFault::NoMemory) => String::from_str(alloc, "no memory"),
    }
}

/// Each case of a table is read as it says.
pub(crate) fn expect_read(rt: &impl Abort, alloc: Global, table: &str) {
    for case in table.split("\n") {
        let (text, wanted) = case.split_once(" => ").unwrap_or((case, "no case"));
        let text = with_samples(rt, alloc, text);
        let found = answer(alloc, &text).expect(rt, "memory");
        expect_text(rt, case, &found, wanted);
    }
}
