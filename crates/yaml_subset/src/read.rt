//! The reading of whole texts.

ghost use Rattle.std.specs.Prelude.{◌≡◌, List, ◌+◌, ◌≤◌, ◌<◌, IfOk, IfErr, map, length, drop};
ghost use Rattle.std.specs.Prelude.{nat_eq, [], None};
ghost use Rattle.std.specs.List.{starts_with};
ghost use Rattle.std.specs.Str.{IsValidUpTo, IsErrorLen};
ghost use Rattle.std.specs.Str.Lossy.{utf8_error_len};
ghost use Rattle.std.specs.Str.Lines.{lines as lines_def};
ghost use Rattle.yaml_terms.specs.Tree.{Tree};
ghost use Rattle.yaml_terms.specs.Text.{StandsFor, nodes_of, without_mark as without_mark_def};
ghost use Rattle.yaml_terms.specs.BadPlace.{IsBadPlace};
ghost use Rattle.yaml_terms.specs.NodeView.{nodes_view};
ghost use Rattle.yaml_terms.specs.NamedFault.{NamesLine, NamesFault};
ghost use Rattle.yaml_subset.specs.ReadView.{IsStart};

use crate::open::{LineError, OpenNodes};
use crate::reader::{Reader, read_line};
use slo_limits::MAX_TEXT_BYTES;
use std::alloc::{AllocError, Global};
use std::str;
use yaml_terms::{Nodes, YamlFault};

/// The reader before the first line.
fn at_start(alloc: Global) -> Reader
    ensures { IsStart result }
{
    Reader {
        nodes: OpenNodes::new(alloc),
        parent: None,
        scalar: None,
    }
}

/// Reads lines.
fn read_lines(alloc: Global, lines: &[&str]) -> Result<Nodes, YamlFault>
    ensures found { IfOk result (λ xs. nodes_of (map (λ x. x.now) lines.now)
        ≡ Some (nodes_view xs.items)) }
    ensures fault { IfErr result (λ f. NamesLine (map (λ x. x.now) lines.now) f) }
{
    let mut reader = at_start(alloc);
    for at in 0..lines.len() {
        match read_line(alloc, reader, lines[at].as_bytes()) {
            Ok(next) => reader = next,
            Err(LineError::NoMemory) => return Err(YamlFault::NoMemory),
            Err(LineError::Fault(which)) => {
                return Err(YamlFault::Form {
                    line: at + 1,
                    which,
                });
            }
        }
    }
    match reader.nodes.finished(alloc) {
        Ok(nodes) => Ok(nodes),
        Err(_) => Err(YamlFault::NoMemory),
    }
}

/// The lines of a text: each ends with LF, with CR LF, or with the text.
fn lines_of<'a>(alloc: Global, text: &'a str) -> Result<Vec<&'a str>, AllocError>
    ensures { IfOk result (λ v. map (λ x. x.now) v.items ≡ lines_def text.now) }
{
    text.lines().collect(alloc)
}

/// The text without a byte order mark at its start.
fn without_mark(text: &[u8]) -> &[u8]
    ensures { result.now ≡ without_mark_def text.now }
{
    if text.starts_with(b"\xEF\xBB\xBF") {
        yaml_lines::from(text, 3)
    } else {
        text
    }
}

/// Reads lines of a text.
fn read_text(alloc: Global, text: &str) -> Result<Nodes, YamlFault>
    ensures found { IfOk result (λ xs. nodes_of (lines_def text.now) ≡ Some (nodes_view xs.items)) }
    ensures fault { IfErr result (λ f. NamesLine (lines_def text.now) f) }
{
    match lines_of(alloc, text) {
        Err(_) => Err(YamlFault::NoMemory),
        Ok(lines) => read_lines(alloc, &lines),
    }
}

/// The place of the first byte that no UTF-8 text can have there, behind a longest front that is
/// UTF-8.
fn bad_place(bytes: &[u8], valid: usize, bad: Option<usize>) -> usize
    requires front { IsValidUpTo bytes.now valid }
    requires fault { bad ≡ utf8_error_len (drop valid bytes.now) }
    requires within { IsErrorLen bytes.now valid bad }
    ensures { IsBadPlace bytes.now result }
{
    let first = yaml_lines::byte_at(bytes, valid);
    if first < 0xC2 || 0xF4 < first {
        return valid;
    }
    match bad {
        None => bytes.len(),
        Some(length) => valid.saturating_add(length),
    }
}

/// Reads the documents of a text of the profile.
///
/// The nodes are exactly those that the text stands for, one for each document that has one.
/// A depth is counted, so that the stack doesn't grow with the text.
pub fn read_documents(alloc: Global, text: &[u8]) -> Result<Nodes, YamlFault>
    ensures found { IfOk result (λ xs. StandsFor text.now (nodes_view xs.items)) }
    ensures fault { IfErr result (λ f. NamesFault text.now f) }
    ensures too_large { MAX_TEXT_BYTES < length text.now → result ≡ Err YamlFault.TooLarge }

    // A text that stands for nodes is read, unless memory is wanting.
    ensures taken { (xs : List Tree) → StandsFor text.now xs
        → IfErr result (λ f. f ≡ YamlFault.NoMemory) }
{
    read_checked(alloc, text)
}

/// Reads the documents of a text, in the order of the faults.
fn read_checked(alloc: Global, text: &[u8]) -> Result<Nodes, YamlFault>
    ensures found { IfOk result (λ xs. StandsFor text.now (nodes_view xs.items)) }
    ensures fault { IfErr result (λ f. NamesFault text.now f) }
    ensures too_large { MAX_TEXT_BYTES < length text.now → result ≡ Err YamlFault.TooLarge }
{
    if text.len() > MAX_TEXT_BYTES {
        return Err(YamlFault::TooLarge);
    }
    let body = without_mark(text);
    match str::from_utf8(body) {
        Err(fault) => {
            let skipped = text.len().saturating_sub(body.len());
            let at = bad_place(body, fault.valid_up_to(), fault.error_len());
            Err(YamlFault::NotUtf8(skipped.saturating_add(at)))
        }
        Ok(body) => match read_text(alloc, body) {
            Ok(nodes) => Ok(nodes),
            Err(YamlFault::Form { line, which }) => Err(YamlFault::Form { line, which }),
            Err(_) => Err(YamlFault::NoMemory),
        },
    }
}
