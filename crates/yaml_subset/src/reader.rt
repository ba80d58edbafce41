//! The reader: what is kept after some lines, and one more line.

ghost use Rattle.std.specs.Prelude.{◌≡◌, IfOk, IfErr, None, Some, map, true, false};
ghost use Rattle.yaml_terms.specs.Text.{parent_at as parent_at_def};
ghost use Rattle.yaml_terms.specs.Text.{parent_after as parent_after_def};
ghost use Rattle.yaml_terms.specs.Text.{header_scalar as header_scalar_def, takes as takes_def};
ghost use Rattle.yaml_terms.specs.Fault.{misfit, fault_of};
ghost use Rattle.yaml_terms.specs.OpenNodes.{open_after_all};
ghost use Rattle.yaml_subset.specs.Reader.{header_folds};
ghost use Rattle.yaml_subset.specs.Reader.{scalar_behind as scalar_behind_def, Follows};
ghost use Rattle.yaml_lines.specs.LineView.{mark_view};
ghost use Rattle.yaml_terms.specs.FaultOrder.{earlier as earlier_def};
ghost use Rattle.yaml_subset.specs.ReaderView.{reading};
ghost use Rattle.yaml_subset.specs.OpenView.{nodes_open};
ghost use Rattle.yaml_subset.specs.LineErrorView.{Refuses};

use crate::open::{LineError, OpenNodes};
use std::alloc::Global;
use yaml_lines::{Line, Mark, line_of, raw_fault, scalar_with, takes};
use yaml_terms::{ProfileFault, Scalar};

/// The column of a key or dash.
fn parent_at(mark: &Mark) -> Option<usize>
    ensures { result ≡ parent_at_def (mark_view mark.now) }
{
    match mark {
        Mark::Key(column, _) => Some(*column),
        Mark::Dash(column) => Some(*column),
        _ => None,
    }
}

/// The column of the last of these marks, where it is a key or dash.
#[tactic(auto, using(crate::proofs::ReaderLemmas::parent_after_more))]
fn parent_after(parent: Option<usize>, marks: &[Mark]) -> Option<usize>
    ensures { result ≡ parent_after_def parent (map mark_view marks.now) }
{
    let mut last = parent;
    for at in 0..marks.len() {
        let mark = &marks[at];
        last = parent_at(mark);
    }
    last
}

/// Whether a header folds its lines; none for another mark.
fn header_style(mark: &Mark) -> Option<bool>
    ensures { result ≡ header_folds (mark_view mark.now) }
{
    match mark {
        Mark::Header(_, style) => Some(style.folded),
        _ => None,
    }
}

/// The scalar behind a header, if there is one.
fn scalar_behind(parent: Option<usize>, folds: Option<bool>) -> Option<Scalar>
    ensures { result ≡ scalar_behind_def parent folds }
{
    match folds {
        None => None,
        Some(folded) => Some(Scalar {
            parent,
            indent: None,
            folded,
        }),
    }
}

/// The block scalar whose header ends the line with these marks.
fn header_scalar(parent: Option<usize>, marks: &[Mark]) -> Option<Scalar>
    ensures { result ≡ header_scalar_def parent (map mark_view marks.now) }
{
    if marks.is_empty() {
        return None;
    }
    let last = marks.len() - 1;
    let folds = header_style(&marks[last]);
    let column = parent_after(parent, &marks[..last]);
    scalar_behind(column, folds)
}

/// The open nodes after the marks of a line, or the fault of the first that has no place.
fn add_all(alloc: Global, nodes: OpenNodes, marks: Vec<Mark>) -> Result<OpenNodes, LineError>
    ensures ok { IfOk result (λ o. (open_after_all (map mark_view marks.items) (nodes_open nodes)
        ≡ Some (nodes_open o)) × (misfit (map mark_view marks.items) (nodes_open nodes) ≡ None)) }
    ensures refused { IfErr result (λ s. Refuses s
        (λ w. misfit (map mark_view marks.items) (nodes_open nodes) ≡ Some w)) }
{
    let mut nodes = nodes;
    for mark in marks {
        nodes = nodes.add(alloc, mark)?;
    }
    Ok(nodes)
}

/// What is kept after some lines.
#[derive(Drop)]
pub(crate) struct Reader {
    pub(crate) nodes: OpenNodes,
    /// The column of the last mark, where it is a key or dash.
    pub(crate) parent: Option<usize>,
    /// The block scalar that may take the next line.
    pub(crate) scalar: Option<Scalar>,
}

/// A line that a block scalar takes.
fn read_raw(reader: Reader, scalar: Scalar, line: &[u8]) -> Result<Reader, LineError>
    requires taken { takes_def reader.scalar line.now ≡ true }
    requires it { reader.scalar ≡ Some scalar }
    ensures ok { IfOk result (λ r. Follows (reading reader) line.now (reading r)) }
    ensures refused { IfErr result (λ s. Refuses s
        (λ w. fault_of reader.scalar (nodes_open reader.nodes) line.now ≡ Some w)) }
{
    let fault = raw_fault(scalar, line);
    match reader.nodes.add_raw(line) {
        Ok(nodes) => match fault {
            None => Ok(Reader {
                nodes,
                parent: None,
                scalar: Some(scalar_with(line, scalar)),
            }),
            Some(which) => {
                drop(nodes);
                Err(LineError::Fault(which))
            }
        },
        Err(LineError::NoMemory) => Err(LineError::NoMemory),
        Err(LineError::Fault(which)) => Err(LineError::Fault(first_of(fault, which))),
    }
}

/// A line by itself.
fn read_own(alloc: Global, reader: Reader, line: &[u8]) -> Result<Reader, LineError>
    requires { takes_def reader.scalar line.now ≡ false }
    ensures ok { IfOk result (λ r. Follows (reading reader) line.now (reading r)) }
    ensures refused { IfErr result (λ s. Refuses s
        (λ w. fault_of reader.scalar (nodes_open reader.nodes) line.now ≡ Some w)) }
{
    let Ok(Line { marks, fault }) = line_of(alloc, line) else {
        drop(reader);
        return Err(LineError::NoMemory);
    };
    let parent = parent_after(reader.parent, &marks);
    let scalar = header_scalar(reader.parent, &marks);
    match add_all(alloc, reader.nodes, marks) {
        Ok(nodes) => match fault {
            None => Ok(Reader {
                nodes,
                parent,
                scalar,
            }),
            Some(which) => {
                drop(nodes);
                Err(LineError::Fault(which))
            }
        },
        Err(LineError::NoMemory) => Err(LineError::NoMemory),
        Err(LineError::Fault(which)) => Err(LineError::Fault(first_of(fault, which))),
    }
}

/// The earlier of a line's own fault and another.
fn first_of(fault: Option<ProfileFault>, which: ProfileFault) -> ProfileFault
    ensures { earlier_def fault (Some which) ≡ Some result }
{
    match fault {
        None => which,
        Some(own) => {
            if own.place() <= which.place() {
                own
            } else {
                which
            }
        }
    }
}

/// One more line.
pub(crate) fn read_line(alloc: Global, reader: Reader, line: &[u8]) -> Result<Reader, LineError>
    ensures ok { IfOk result (λ r. Follows (reading reader) line.now (reading r)) }
    ensures refused { IfErr result (λ s. Refuses s
        (λ w. fault_of reader.scalar (nodes_open reader.nodes) line.now ≡ Some w)) }
{
    match reader.scalar {
        None => read_own(alloc, reader, line),
        Some(scalar) => {
            if takes(reader.scalar, line) {
                read_raw(reader, scalar, line)
            } else {
                read_own(alloc, reader, line)
            }
        }
    }
}
