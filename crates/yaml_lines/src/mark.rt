//! Marks: what stands on a line, each with its column.

ghost use Rattle.std.specs.Prelude.{◌≡◌, ◌++◌, IfOk};
ghost use Rattle.yaml_terms.specs.Fault.{column};
ghost use Rattle.yaml_lines.specs.LineView.{mark_view};
ghost use Rattle.yaml_terms.specs.Mark as marks;
ghost use Rattle.yaml_terms.specs.Profile.{is_next};

use std::alloc::{AllocError, Global};
use yaml_terms::{Node, ProfileFault, ScalarText, Style, earlier};

/// One thing on a line.
#[derive(Drop)]
pub enum Mark {
    /// `---` or `...`.
    Start,
    /// A dash before an item.
    Dash(usize),
    /// A key and its colon.
    Key(usize, ScalarText),
    /// A value that ends on its line.
    Value(usize, Node),
    /// The header of a block scalar.
    Header(usize, Style),
}

impl Mark {
    /// Whether it begins a document.
    pub fn is_start(&self) -> bool
        ensures { result ≡ is_next marks.start (mark_view self.now) }
    {
        match self {
            Mark::Start => true,
            _ => false,
        }
    }

    /// The column at which it stands.
    pub fn column(&self) -> Option<usize>
        ensures { result ≡ column (mark_view self.now) }
    {
        match self {
            Mark::Start => None,
            Mark::Dash(column) => Some(*column),
            Mark::Key(column, _) => Some(*column),
            Mark::Value(column, _) => Some(*column),
            Mark::Header(column, _) => Some(*column),
        }
    }
}

/// The marks of a line, and the first fault that it has by itself.
#[derive(Drop)]
pub struct Line {
    pub marks: Vec<Mark>,
    pub fault: Option<ProfileFault>,
}

impl Line {
    ghost use Rattle.std.specs.Prelude.{◌≡◌, ℕ, List, IfOk};
    ghost use Rattle.yaml_terms.specs.Line.{no_marks, faulty as faulty_def, one_mark};
    ghost use Rattle.yaml_terms.specs.Line.{spoiled_value, with_fault, with_mark};
    ghost use Rattle.yaml_lines.specs.LineView.{line_view, mark_view, joined_lines};

    /// A line with nothing on it.
    pub fn empty(alloc: Global) -> Line
        ensures { line_view result ≡ no_marks }
    {
        Line {
            marks: Vec::new(alloc),
            fault: None,
        }
    }

    /// A line without marks, with a fault.
    pub fn faulty(alloc: Global, which: ProfileFault) -> Line
        ensures { line_view result ≡ faulty_def which }
    {
        Line {
            marks: Vec::new(alloc),
            fault: Some(which),
        }
    }

    /// A line with one mark.
    pub fn one(alloc: Global, mark: Mark, fault: Option<ProfileFault>) -> Result<Line, AllocError>
        ensures { IfOk result (λ l. line_view l ≡ one_mark (mark_view mark) fault) }
    {
        let mut marks = Vec::new(alloc);
        marks.push(mark)?;
        Ok(Line { marks, fault })
    }

    /// A value of no form, at its column.
    pub fn spoiled(alloc: Global, column: usize, which: ProfileFault) -> Result<Line, AllocError>
        ensures { IfOk result (λ l. line_view l ≡ spoiled_value column which) }
    {
        let node = Node::Scalar {
            text: ScalarText::of(Vec::new(alloc)),
            plain: true,
        };
        Line::one(alloc, Mark::Value(column, node), Some(which))
    }

    /// This line, and what stands behind it.
    pub fn with(self, rest: Line) -> Result<Line, AllocError>
        ensures { IfOk result (λ l. line_view l ≡ joined_lines (line_view self) (line_view rest)) }
    {
        let fault = earlier(self.fault, rest.fault);
        let marks = joined_marks(self.marks, rest.marks)?;
        Ok(Line { marks, fault })
    }

    /// This line behind a mark that has a fault of its own or none.
    pub(crate) fn behind(self, mark: Mark, own: Option<ProfileFault>) -> Result<Line, AllocError>
        ensures { IfOk result (λ l. line_view l
            ≡ with_mark (mark_view mark) (with_fault own (line_view self))) }
    {
        let fault = earlier(own, self.fault);
        let mut marks = self.marks;
        marks.insert(0, mark)?;
        Ok(Line { marks, fault })
    }
}

/// Marks, and those behind them. Most lines have marks in one of both alone.
fn joined_marks(marks: Vec<Mark>, more: Vec<Mark>) -> Result<Vec<Mark>, AllocError>
    ensures { IfOk result (λ v. v.items ≡ marks.items ++ more.items) }
{
    if marks.is_empty() {
        return Ok(more);
    }
    let mut marks = marks;
    let mut more = more;
    marks.append(&mut more)?;
    Ok(marks)
}
