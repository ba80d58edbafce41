//! What a block scalar takes of the next line.

ghost use Rattle.std.specs.Prelude.{◌≡◌, Some};
ghost use Rattle.yaml_terms.specs.Text.{is_content as is_content_def, takes as takes_def};
ghost use Rattle.yaml_terms.specs.Block.{indent_of as indent_of_def};
ghost use Rattle.yaml_terms.specs.Text.{behind_indent as behind_indent_def};
ghost use Rattle.yaml_terms.specs.Text.{is_more_indented as is_more_indented_def};
ghost use Rattle.yaml_terms.specs.Text.{has_early_tab as has_early_tab_def};
ghost use Rattle.yaml_terms.specs.Text.{raw_fault as raw_fault_def};
ghost use Rattle.yaml_terms.specs.Text.{scalar_with as scalar_with_def};

use crate::bytes::{blanks, from, has_control, is_blank, spaces};
use crate::line::is_marker;
use yaml_terms::{ProfileFault, Scalar};

/// Whether content may stand at an indentation.
fn is_content(scalar: Scalar, at: usize) -> bool
    ensures { result ≡ is_content_def scalar at }
{
    match scalar.indent {
        Some(indent) => indent <= at,
        None => match scalar.parent {
            Some(column) => column < at,
            None => true,
        },
    }
}

/// Whether a line belongs to the scalar.
fn takes_line(scalar: Scalar, line: &[u8]) -> bool
    ensures { result ≡ takes_def (Some scalar) line.now }
{
    !is_marker(line) && (is_blank(line) || is_content(scalar, spaces(line)))
}

/// Whether a line belongs to the open block scalar, if there is one.
pub fn takes(scalar: Option<Scalar>, line: &[u8]) -> bool
    ensures { result ≡ takes_def scalar line.now }
{
    match scalar {
        None => false,
        Some(scalar) => takes_line(scalar, line),
    }
}

/// The indentation of the content, which the line sets where none has set it.
fn indent_of(indent: Option<usize>, line: &[u8]) -> usize
    ensures { result ≡ indent_of_def indent line.now }
{
    match indent {
        Some(indent) => indent,
        None => spaces(line),
    }
}

/// Whether a line goes further in than the content, where lines are folded.
fn is_more_indented(scalar: Scalar, line: &[u8]) -> bool
    ensures { result ≡ is_more_indented_def scalar line.now }
{
    let behind = from(line, indent_of(scalar.indent, line));
    scalar.folded && !is_blank(line) && 1 <= blanks(behind)
}

/// Whether a tab stands before the first character that is no blank.
fn has_early_tab(line: &[u8]) -> bool
    ensures { result ≡ has_early_tab_def line.now }
{
    !(blanks(line) == spaces(line))
}

/// The fault of a line that the scalar takes.
pub fn raw_fault(scalar: Scalar, line: &[u8]) -> Option<ProfileFault>
    ensures { result ≡ raw_fault_def scalar line.now }
{
    if has_control(line) {
        Some(ProfileFault::Control)
    } else if is_more_indented(scalar, line) {
        if has_early_tab(line) {
            Some(ProfileFault::Tab)
        } else {
            Some(ProfileFault::LeftOut)
        }
    } else {
        None
    }
}

/// The scalar with one more line.
pub fn scalar_with(line: &[u8], scalar: Scalar) -> Scalar
    ensures { result ≡ scalar_with_def line.now scalar }
{
    if is_blank(line) {
        scalar
    } else {
        Scalar {
            parent: scalar.parent,
            indent: Some(indent_of(scalar.indent, line)),
            folded: scalar.folded,
        }
    }
}
