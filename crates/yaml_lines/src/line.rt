//! A line by itself: its marks, and the first fault that it has.

ghost use Rattle.std.specs.Prelude.{◌≡◌, ◌+◌, ◌^◌, ◌<◌, ◌≤◌, length, IfOk, IfSome, option_map};
ghost use Rattle.std.specs.Prelude.{nat_eq};
ghost use Rattle.std.specs.List.{starts_with};
ghost use Rattle.yaml_terms.specs.Mark as keys;
ghost use Rattle.yaml_terms.specs.Line.{behind_colon as behind_colon_def};
ghost use Rattle.yaml_terms.specs.Line.{entry_or_value as entry_or_value_def};
ghost use Rattle.yaml_terms.specs.Line.{tab_fault as tab_fault_def, content as content_def};
ghost use Rattle.yaml_terms.specs.Line.{with_fault, with_mark};
ghost use Rattle.yaml_terms.specs.Line.{key_of as key_of_list};
ghost use Rattle.yaml_terms.specs.Line.{begins_as_marker as begins_as_marker_def};
ghost use Rattle.yaml_terms.specs.Line.{is_marker as is_marker_def};
ghost use Rattle.yaml_terms.specs.Line.{marker_line as marker_line_def};
ghost use Rattle.yaml_terms.specs.Line.{filled_line as filled_line_def, line_of as line_of_def};
ghost use Rattle.yaml_lines.specs.LineView.{line_view, key_view, mark_view, blank_seen, dash_seen};
ghost use Rattle.yaml_lines.specs.LineView.{ahead_of};

use crate::bytes::{
    blanks, byte_at, ends_word, from, has_control, is_blank, is_blank_byte, is_tail, spaces,
};
use crate::inline::{Key, inline_value, key_of};
use crate::mark::{Line, Mark};
use std::alloc::{AllocError, Global};
use yaml_terms::{ProfileFault, earlier};

/// What stands behind a key's colon.
fn behind_colon(alloc: Global, column: usize, bytes: &[u8]) -> Result<Line, AllocError>
    requires { column + length bytes.now < 2 ^ 64 }
    ensures { IfOk result (λ l. line_view l ≡ behind_colon_def column bytes.now) }
{
    let blank = blanks(bytes);
    if is_tail(bytes) {
        Ok(Line::empty(alloc))
    } else {
        inline_value(alloc, column + blank, from(bytes, blank))
    }
}

/// A key, and what stands behind its colon.
fn key_line(column: usize, key: Key, rest: Line) -> Result<Line, AllocError>
    ensures { IfOk result (λ l. line_view l
        ≡ with_mark (keys.key column key.text) (with_fault key.fault (line_view rest))) }
{
    let Key {
        text,
        length: _,
        fault,
    } = key;
    rest.behind(Mark::Key(column, text), fault)
}

/// The entry that a key begins, or a value where there is none.
fn entry_or_value(
    alloc: Global,
    column: usize,
    bytes: &[u8],
    key: Option<Key>,
) -> Result<Line, AllocError>
    requires fits { column + length bytes.now < 2 ^ 64 }
    requires within { IfSome key (λ k. k.length ≤ length bytes.now) }
    ensures { IfOk result (λ l. line_view l
        ≡ entry_or_value_def column bytes.now (option_map key_view key)) }
{
    match key {
        None => inline_value(alloc, column, bytes),
        Some(key) => {
            let length = key.length;
            let rest = behind_colon(alloc, column + length, from(bytes, length))?;
            key_line(column, key, rest)
        }
    }
}

/// The fault of a tab behind a dash.
fn tab_fault(byte: u8) -> Option<ProfileFault>
    ensures { result ≡ tab_fault_def byte }
{
    if byte == b'\t' {
        Some(ProfileFault::Tab)
    } else {
        None
    }
}

/// The line with a blank behind its dashes.
fn with_blank(line: Line, byte: u8) -> Line
    ensures { line_view result ≡ blank_seen (line_view line) byte }
{
    Line {
        marks: line.marks,
        fault: earlier(line.fault, tab_fault(byte)),
    }
}

/// The line with one more dash.
fn with_dash(line: Line, column: usize) -> Result<Line, AllocError>
    ensures { IfOk result (λ l. line_view l ≡ dash_seen (line_view line) column) }
{
    let mut marks = line.marks;
    marks.push(Mark::Dash(column))?;
    Ok(Line {
        marks,
        fault: line.fault,
    })
}

/// The entry or value from a column on.
fn entry(alloc: Global, column: usize, bytes: &[u8]) -> Result<Line, AllocError>
    requires { column + length bytes.now < 2 ^ 64 }
    ensures { IfOk result (λ l. line_view l
        ≡ entry_or_value_def column bytes.now (key_of_list bytes.now)) }
{
    let key = key_of(alloc, bytes)?;
    entry_or_value(alloc, column, bytes, key)
}

/// What a byte from which the rest of a line stands begins.
#[derive(Clone, Copy, Drop)]
pub(crate) enum Ahead {
    Blank,
    Comment,
    Dash,
    Entry,
}

/// What a byte and those behind it begin.
fn begun_by(byte: u8, rest: &[u8]) -> Ahead
    ensures { result ≡ ahead_of byte rest.now }
{
    if is_blank_byte(byte) {
        Ahead::Blank
    } else if byte == b'#' {
        Ahead::Comment
    } else if byte == b'-' && ends_word(rest) {
        Ahead::Dash
    } else {
        Ahead::Entry
    }
}

/// What stands from a column on: dashes, and an entry or a value.
fn content(alloc: Global, column: usize, bytes: &[u8]) -> Result<Line, AllocError>
    requires { column + length bytes.now < 2 ^ 64 }
    ensures { IfOk result (λ l. line_view l ≡ content_def column bytes.now) }
{
    let mut line = Line::empty(alloc);
    for at in 0..bytes.len() {
        match begun_by(bytes[at], from(bytes, at + 1)) {
            Ahead::Blank => line = with_blank(line, bytes[at]),
            Ahead::Comment => return Ok(line),
            Ahead::Dash => line = with_dash(line, column + at)?,
            Ahead::Entry => {
                let rest = entry(alloc, column + at, from(bytes, at))?;
                let whole = line.with(rest)?;
                return Ok(whole);
            }
        }
    }
    Ok(line)
}

/// Whether a line begins with three dashes or three dots.
fn begins_as_marker(line: &[u8]) -> bool
    ensures { result ≡ begins_as_marker_def line.now }
{
    line.starts_with(b"---") || line.starts_with(b"...")
}

/// Whether a line is `---` or `...`, and then a blank or nothing.
pub(crate) fn is_marker(line: &[u8]) -> bool
    ensures { result ≡ is_marker_def line.now }
{
    begins_as_marker(line) && ends_word(from(line, 3))
}

/// A marker, with the bytes behind it.
fn marker_line(alloc: Global, rest: &[u8]) -> Result<Line, AllocError>
    ensures { IfOk result (λ l. line_view l ≡ marker_line_def rest.now) }
{
    let blank = spaces(rest);
    if blank == rest.len() || byte_at(rest, blank) == b'#' {
        Line::one(alloc, Mark::Start, None)
    } else {
        Ok(Line::faulty(alloc, ProfileFault::LeftOut))
    }
}

/// A line that isn't blank.
fn filled_line(alloc: Global, line: &[u8]) -> Result<Line, AllocError>
    ensures { IfOk result (λ l. line_view l ≡ filled_line_def line.now) }
{
    let indent = spaces(line);
    let first = byte_at(line, indent);
    if first == b'#' {
        Ok(Line::empty(alloc))
    } else if is_marker(line) {
        marker_line(alloc, from(line, 3))
    } else if first == b'\t' {
        Ok(Line::faulty(alloc, ProfileFault::Tab))
    } else {
        content(alloc, indent, from(line, indent))
    }
}

/// A line that no block scalar takes.
pub fn line_of(alloc: Global, line: &[u8]) -> Result<Line, AllocError>
    ensures { IfOk result (λ l. line_view l ≡ line_of_def line.now) }
{
    if has_control(line) {
        Ok(Line::faulty(alloc, ProfileFault::Control))
    } else if is_blank(line) {
        Ok(Line::empty(alloc))
    } else {
        filled_line(alloc, line)
    }
}
