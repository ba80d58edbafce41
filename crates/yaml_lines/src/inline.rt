//! Values and keys that end on their line.

ghost use Rattle.std.specs.Prelude.{◌≡◌, ℕ, ◌+◌, ◌^◌, ◌<◌, ◌≤◌, ◌==◌, length, ◌∷◌, IfOk, IfSome};
ghost use Rattle.std.specs.Prelude.{option_map};
ghost use Rattle.yaml_lines.specs.FlowView.{flow_view};
ghost use Rattle.yaml_terms.specs.Line.{is_plain_start as is_plain_start_def};
ghost use Rattle.yaml_terms.specs.Line.{stops_plain as stops_plain_def};
ghost use Rattle.yaml_terms.specs.Line.{plain_len as plain_len_def};
ghost use Rattle.yaml_terms.specs.Line.{plain_value as plain_value_def, is_quote as is_quote_def};
ghost use Rattle.yaml_terms.specs.Line.{escape_fault as escape_fault_def};
ghost use Rattle.yaml_terms.specs.Line.{quoted_value as quoted_value_def};
ghost use Rattle.yaml_terms.specs.Line.{flow_value as flow_value_def, empty_map as empty_map_def};
ghost use Rattle.yaml_terms.specs.Line.{chomping_of as chomping_of_def, is_sign as is_sign_def};
ghost use Rattle.yaml_terms.specs.Line.{is_digit as is_digit_def, header_tail as header_tail_def};
ghost use Rattle.yaml_terms.specs.Line.{header_value as header_value_def};
ghost use Rattle.yaml_terms.specs.Line.{indicator_fault as indicator_fault_def};
ghost use Rattle.yaml_terms.specs.Line.{inline_value as inline_value_def};
ghost use Rattle.yaml_terms.specs.Line.{quoted_key as quoted_key_def};
ghost use Rattle.yaml_terms.specs.Line.{plain_key_fault as plain_key_fault_def};
ghost use Rattle.yaml_terms.specs.Line.{plain_key as plain_key_def, key_of as key_of_def};
ghost use Rattle.yaml_lines.specs.LineView.{line_view, key_view};
ghost use Rattle.yaml_lines.specs.ScanView.{quoted_view};

use crate::bytes::{
    before, byte_at, ends_word, from, is_blank_byte, is_indicator, is_soft_indicator, is_tail,
    spaces, without_blanks, without_spaces,
};
use crate::flow::{Flow, end_fault, read_flow};
use crate::mark::{Line, Mark};
use crate::quoted::{Quoted, read_quoted};
use std::alloc::{AllocError, Global};
use yaml_terms::{Chomping, Node, ProfileFault, ScalarText, Style, earlier};

/// A key: its text, the bytes that it takes with its colon, and the fault that it has.
#[derive(Drop)]
pub(crate) struct Key {
    pub(crate) text: ScalarText,
    pub(crate) length: usize,
    pub(crate) fault: Option<ProfileFault>,
}

/// Whether a plain scalar begins with a byte.
pub(crate) fn is_plain_start(byte: u8, rest: &[u8]) -> bool
    ensures { result ≡ is_plain_start_def byte rest.now }
{
    !is_indicator(byte) && (!is_soft_indicator(byte) || !ends_word(rest))
}

/// Whether a plain scalar ends before a byte.
fn stops_plain(byte: u8, rest: &[u8]) -> bool
    ensures { result ≡ stops_plain_def byte rest.now }
{
    (byte == b':' && ends_word(rest)) || (is_blank_byte(byte) && byte_at(rest, 0) == b'#')
}

/// How many bytes a plain scalar takes.
pub(crate) fn plain_len(bytes: &[u8]) -> usize
    ensures value { result ≡ plain_len_def bytes.now }
    ensures within { result ≤ length bytes.now }
{
    for at in 0..bytes.len() {
        if stops_plain(bytes[at], from(bytes, at + 1)) {
            return at;
        }
    }
    bytes.len()
}

/// A plain value, to the end of its line.
fn plain_value(alloc: Global, column: usize, bytes: &[u8]) -> Result<Line, AllocError>
    ensures { IfOk result (λ l. line_view l ≡ plain_value_def column bytes.now) }
{
    let end = plain_len(bytes);
    if byte_at(bytes, end) == b':' {
        return Line::spoiled(alloc, column, ProfileFault::Colon);
    }
    let text = ScalarText::copy_of(alloc, without_blanks(before(bytes, end)))?;
    let node = Node::Scalar { text, plain: true };
    Line::one(alloc, Mark::Value(column, node), None)
}

/// A single or a double quote.
fn is_quote(byte: u8) -> bool
    ensures { result ≡ is_quote_def byte }
{
    byte == b'\'' || byte == b'"'
}

/// The fault of a quoted scalar with an escape that is none.
fn escape_fault(bad: bool) -> Option<ProfileFault>
    ensures { result ≡ escape_fault_def bad }
{
    if bad {
        Some(ProfileFault::Escape)
    } else {
        None
    }
}

/// A quoted value, with the bytes behind its first quote.
fn quoted_value(
    alloc: Global,
    column: usize,
    rest: &[u8],
    quoted: Option<Quoted>,
) -> Result<Line, AllocError>
    ensures { IfOk result (λ l. line_view l
        ≡ quoted_value_def column rest.now (option_map quoted_view quoted)) }
{
    match quoted {
        None => Line::spoiled(alloc, column, ProfileFault::Quote),
        Some(quoted) => {
            let fault = if is_tail(from(rest, quoted.length)) {
                escape_fault(quoted.bad)
            } else {
                Some(ProfileFault::Quote)
            };
            let node = Node::Scalar {
                text: ScalarText::of(quoted.text),
                plain: false,
            };
            Line::one(alloc, Mark::Value(column, node), fault)
        }
    }
}

/// A one-line list as a value.
fn flow_value(alloc: Global, column: usize, list: Flow) -> Result<Line, AllocError>
    ensures { IfOk result (λ l. line_view l ≡ flow_value_def column (flow_view list)) }
{
    match earlier(list.fault, end_fault(list.part)) {
        None => Line::one(alloc, Mark::Value(column, Node::List(list.items)), None),
        Some(which) => Line::spoiled(alloc, column, which),
    }
}

/// `{}`, with the bytes behind its first brace.
fn empty_map(alloc: Global, column: usize, rest: &[u8]) -> Result<Line, AllocError>
    ensures { IfOk result (λ l. line_view l ≡ empty_map_def column rest.now) }
{
    if byte_at(rest, 0) == b'}' && is_tail(from(rest, 1)) {
        Line::one(alloc, Mark::Value(column, Node::Map(Vec::new(alloc))), None)
    } else {
        Line::spoiled(alloc, column, ProfileFault::LeftOut)
    }
}

/// What a sign in a header says of the line feeds at the end.
fn chomping_of(byte: u8) -> Chomping
    ensures { result ≡ chomping_of_def byte }
{
    if byte == b'-' {
        Chomping::Strip
    } else if byte == b'+' {
        Chomping::Keep
    } else {
        Chomping::Clip
    }
}

/// A sign of a header.
fn is_sign(byte: u8) -> bool
    ensures { result ≡ is_sign_def byte }
{
    byte == b'-' || byte == b'+'
}

/// A decimal digit.
fn is_digit(byte: u8) -> bool
    ensures { result ≡ is_digit_def byte }
{
    48 <= byte && byte <= 57
}

/// A header, with the bytes behind its sign.
fn header_tail(alloc: Global, column: usize, style: Style, rest: &[u8]) -> Result<Line, AllocError>
    ensures { IfOk result (λ l. line_view l ≡ header_tail_def column style rest.now) }
{
    if is_digit(byte_at(rest, 0)) {
        Line::spoiled(alloc, column, ProfileFault::LeftOut)
    } else if is_tail(rest) {
        Line::one(alloc, Mark::Header(column, style), None)
    } else {
        Line::spoiled(alloc, column, ProfileFault::Colon)
    }
}

/// A header, with the bytes behind `|` or `>`.
fn header_value(alloc: Global, column: usize, folded: bool, rest: &[u8]) -> Result<Line, AllocError>
    ensures { IfOk result (λ l. line_view l ≡ header_value_def column folded rest.now) }
{
    let sign = byte_at(rest, 0);
    let style = Style {
        folded,
        chomping: chomping_of(sign),
    };
    let behind = if is_sign(sign) { 1 } else { 0 };
    header_tail(alloc, column, style, from(rest, behind))
}

/// The fault of a character that begins no value.
fn indicator_fault(byte: u8) -> ProfileFault
    ensures { result ≡ indicator_fault_def byte }
{
    if byte == b',' || byte == b']' || byte == b'}' {
        ProfileFault::FlowForm
    } else if byte == b'-' || byte == b':' {
        ProfileFault::Colon
    } else {
        ProfileFault::LeftOut
    }
}

/// A value that begins with a byte, with those behind it.
fn value_from(
    alloc: Global,
    column: usize,
    bytes: &[u8],
    byte: u8,
    rest: &[u8],
) -> Result<Line, AllocError>
    requires { bytes.now ≡ byte ∷ rest.now }
    ensures { IfOk result (λ l. line_view l ≡ inline_value_def column bytes.now) }
{
    if is_quote(byte) {
        quoted_value(alloc, column, rest, read_quoted(alloc, byte, rest)?)
    } else if is_plain_start(byte, rest) {
        plain_value(alloc, column, bytes)
    } else if byte == b'[' {
        flow_value(alloc, column, read_flow(alloc, rest)?)
    } else if byte == b'{' {
        empty_map(alloc, column, rest)
    } else if byte == b'|' || byte == b'>' {
        header_value(alloc, column, byte == b'>', rest)
    } else {
        Line::spoiled(alloc, column, indicator_fault(byte))
    }
}

/// A value at a column.
pub(crate) fn inline_value(alloc: Global, column: usize, bytes: &[u8]) -> Result<Line, AllocError>
    ensures { IfOk result (λ l. line_view l ≡ inline_value_def column bytes.now) }
{
    match bytes {
        [] => Ok(Line::empty(alloc)),
        [byte, rest @ ..] => value_from(alloc, column, bytes, *byte, rest),
    }
}

/// A quoted key, with the bytes behind its first quote: none where no colon follows it.
fn quoted_key(rest: &[u8], quoted: Option<Quoted>) -> Option<Key>
    requires { IfSome quoted (λ q. q.length ≤ length rest.now) }
    ensures value { option_map key_view result
        ≡ quoted_key_def rest.now (option_map quoted_view quoted) }
    ensures within { IfSome result (λ k. k.length ≤ length rest.now + 1) }
{
    match quoted {
        None => None,
        Some(quoted) => {
            let behind = from(rest, quoted.length);
            let blank = spaces(behind);
            if byte_at(behind, blank) == b':' && ends_word(from(behind, blank + 1)) {
                Some(Key {
                    text: ScalarText::of(quoted.text),
                    length: quoted.length + blank + 2,
                    fault: escape_fault(quoted.bad),
                })
            } else {
                None
            }
        }
    }
}

/// A plain key has no tab before its colon, and no colon at its end.
fn plain_key_fault(text: &[u8]) -> Option<ProfileFault>
    ensures { result ≡ plain_key_fault_def text.now }
{
    let last = byte_at(text, text.len().saturating_sub(1));
    if last == b'\t' || last == b':' {
        Some(ProfileFault::Colon)
    } else {
        None
    }
}

/// A plain key: none where no colon follows it.
fn plain_key(alloc: Global, bytes: &[u8]) -> Result<Option<Key>, AllocError>
    ensures value { IfOk result (λ k. option_map key_view k ≡ plain_key_def bytes.now) }
    ensures within { IfOk result (λ o. IfSome o (λ k. k.length ≤ length bytes.now)) }
{
    let end = plain_len(bytes);
    if byte_at(bytes, end) == b':' {
        let key = without_spaces(before(bytes, end));
        let fault = plain_key_fault(key);
        let text = ScalarText::copy_of(alloc, key)?;
        Ok(Some(Key {
            text,
            length: end + 1,
            fault,
        }))
    } else {
        Ok(None)
    }
}

/// A key that begins with a byte, with those behind it.
fn key_from(alloc: Global, bytes: &[u8], byte: u8, rest: &[u8]) -> Result<Option<Key>, AllocError>
    requires { bytes.now ≡ byte ∷ rest.now }
    ensures value { IfOk result (λ k. option_map key_view k ≡ key_of_def bytes.now) }
    ensures within { IfOk result (λ o. IfSome o (λ k. k.length ≤ length bytes.now)) }
{
    if is_quote(byte) {
        Ok(quoted_key(rest, read_quoted(alloc, byte, rest)?))
    } else if is_plain_start(byte, rest) {
        plain_key(alloc, bytes)
    } else {
        Ok(None)
    }
}

/// The key that begins here, if one does.
pub(crate) fn key_of(alloc: Global, bytes: &[u8]) -> Result<Option<Key>, AllocError>
    ensures value { IfOk result (λ k. option_map key_view k ≡ key_of_def bytes.now) }
    ensures within { IfOk result (λ o. IfSome o (λ k. k.length ≤ length bytes.now)) }
{
    match bytes {
        [] => Ok(None),
        [byte, rest @ ..] => key_from(alloc, bytes, *byte, rest),
    }
}
