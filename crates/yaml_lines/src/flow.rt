//! One-line lists, byte by byte.

ghost use Rattle.std.specs.Prelude.{◌≡◌, IfOk, [], ◌∷◌};
ghost use Rattle.yaml_terms.specs.Flow.{flow_start, is_left_out as is_left_out_def};
ghost use Rattle.yaml_terms.specs.Flow.{is_flow_start as is_flow_start_def};
ghost use Rattle.yaml_terms.specs.Flow.{byte_fault as byte_fault_def, flow_fault, flow_part};
ghost use Rattle.yaml_terms.specs.Flow.{flow_item, flow_more, flow_quoted, flow_scalar};
ghost use Rattle.yaml_terms.specs.Flow.{flow_plain, colon_end as colon_end_def};
ghost use Rattle.yaml_terms.specs.Flow.{in_closed as in_closed_def, in_want as in_want_def};
ghost use Rattle.yaml_terms.specs.Flow.{in_plain as in_plain_def, in_single as in_single_def};
ghost use Rattle.yaml_terms.specs.Flow.{in_double as in_double_def, in_escape as in_escape_def};
ghost use Rattle.yaml_terms.specs.Flow.{in_after as in_after_def, in_broken as in_broken_def};
ghost use Rattle.yaml_terms.specs.Flow.{begins_comment as begins_comment_def};
ghost use Rattle.yaml_terms.specs.Flow.{flow_at as flow_at_def, flow_step, flow};
ghost use Rattle.yaml_terms.specs.Flow.{end_fault as end_fault_def};
ghost use Rattle.yaml_lines.specs.FlowView.{flow_view};

use crate::bytes::{
    byte_at, is_blank_byte, is_flow_indicator, is_indicator, is_soft_indicator, without_blanks,
};
use crate::quoted::escaped;
use std::alloc::{AllocError, Global};
use yaml_terms::{Node, Part, ProfileFault, ScalarText, earlier};

/// A one-line list so far: the text of the item where the reading stands, the finished items, and
/// the first fault so far.
#[derive(Drop)]
pub(crate) struct Flow {
    pub(crate) part: Part,
    pub(crate) text: Vec<u8>,
    pub(crate) items: Vec<Node>,
    pub(crate) fault: Option<ProfileFault>,
}

/// One of `&*!%@` and the backquote, which this profile leaves out.
fn is_left_out(byte: u8) -> bool
    ensures { result ≡ is_left_out_def byte }
{
    byte == b'&' || byte == b'*' || byte == b'!' || byte == b'%' || byte == b'@' || byte == b'`'
}

/// Whether a plain item begins with a byte; `next` is 0 at the line's end.
fn is_flow_start(byte: u8, next: u8) -> bool
    ensures { result ≡ is_flow_start_def byte next }
{
    !is_indicator(byte)
        && (!is_soft_indicator(byte)
            || !(next == 0 || is_blank_byte(next) || is_flow_indicator(next)))
}

/// The fault of a byte with which no item can begin.
fn byte_fault(byte: u8, next: u8) -> ProfileFault
    ensures { result ≡ byte_fault_def byte next }
{
    if byte == b'['
        || (byte == b'{' && !(next == b'}'))
        || is_left_out(byte)
        || (byte == b'?' && is_blank_byte(next))
    {
        ProfileFault::LeftOut
    } else {
        ProfileFault::FlowForm
    }
}

/// The first fault of a list, where a plain item ends with a colon.
fn colon_end(fault: Option<ProfileFault>, text: &[u8]) -> Option<ProfileFault>
    ensures { result ≡ colon_end_def fault text.now }
{
    if byte_at(text, text.len().saturating_sub(1)) == b':' {
        earlier(fault, Some(ProfileFault::FlowForm))
    } else {
        fault
    }
}

/// Whether a comment begins inside the list.
fn begins_comment(part: Part, byte: u8, next: u8) -> bool
    ensures { result ≡ begins_comment_def part byte next }
{
    match part {
        Part::Want => is_blank_byte(byte) && next == b'#',
        Part::Plain => is_blank_byte(byte) && next == b'#',
        Part::After => is_blank_byte(byte) && next == b'#',
        Part::Broken => is_blank_byte(byte) && next == b'#',
        _ => false,
    }
}

/// The fault of a list whose line ends there.
pub(crate) fn end_fault(part: Part) -> Option<ProfileFault>
    ensures { result ≡ end_fault_def part }
{
    match part {
        Part::Closed => None,
        Part::Over => None,
        Part::Single => Some(ProfileFault::Quote),
        Part::Doubled => Some(ProfileFault::Quote),
        Part::Double => Some(ProfileFault::Quote),
        Part::Escape => Some(ProfileFault::Quote),
        _ => Some(ProfileFault::FlowForm),
    }
}

impl Flow {
    /// Nothing is read behind the opening bracket.
    fn new(alloc: Global) -> Flow
        ensures { flow_view result ≡ flow_start }
    {
        Flow {
            part: Part::Want,
            text: Vec::new(alloc),
            items: Vec::new(alloc),
            fault: None,
        }
    }

    /// The reading goes on at another part, with one more fault.
    fn with_fault(self, part: Part, which: ProfileFault) -> Flow
        ensures { flow_view result ≡ flow_fault (flow_view self) part which }
    {
        Flow {
            part,
            text: self.text,
            items: self.items,
            fault: earlier(self.fault, Some(which)),
        }
    }

    /// The reading goes on at another part.
    fn at(self, part: Part) -> Flow
        ensures { flow_view result ≡ flow_part (flow_view self) part }
    {
        Flow {
            part,
            text: self.text,
            items: self.items,
            fault: self.fault,
        }
    }

    /// An item begins with this text.
    fn with_text(self, part: Part, text: Vec<u8>) -> Flow
        ensures { flow_view result ≡ flow_item (flow_view self) part text.items }
    {
        Flow {
            part,
            text,
            items: self.items,
            fault: self.fault,
        }
    }

    /// The item's text gets one more byte.
    fn more(self, part: Part, byte: u8) -> Result<Flow, AllocError>
        ensures { IfOk result (λ s. flow_view s ≡ flow_more (flow_view self) part byte) }
    {
        let mut text = self.text;
        text.push(byte)?;
        Ok(Flow {
            part,
            text,
            items: self.items,
            fault: self.fault,
        })
    }

    /// A quoted item ends.
    fn quoted_item(self, alloc: Global) -> Result<Flow, AllocError>
        ensures { IfOk result (λ s. flow_view s ≡ flow_quoted (flow_view self)) }
    {
        let mut items = self.items;
        items.push(Node::Scalar {
            text: ScalarText::of(self.text),
            plain: false,
        })?;
        Ok(Flow {
            part: Part::After,
            text: Vec::new(alloc),
            items,
            fault: self.fault,
        })
    }

    /// A plain item ends with this text.
    fn plain_scalar(self, alloc: Global, part: Part, text: Vec<u8>) -> Result<Flow, AllocError>
        ensures { IfOk result (λ s. flow_view s ≡ flow_scalar (flow_view self) part text.items) }
    {
        let fault = colon_end(self.fault, &text);
        let mut items = self.items;
        items.push(Node::Scalar {
            text: ScalarText::of(text),
            plain: true,
        })?;
        Ok(Flow {
            part,
            text: Vec::new(alloc),
            items,
            fault,
        })
    }

    /// A plain item ends, without the blanks at its end.
    fn plain_item(self, alloc: Global, part: Part) -> Result<Flow, AllocError>
        ensures { IfOk result (λ s. flow_view s ≡ flow_plain (flow_view self) part) }
    {
        let text = Vec::from_slice(alloc, without_blanks(&self.text))?;
        self.plain_scalar(alloc, part, text)
    }

    /// One more byte behind the closing bracket.
    fn in_closed(self, byte: u8, next: u8) -> Flow
        ensures { flow_view result ≡ in_closed_def (flow_view self) byte next }
    {
        if is_blank_byte(byte) {
            if next == b'#' {
                self.at(Part::Over)
            } else {
                self
            }
        } else {
            self.with_fault(Part::Over, ProfileFault::FlowForm)
        }
    }

    /// One more byte where an item, or the closing bracket, may begin.
    fn in_want(self, alloc: Global, byte: u8, next: u8) -> Result<Flow, AllocError>
        ensures { IfOk result (λ s. flow_view s ≡ in_want_def (flow_view self) byte next) }
    {
        if is_blank_byte(byte) {
            Ok(self)
        } else if byte == b']' {
            Ok(self.at(Part::Closed))
        } else if byte == b',' {
            Ok(self.with_fault(Part::Want, ProfileFault::FlowForm))
        } else if byte == b'\'' {
            Ok(self.with_text(Part::Single, Vec::new(alloc)))
        } else if byte == b'"' {
            Ok(self.with_text(Part::Double, Vec::new(alloc)))
        } else if is_flow_start(byte, next) {
            let text = Vec::from_slice(alloc, &[byte])?;
            Ok(self.with_text(Part::Plain, text))
        } else {
            Ok(self.with_fault(Part::Broken, byte_fault(byte, next)))
        }
    }

    /// One more byte within a plain item.
    fn in_plain(self, alloc: Global, byte: u8, next: u8) -> Result<Flow, AllocError>
        ensures { IfOk result (λ s. flow_view s ≡ in_plain_def (flow_view self) byte next) }
    {
        if byte == b',' {
            self.plain_item(alloc, Part::Want)
        } else if byte == b']' {
            self.plain_item(alloc, Part::Closed)
        } else if is_flow_indicator(byte) {
            Ok(self.with_fault(Part::Plain, byte_fault(byte, next)))
        } else if byte == b':' && is_blank_byte(next) {
            Ok(self.with_fault(Part::Plain, ProfileFault::FlowForm))
        } else {
            self.more(Part::Plain, byte)
        }
    }

    /// One more byte within a single-quoted item.
    fn in_single(self, alloc: Global, byte: u8, next: u8) -> Result<Flow, AllocError>
        ensures { IfOk result (λ s. flow_view s ≡ in_single_def (flow_view self) byte next) }
    {
        if byte == b'\'' {
            if next == b'\'' {
                self.more(Part::Doubled, b'\'')
            } else {
                self.quoted_item(alloc)
            }
        } else {
            self.more(Part::Single, byte)
        }
    }

    /// One more byte within a double-quoted item.
    fn in_double(self, alloc: Global, byte: u8) -> Result<Flow, AllocError>
        ensures { IfOk result (λ s. flow_view s ≡ in_double_def (flow_view self) byte) }
    {
        if byte == b'"' {
            self.quoted_item(alloc)
        } else if byte == b'\\' {
            Ok(self.at(Part::Escape))
        } else {
            self.more(Part::Double, byte)
        }
    }

    /// The byte behind a backslash: what the two stand for, if they are an escape.
    fn in_escape(self, meant: Option<u8>) -> Result<Flow, AllocError>
        ensures { IfOk result (λ s. flow_view s ≡ in_escape_def (flow_view self) meant) }
    {
        match meant {
            Some(byte) => self.more(Part::Double, byte),
            None => Ok(self.with_fault(Part::Double, ProfileFault::Escape)),
        }
    }

    /// One more byte behind a quoted item.
    fn in_after(self, byte: u8, next: u8) -> Flow
        ensures { flow_view result ≡ in_after_def (flow_view self) byte next }
    {
        if is_blank_byte(byte) {
            self
        } else if byte == b',' {
            self.at(Part::Want)
        } else if byte == b']' {
            self.at(Part::Closed)
        } else {
            let fault = if is_flow_indicator(byte) {
                byte_fault(byte, next)
            } else {
                ProfileFault::Quote
            };
            self.with_fault(Part::Broken, ProfileFault::Quote)
                .with_fault(Part::Broken, fault)
        }
    }

    /// One more byte within something that is no item.
    fn in_broken(self, byte: u8, next: u8) -> Flow
        ensures { flow_view result ≡ in_broken_def (flow_view self) byte next }
    {
        if byte == b',' {
            self.at(Part::Want)
        } else if byte == b']' {
            self.at(Part::Closed)
        } else if is_flow_indicator(byte) {
            self.with_fault(Part::Broken, byte_fault(byte, next))
        } else {
            self
        }
    }

    /// One more byte that begins no comment.
    fn within(self, alloc: Global, byte: u8, next: u8) -> Result<Flow, AllocError>
        ensures { IfOk result (λ s. flow_view s
            ≡ flow_at_def self.part (flow_view self) byte next) }
    {
        match self.part {
            Part::Want => self.in_want(alloc, byte, next),
            Part::Plain => self.in_plain(alloc, byte, next),
            Part::Single => self.in_single(alloc, byte, next),
            Part::Doubled => Ok(self.at(Part::Single)),
            Part::Double => self.in_double(alloc, byte),
            Part::Escape => self.in_escape(escaped(byte)),
            Part::After => Ok(self.in_after(byte, next)),
            Part::Broken => Ok(self.in_broken(byte, next)),
            Part::Closed => Ok(self.in_closed(byte, next)),
            Part::Over => Ok(self),
        }
    }

    /// One more byte.
    fn step(self, alloc: Global, byte: u8, next: u8) -> Result<Flow, AllocError>
        ensures { IfOk result (λ s. flow_view s ≡ flow_step (flow_view self) byte next) }
    {
        if begins_comment(self.part, byte, next) {
            Ok(self.with_fault(Part::Over, ProfileFault::FlowForm))
        } else {
            self.within(alloc, byte, next)
        }
    }
}

/// Reads a one-line list behind its opening bracket, to the line's end.
#[tactic(auto, using(crate::proofs::ScanLemmas::flow_more_of))]
pub(crate) fn read_flow(alloc: Global, bytes: &[u8]) -> Result<Flow, AllocError>
    ensures { IfOk result (λ s. flow_view s ≡ flow flow_start bytes.now) }
{
    let mut list = Flow::new(alloc);
    for at in 0..bytes.len() {
        list = list.step(alloc, bytes[at], byte_at(bytes, at + 1))?;
    }
    Ok(list)
}
