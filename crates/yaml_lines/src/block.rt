//! Block scalars, line by line.

ghost use Rattle.std.specs.Prelude.{◌≡◌, ℕ, suc, ◌++◌, replicate, IfOk, Some};
ghost use Rattle.yaml_terms.specs.Block.{joint as joint_def, ending as ending_def};
ghost use Rattle.yaml_terms.specs.Block.{ended_text, with_line as with_line_def};
ghost use Rattle.yaml_terms.specs.Block.{filled_block, no_lines};
ghost use Rattle.yaml_lines.specs.BlockView.{block_view};

use crate::bytes::{from, is_blank, spaces};
use std::alloc::{AllocError, Global};
use yaml_terms::{Chomping, Style};

/// A block scalar so far: its text up to its last line that isn't blank, and the blank lines after
/// it.
#[derive(Drop)]
pub struct Block {
    pub style: Style,
    /// The content's indentation, once a line has set it.
    pub indent: Option<usize>,
    pub text: Vec<u8>,
    pub blanks: usize,
}

/// The text with line feeds at its end.
fn with_line_feeds(text: Vec<u8>, count: usize) -> Result<Vec<u8>, AllocError>
    ensures { IfOk result (λ t. t.items ≡ text.items ++ replicate count 10) }
{
    let mut text = text;
    for done in 0..count {
        text.push(b'\n')?;
    }
    Ok(text)
}

/// The text with one line feed more than so many.
#[tactic(auto, using(yaml_terms::proofs::BlockLemmas::one_line_feed))]
fn with_more_feeds(text: Vec<u8>, count: usize) -> Result<Vec<u8>, AllocError>
    ensures { IfOk result (λ t. t.items ≡ text.items ++ replicate (suc count) 10) }
{
    let mut text = with_line_feeds(text, count)?;
    text.push(b'\n')?;
    Ok(text)
}

/// The text with what joins the next line to it.
fn with_joint(text: Vec<u8>, folded: bool, blanks: usize) -> Result<Vec<u8>, AllocError>
    ensures { IfOk result (λ t. t.items ≡ text.items ++ joint_def folded blanks) }
{
    if folded && blanks == 0 {
        let mut text = text;
        text.push(b' ')?;
        Ok(text)
    } else if folded {
        with_line_feeds(text, blanks)
    } else {
        with_more_feeds(text, blanks)
    }
}

/// The text with its end.
fn with_ending(text: Vec<u8>, chomping: Chomping, blanks: usize) -> Result<Vec<u8>, AllocError>
    ensures { IfOk result (λ t. t.items ≡ text.items ++ ending_def chomping blanks) }
{
    match chomping {
        Chomping::Strip => Ok(text),
        Chomping::Clip => with_more_feeds(text, 0),
        Chomping::Keep => with_more_feeds(text, blanks),
    }
}

/// The text with these bytes behind it.
fn with_bytes(text: Vec<u8>, bytes: &[u8]) -> Result<Vec<u8>, AllocError>
    ensures { IfOk result (λ t. t.items ≡ text.items ++ bytes.now) }
{
    let mut text = text;
    text.extend_from_slice(bytes)?;
    Ok(text)
}

impl Block {
    /// A block scalar of which no line is read.
    pub fn new(alloc: Global, style: Style) -> Block
        ensures { block_view result ≡ no_lines style }
    {
        Block {
            style,
            indent: None,
            text: Vec::new(alloc),
            blanks: 0,
        }
    }

    /// The scalar with a line that isn't blank, at the indentation that the line sets.
    #[tactic(auto, using(std::proofs::Common::append_assoc))]
    fn with_first(self, line: &[u8]) -> Result<Block, AllocError>
        requires { self.indent ≡ None }
        ensures { IfOk result (λ b. block_view b ≡ filled_block (block_view self) line.now) }
    {
        let indent = spaces(line);
        let text = with_line_feeds(self.text, self.blanks)?;
        let text = with_bytes(text, from(line, indent))?;
        Ok(Block {
            style: self.style,
            indent: Some(indent),
            text,
            blanks: 0,
        })
    }

    /// The scalar with a further line that isn't blank, behind the indentation of its content.
    #[tactic(auto, using(std::proofs::Common::append_assoc))]
    fn with_next(self, line: &[u8], indent: usize) -> Result<Block, AllocError>
        requires { self.indent ≡ Some indent }
        ensures { IfOk result (λ b. block_view b ≡ filled_block (block_view self) line.now) }
    {
        let text = with_joint(self.text, self.style.folded, self.blanks)?;
        let text = with_bytes(text, from(line, indent))?;
        Ok(Block {
            style: self.style,
            indent: self.indent,
            text,
            blanks: 0,
        })
    }

    /// The scalar with a line that isn't blank.
    fn with_filled(self, line: &[u8]) -> Result<Block, AllocError>
        ensures { IfOk result (λ b. block_view b ≡ filled_block (block_view self) line.now) }
    {
        match self.indent {
            None => self.with_first(line),
            Some(indent) => self.with_next(line, indent),
        }
    }

    /// The scalar with one more line.
    pub fn with_line(self, line: &[u8]) -> Result<Block, AllocError>
        ensures { IfOk result (λ b. block_view b ≡ with_line_def (block_view self) line.now) }
    {
        if is_blank(line) {
            // No memory holds a text of so many lines.
            match self.blanks.checked_add(1) {
                None => Err(AllocError),
                Some(blanks) => Ok(Block {
                    style: self.style,
                    indent: self.indent,
                    text: self.text,
                    blanks,
                }),
            }
        } else {
            self.with_filled(line)
        }
    }

    /// The text, once the scalar has ended.
    pub fn ended(self, alloc: Global) -> Result<Vec<u8>, AllocError>
        ensures { IfOk result (λ t. t.items ≡ ended_text (block_view self)) }
    {
        match self.indent {
            Some(_) => with_ending(self.text, self.style.chomping, self.blanks),
            None => match self.style.chomping {
                Chomping::Keep => with_line_feeds(Vec::new(alloc), self.blanks),
                Chomping::Clip => Ok(Vec::new(alloc)),
                Chomping::Strip => Ok(Vec::new(alloc)),
            },
        }
    }
}
