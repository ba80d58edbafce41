//! The canonical writing.

ghost use Rattle.std.specs.Prelude.{◌≡◌, ◌≤◌, ◌+◌, ◌*◌, ◌^◌, ℕ, false, ◌++◌, ◌∷◌, [], length, cond};
ghost use Rattle.std.specs.Prelude.{replicate, OnOk, OnErr};
ghost use Rattle.std.specs.List.{flat_map};
ghost use Rattle.slo_limits.specs.declared.TheConstants.{MAX_TEXT_BYTES};
ghost use Rattle.yaml_terms.specs.Profile.{max_depth};
ghost use Rattle.yaml_terms.specs.Text.{StandsFor};
ghost use Rattle.yaml_terms.specs.Spelling.{meant, spelled as spelled_def, escape_of, in_quotes};
ghost use Rattle.yaml_terms.specs.Spelling.{key_text, spaces as spaces_def, step, gap_at_colon};
ghost use Rattle.yaml_terms.specs.Spelling.{gap_at_dash, written, written_fields, written_items};
ghost use Rattle.yaml_terms.specs.Spelling.{writing, is_word};
ghost use Rattle.yaml_terms.specs.SpellingFits.{SpellingFits, FitFields, FitItems, IsWritable};
ghost use Rattle.yaml_terms.specs.NodeView.{node_view};
ghost use Rattle.yaml_terms.specs.SpellingView.{is_quoted, text_of, is_no_text as is_no_text_def};
ghost use Rattle.yaml_terms.specs.SpellingView.{has_lines as has_lines_def, spelling_view};
ghost use Rattle.yaml_terms.specs.SpellingView.{fields_view, items_view};

use crate::spelling::spelled;
use std::alloc::AllocError;
use yaml_terms::{FieldKey, MAX_DEPTH, Node, Spelling};

/// How many columns deeper a map or list stands than its key or dash.
pub(crate) const STEP: usize = 2;

/// Writes so many spaces.
fn write_spaces(out: &mut Vec<u8>, count: usize) -> Result<(), AllocError>
    ensures { OnOk result (out.new.items ≡ out.old.items ++ spaces_def count) }
{
    for done in 0..count {
        out.push(b' ')?;
    }
    Ok(())
}

/// Writes a byte of a text in double quotes.
fn write_escaped(out: &mut Vec<u8>, byte: u8) -> Result<(), AllocError>
    ensures { OnOk result (out.new.items ≡ out.old.items ++ escape_of byte) }
{
    if byte == b'\\' {
        out.extend_from_slice(b"\\\\")
    } else if byte == b'"' {
        out.extend_from_slice(b"\\\"")
    } else if byte == b'\n' {
        out.extend_from_slice(b"\\n")
    } else if byte == b'\t' {
        out.extend_from_slice(b"\\t")
    } else {
        Ok(out.push(byte)?)
    }
}

/// Writes a text in double quotes.
fn write_quoted(out: &mut Vec<u8>, text: &[u8]) -> Result<(), AllocError>
    ensures { OnOk result (out.new.items ≡ out.old.items ++ in_quotes text.now) }
{
    out.push(b'"')?;
    for byte in text {
        write_escaped(out, *byte)?;
    }
    Ok(out.push(b'"')?)
}

/// Writes the key of a field, without its colon.
fn write_key(out: &mut Vec<u8>, key: &FieldKey) -> Result<(), AllocError>
    ensures { OnOk result (out.new.items ≡ out.old.items
        ++ key_text (is_quoted key.now) (text_of key.now)) }
{
    match key {
        FieldKey::Plain(text) => out.extend_from_slice(text.as_bytes()),
        FieldKey::Quoted(text) => write_quoted(out, text.as_bytes()),
    }
}

/// Whether a value is the plain scalar of no text, which is written as nothing.
pub(crate) fn is_no_text(value: &Spelling) -> bool
    ensures { result ≡ is_no_text_def (spelling_view value.now) }
{
    match value {
        Spelling::Word(text) => text.as_bytes().is_empty(),
        _ => false,
    }
}

/// Whether a value has lines of its own behind a key: a map or list that isn't empty.
pub(crate) fn has_lines(value: &Spelling) -> bool
    ensures { result ≡ has_lines_def (spelling_view value.now) }
{
    match value {
        Spelling::Fields(fields) => !fields.is_empty(),
        Spelling::Items(items) => !items.is_empty(),
        _ => false,
    }
}

/// Writes what stands between the colon of a key at a column and its value.
fn write_gap_at_colon(out: &mut Vec<u8>, value: &Spelling, column: usize) -> Result<(), AllocError>
    requires { column ≤ 2 ^ 33 }
    ensures { OnOk result (out.new.items ≡ out.old.items
        ++ gap_at_colon column (spelling_view value.now)) }
{
    if is_no_text(value) {
        Ok(())
    } else if has_lines(value) {
        out.push(b'\n')?;
        write_spaces(out, column + STEP)
    } else {
        Ok(out.push(b' ')?)
    }
}

/// Writes what stands between a dash and its item.
fn write_gap_at_dash(out: &mut Vec<u8>, value: &Spelling) -> Result<(), AllocError>
    ensures { OnOk result (out.new.items ≡ out.old.items ++ gap_at_dash (spelling_view value.now)) }
{
    if is_no_text(value) {
        Ok(())
    } else {
        Ok(out.push(b' ')?)
    }
}

/// Writes a text that ends its line.
fn write_line(out: &mut Vec<u8>, text: &[u8]) -> Result<(), AllocError>
    ensures { OnOk result (out.new.items ≡ out.old.items ++ (text.now ++ (10 ∷ []))) }
{
    out.extend_from_slice(text)?;
    Ok(out.push(b'\n')?)
}

/// Writes a text in double quotes that ends its line.
fn write_quoted_line(out: &mut Vec<u8>, text: &[u8]) -> Result<(), AllocError>
    ensures { OnOk result (out.new.items ≡ out.old.items ++ (in_quotes text.now ++ (10 ∷ []))) }
{
    write_quoted(out, text)?;
    Ok(out.push(b'\n')?)
}

/// Writes a value at a column, where maps and lists may nest so many levels deep.
#[cycle(write)]
fn write_value(
    out: &mut Vec<u8>,
    value: &Spelling,
    column: usize,
    levels: usize,
) -> Result<(), AllocError>
    requires bounded { column + 2 * levels ≤ 2 ^ 33 }
    requires fits { SpellingFits levels (spelling_view value.now) }
    ensures { OnOk result (out.new.items ≡ out.old.items
        ++ written [] column (spelling_view value.now)) }
{
    match value {
        Spelling::Word(text) => write_line(out, text.as_bytes()),
        Spelling::Quoted(text) => write_quoted_line(out, text.as_bytes()),
        Spelling::Fields(fields) => {
            if fields.is_empty() {
                write_line(out, b"{}")
            } else {
                write_fields(out, fields, column, levels - 1)
            }
        }
        Spelling::Items(items) => {
            if items.is_empty() {
                write_line(out, b"[]")
            } else {
                write_items(out, items, column, levels - 1)
            }
        }
    }
}

/// Writes the fields of a map at a column; the first stands where the text is.
#[cycle(write)]
fn write_fields(
    out: &mut Vec<u8>,
    fields: &Vec<(FieldKey, Spelling)>,
    column: usize,
    levels: usize,
) -> Result<(), AllocError>
    requires bounded { column + 2 * levels + 2 ≤ 2 ^ 33 }
    requires fits { FitFields levels (fields_view fields.now.items) }
    ensures { OnOk result (out.new.items ≡ out.old.items
        ++ written_fields [] column (fields_view fields.now.items)) }
{
    let mut lead = 0;
    for field in fields {
        write_spaces(out, lead)?;
        write_key(out, &field.0)?;
        out.push(b':')?;
        write_gap_at_colon(out, &field.1, column)?;
        write_value(out, &field.1, column + STEP, levels)?;
        lead = column;
    }
    Ok(())
}

/// Writes the items of a list at a column; the first stands where the text is.
#[cycle(write)]
fn write_items(
    out: &mut Vec<u8>,
    items: &Vec<Spelling>,
    column: usize,
    levels: usize,
) -> Result<(), AllocError>
    requires bounded { column + 2 * levels + 2 ≤ 2 ^ 33 }
    requires fits { FitItems levels (items_view items.now.items) }
    ensures { OnOk result (out.new.items ≡ out.old.items
        ++ written_items [] column (items_view items.now.items)) }
{
    let mut lead = 0;
    for item in items {
        write_spaces(out, lead)?;
        out.push(b'-')?;
        write_gap_at_dash(out, item)?;
        write_value(out, item, column + STEP, levels)?;
        lead = column;
    }
    Ok(())
}

/// Appends the text of a value, as it is spelled, with so many spaces before each line; each line
/// ends with a line feed. The value is one that can be written: its texts are UTF-8, have no
/// control characters but tabs and line feeds, and are read as they stand where they are plain; no
/// key comes twice in a map, and maps and lists nest at most 32 deep.
///
/// With no spaces, the text of a value that isn't a plain scalar stands for its node alone, where
/// it has at most `MAX_TEXT_BYTES` bytes. The error is want of memory, and leaves all as it was.
pub fn write_spelling(out: &mut Vec<u8>, value: &Spelling, indent: u32) -> Result<(), AllocError>
    requires { SpellingFits max_depth (spelling_view value.now) }
    ensures exact { OnOk result (out.new.items
        ≡ out.old.items ++ writing indent (spelling_view value.now)) }
    ensures kept { OnErr result (out.new.items ≡ out.old.items) }

    // What is written with no spaces before its lines stands for the node alone.
    ensures alone { OnOk result (indent ≡ 0 → is_word (spelling_view value.now) ≡ false
        → length (writing indent (spelling_view value.now)) ≤ MAX_TEXT_BYTES
        → StandsFor (writing indent (spelling_view value.now))
        (meant (spelling_view value.now) ∷ [])) }
{
    let mut text = Vec::new(*out.allocator());
    let column = indent as usize;
    write_spaces(&mut text, column)?;
    write_value(&mut text, value, column, MAX_DEPTH)?;
    out.extend_from_slice(text.as_slice())
}

/// Appends the canonical writing of a node, with so many spaces before each line: keys in double
/// quotes, plain scalars plain, other scalars in double quotes, and maps and lists two columns
/// deeper than their key or dash. Each line ends with a line feed. A node that stands in a text can
/// be written.
///
/// With no spaces, the text of a node that isn't a plain scalar stands for it alone, where it has
/// at most `MAX_TEXT_BYTES` bytes. The error is want of memory, and leaves all as it was.
pub fn write_node(out: &mut Vec<u8>, node: &Node, indent: u32) -> Result<(), AllocError>
    requires { IsWritable (node_view node.now) }
    ensures exact { OnOk result (out.new.items
        ≡ out.old.items ++ writing indent (spelled_def (node_view node.now))) }
    ensures kept { OnErr result (out.new.items ≡ out.old.items) }

    // What is written with no spaces before its lines stands for the node alone.
    ensures alone { OnOk result (indent ≡ 0 → is_word (spelled_def (node_view node.now)) ≡ false
        → length (writing indent (spelled_def (node_view node.now))) ≤ MAX_TEXT_BYTES
        → StandsFor (writing indent (spelled_def (node_view node.now))) (node_view node.now ∷ [])) }
{
    let value = spelled(*out.allocator(), node)?;
    write_spelling(out, &value, indent)
}
