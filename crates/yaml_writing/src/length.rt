//! The length of a writing, without writing it.

ghost use Rattle.std.specs.Prelude.{◌≡◌, ◌≤◌, ◌+◌, ◌*◌, ◌^◌, Some, [], ◌∷◌, length};
ghost use Rattle.std.specs.List.{count_by};
ghost use Rattle.yaml_terms.specs.Profile.{max_depth};
ghost use Rattle.yaml_terms.specs.Spelling.{in_quotes, key_text, gap_at_colon, gap_at_dash};
ghost use Rattle.yaml_terms.specs.Spelling.{written, written_fields, written_items, writing};
ghost use Rattle.yaml_terms.specs.SpellingFits.{SpellingFits, FitFields, FitItems};
ghost use Rattle.yaml_terms.specs.Room.{is_escaped as is_escaped_def, room_behind, up_to};
ghost use Rattle.yaml_terms.specs.SpellingView.{is_quoted, text_of, spelling_view};
ghost use Rattle.yaml_terms.specs.SpellingView.{fields_view, items_view};

use crate::write::{STEP, has_lines, is_no_text};
use yaml_terms::{FieldKey, MAX_DEPTH, Spelling};

/// The room that is left behind so many bytes more.
fn behind(room: Option<usize>, count: usize) -> Option<usize>
    ensures { result ≡ room_behind room count }
{
    match room {
        Some(room) => room.checked_sub(count),
        None => None,
    }
}

/// Whether a byte is written as two in double quotes.
fn is_escaped(byte: u8) -> bool
    ensures { result ≡ is_escaped_def byte }
{
    byte == b'\\' || byte == b'"' || byte == b'\n' || byte == b'\t'
}

/// How many bytes of a text are written as two.
fn escapes(text: &[u8]) -> usize
    ensures { result ≡ count_by is_escaped_def text.now }
{
    text.iter().filter(|byte| is_escaped(**byte)).count()
}

/// The room behind a text in double quotes.
#[tactic(auto, using(crate::proofs::RoomLemmas::behind_quotes))]
fn behind_quoted(room: Option<usize>, text: &[u8]) -> Option<usize>
    ensures { result ≡ room_behind room (length (in_quotes text.now)) }
{
    let bare = behind(behind(room, 2), text.len());
    behind(bare, escapes(text))
}

/// The room behind the key of a field, without its colon.
fn behind_key(room: Option<usize>, key: &FieldKey) -> Option<usize>
    ensures { result ≡ room_behind room (length (key_text (is_quoted key.now) (text_of key.now))) }
{
    match key {
        FieldKey::Plain(text) => behind(room, text.as_bytes().len()),
        FieldKey::Quoted(text) => behind_quoted(room, text.as_bytes()),
    }
}

/// How many bytes stand between the colon of a key at a column and its value.
fn gap_behind_colon(value: &Spelling, column: usize) -> usize
    requires { column ≤ 2 ^ 33 }
    ensures { result ≡ length (gap_at_colon column (spelling_view value.now)) }
{
    if is_no_text(value) {
        0
    } else if has_lines(value) {
        1 + column + STEP
    } else {
        1
    }
}

/// How many bytes stand between a dash and its item.
fn gap_behind_dash(value: &Spelling) -> usize
    ensures { result ≡ length (gap_at_dash (spelling_view value.now)) }
{
    if is_no_text(value) { 0 } else { 1 }
}

/// The room behind a value at a column, where maps and lists may nest so many levels deep.
#[cycle(length)]
fn behind_value(
    room: Option<usize>,
    value: &Spelling,
    column: usize,
    levels: usize,
) -> Option<usize>
    requires bounded { column + 2 * levels ≤ 2 ^ 33 }
    requires fits { SpellingFits levels (spelling_view value.now) }
    ensures { result ≡ room_behind room (length (written [] column (spelling_view value.now))) }
{
    match value {
        Spelling::Word(text) => behind(behind(room, text.as_bytes().len()), 1),
        Spelling::Quoted(text) => behind(behind_quoted(room, text.as_bytes()), 1),
        Spelling::Fields(fields) => {
            if fields.is_empty() {
                behind(room, 3)
            } else {
                behind_fields(room, fields, column, levels - 1)
            }
        }
        Spelling::Items(items) => {
            if items.is_empty() {
                behind(room, 3)
            } else {
                behind_items(room, items, column, levels - 1)
            }
        }
    }
}

/// The room behind the fields of a map at a column; it stops where there is none.
#[cycle(length)]
fn behind_fields(
    room: Option<usize>,
    fields: &Vec<(FieldKey, Spelling)>,
    column: usize,
    levels: usize,
) -> Option<usize>
    requires bounded { column + 2 * levels + 2 ≤ 2 ^ 33 }
    requires fits { FitFields levels (fields_view fields.now.items) }
    ensures { result ≡ room_behind room
        (length (written_fields [] column (fields_view fields.now.items))) }
{
    let mut left = room;
    let mut lead = 0;
    for field in fields {
        if left.is_none() {
            return None;
        }
        left = behind_key(behind(left, lead), &field.0);
        left = behind(behind(left, 1), gap_behind_colon(&field.1, column));
        left = behind_value(left, &field.1, column + STEP, levels);
        lead = column;
    }
    left
}

/// The room behind the items of a list at a column; it stops where there is none.
#[cycle(length)]
fn behind_items(
    room: Option<usize>,
    items: &Vec<Spelling>,
    column: usize,
    levels: usize,
) -> Option<usize>
    requires bounded { column + 2 * levels + 2 ≤ 2 ^ 33 }
    requires fits { FitItems levels (items_view items.now.items) }
    ensures { result ≡ room_behind room
        (length (written_items [] column (items_view items.now.items))) }
{
    let mut left = room;
    let mut lead = 0;
    for item in items {
        if left.is_none() {
            return None;
        }
        left = behind(behind(left, lead), 1);
        left = behind(left, gap_behind_dash(item));
        left = behind_value(left, item, column + STEP, levels);
        lead = column;
    }
    left
}

/// How many bytes the text of a value has, as `write_spelling` writes it, where they are at most
/// so many; nothing where there are more. No memory is taken, and the count stops there.
pub fn written_length(value: &Spelling, indent: u32, most: usize) -> Option<usize>
    requires { SpellingFits max_depth (spelling_view value.now) }
    ensures { result ≡ up_to most (length (writing indent (spelling_view value.now))) }
{
    let column = indent as usize;
    let room = behind(Some(most), column);
    match behind_value(room, value, column, MAX_DEPTH) {
        Some(left) => most.checked_sub(left),
        None => None,
    }
}
