//! Tests on bytes, and parts of a line.

ghost use Rattle.std.specs.Prelude.{◌≡◌, ℕ, ◌+◌, ◌-◌, ◌==◌, ◌<◌, ◌≤◌, ◌≢◌, length, slice_index};
ghost use Rattle.std.specs.Prelude.{drop, take, reverse};
ghost use Rattle.std.specs.List.{prefix_len, list_any, list_all, starts_with};
ghost use Rattle.yaml_terms.specs.Block.{is_space, is_blank_byte as is_blank_def};
ghost use Rattle.yaml_terms.specs.Block.{is_blank as is_blank_list, indentation, trimmed_text};
ghost use Rattle.yaml_terms.specs.Flow.{is_flow_indicator as is_flow_indicator_def};
ghost use Rattle.yaml_terms.specs.Flow.{is_indicator as is_indicator_def};
ghost use Rattle.yaml_terms.specs.Flow.{is_soft_indicator as is_soft_indicator_def};
ghost use Rattle.yaml_terms.specs.Line.{is_control as is_control_def};
ghost use Rattle.yaml_terms.specs.Line.{has_control as has_control_def};
ghost use Rattle.yaml_terms.specs.Line.{ends_word as ends_word_def, is_tail as is_tail_def};

/// A space or a tab.
pub(crate) fn is_blank_byte(byte: u8) -> bool
    ensures { result ≡ is_blank_def byte }
{
    byte == b' ' || byte == b'\t'
}

/// Whether nothing but spaces and tabs is there.
pub(crate) fn is_blank(bytes: &[u8]) -> bool
    ensures { result ≡ is_blank_list bytes.now }
{
    bytes.iter().all(|byte| is_blank_byte(*byte))
}

/// How many spaces and tabs stand first.
pub(crate) fn blanks(bytes: &[u8]) -> usize
    ensures value { result ≡ prefix_len is_blank_def bytes.now }
    ensures within { result ≤ length bytes.now }
{
    bytes
        .iter()
        .take_while(|byte| is_blank_byte(**byte))
        .count()
}

/// How many spaces stand first.
pub(crate) fn spaces(bytes: &[u8]) -> usize
    ensures value { result ≡ indentation bytes.now }
    ensures within { result ≤ length bytes.now }
{
    bytes.iter().take_while(|byte| **byte == b' ').count()
}

/// The byte at a place, or 0 past the end.
pub fn byte_at(bytes: &[u8], at: usize) -> u8
    ensures value { result ≡ slice_index bytes.now at }
    ensures inside { result ≢ 0 → at < length bytes.now }
{
    if at < bytes.len() { bytes[at] } else { 0 }
}

/// The bytes from a place on, none past the end.
pub fn from(bytes: &[u8], at: usize) -> &[u8]
    ensures { result.now ≡ drop at bytes.now }
{
    if at < bytes.len() { &bytes[at..] } else { &[] }
}

/// The bytes before a place, all where the place is past the end.
pub(crate) fn before(bytes: &[u8], at: usize) -> &[u8]
    ensures { result.now ≡ take at bytes.now }
{
    if at < bytes.len() {
        &bytes[..at]
    } else {
        bytes
    }
}

/// Whether a dash, a colon or a marker ends before these bytes.
pub(crate) fn ends_word(bytes: &[u8]) -> bool
    ensures { result ≡ ends_word_def bytes.now }
{
    match bytes {
        [] => true,
        [first, ..] => is_blank_byte(*first),
    }
}

/// Whether only blanks and perhaps a comment behind them are there.
pub(crate) fn is_tail(bytes: &[u8]) -> bool
    ensures { result ≡ is_tail_def bytes.now }
{
    let first = blanks(bytes);
    first == bytes.len() || (0 < first && byte_at(bytes, first) == b'#')
}

/// How many spaces and tabs stand last.
fn last_blanks(bytes: &[u8]) -> usize
    ensures { result ≡ prefix_len is_blank_def (reverse bytes.now) }
{
    bytes
        .iter()
        .rev()
        .take_while(|byte| is_blank_byte(**byte))
        .count()
}

/// The bytes without the spaces and tabs at their end.
pub(crate) fn without_blanks(bytes: &[u8]) -> &[u8]
    ensures { result.now ≡ trimmed_text is_blank_def bytes.now }
{
    let last = last_blanks(bytes);
    before(bytes, bytes.len().saturating_sub(last))
}

/// How many spaces stand last.
fn last_spaces(bytes: &[u8]) -> usize
    ensures { result ≡ prefix_len is_space (reverse bytes.now) }
{
    bytes.iter().rev().take_while(|byte| **byte == b' ').count()
}

/// The bytes without the spaces at their end.
pub(crate) fn without_spaces(bytes: &[u8]) -> &[u8]
    ensures { result.now ≡ trimmed_text is_space bytes.now }
{
    let last = last_spaces(bytes);
    before(bytes, bytes.len().saturating_sub(last))
}

/// A character that a text may not have, other than a line's end.
pub(crate) fn is_control(byte: u8) -> bool
    ensures { result ≡ is_control_def byte }
{
    (byte < 32 && !(byte == b'\t')) || byte == 127
}

/// Whether one of the bytes is such a character.
pub(crate) fn has_control(bytes: &[u8]) -> bool
    ensures { result ≡ has_control_def bytes.now }
{
    bytes.iter().any(|byte| is_control(*byte))
}

/// One of `,[]{}`.
pub(crate) fn is_flow_indicator(byte: u8) -> bool
    ensures { result ≡ is_flow_indicator_def byte }
{
    byte == b',' || byte == b'[' || byte == b']' || byte == b'{' || byte == b'}'
}

/// A character that begins no plain scalar.
pub(crate) fn is_indicator(byte: u8) -> bool
    ensures { result ≡ is_indicator_def byte }
{
    is_flow_indicator(byte)
        || byte == b'#'
        || byte == b'&'
        || byte == b'*'
        || byte == b'!'
        || byte == b'|'
        || byte == b'>'
        || byte == b'\''
        || byte == b'"'
        || byte == b'%'
        || byte == b'@'
        || byte == b'`'
}

/// A character that begins a plain scalar only before another one.
pub(crate) fn is_soft_indicator(byte: u8) -> bool
    ensures { result ≡ is_soft_indicator_def byte }
{
    byte == b'-' || byte == b'?' || byte == b':'
}
