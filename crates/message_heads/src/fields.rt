//! What the fields of a head say.
ghost use Rattle.std.specs.Prelude.{◌≡◌, ◌≤◌, List, ℕ, Option, length, map, option_map, All, codes};
ghost use Rattle.httparse.specs.Spans.{IsHeaderWithin, header_bytes};
ghost use Rattle.httparse.specs.Grammar.{is_ows, trim_ows};
ghost use Rattle.message_heads.specs.Fields.{is_close, is_named, values_named, counted_length};
ghost use Rattle.message_heads.specs.Fields.{is_encoded, has_close, closes};
ghost use Rattle.message_heads.specs.Named.{named_of, sort_of};

use exact_fraction::read_number;
use httparse::spans::HeaderSpan;

/// The values of the fields of one name.
#[derive(Clone, Copy)]
pub(crate) enum Named<'a> {
    Absent,
    One(&'a [u8]),
    Several,
}

fn is_named(bytes: &[u8], field: &HeaderSpan, name: &[u8]) -> bool
    requires { IsHeaderWithin (length bytes.now) field.now }
    ensures { result ≡ is_named name.now (header_bytes bytes.now field.now) }
{
    field.name.of(bytes).eq_ignore_ascii_case(name)
}

/// The values of the fields of a name.
fn only_value<'a>(bytes: &'a [u8], fields: &[HeaderSpan], name: &[u8]) -> Named<'a>
    requires { All (IsHeaderWithin (length bytes.now)) fields.now }
    ensures { named_of result ≡ sort_of (values_named name.now
        (map (header_bytes bytes.now) fields.now)) }
{
    let mut named = Named::Absent;
    for field in fields {
        if is_named(bytes, field, name) {
            named = match named {
                Named::Absent => Named::One(field.value.of(bytes)),
                _ => Named::Several,
            };
        }
    }
    named
}

/// The length of the body: none where the fields give no length.
pub(crate) fn counted_length(bytes: &[u8], fields: &[HeaderSpan]) -> Option<u64>
    requires { All (IsHeaderWithin (length bytes.now)) fields.now }
    ensures { result ≡ counted_length (map (header_bytes bytes.now) fields.now) }
{
    match only_value(bytes, fields, b"content-length") {
        Named::Absent => Some(0),
        Named::One(value) => {
            if value.len() <= 19 {
                read_number(value, u64::MAX)
            } else {
                None
            }
        }
        Named::Several => None,
    }
}

/// Whether the body is to come in another coding.
pub(crate) fn is_encoded(bytes: &[u8], fields: &[HeaderSpan]) -> bool
    requires { All (IsHeaderWithin (length bytes.now)) fields.now }
    ensures { result ≡ is_encoded (map (header_bytes bytes.now) fields.now) }
{
    for field in fields {
        if is_named(bytes, field, b"transfer-encoding") {
            return true;
        }
    }
    false
}

/// Whether the connection ends after the answer.
pub(crate) fn closes(minor: u8, bytes: &[u8], fields: &[HeaderSpan]) -> bool
    requires { All (IsHeaderWithin (length bytes.now)) fields.now }
    ensures { result ≡ closes minor (map (header_bytes bytes.now) fields.now) }
{
    if minor == 0 {
        return true;
    }
    for field in fields {
        if is_named(bytes, field, b"connection") && has_close(field.value.of(bytes)) {
            return true;
        }
    }
    false
}

fn has_close(value: &[u8]) -> bool
    ensures { result ≡ has_close value.now }
{
    value.split(|byte| *byte == b',').any(|item| is_close(item))
}

fn is_close(item: &[u8]) -> bool
    ensures { result ≡ is_close item.now }
{
    trim(item).eq_ignore_ascii_case(b"close")
}

/// The bytes without the spaces and tabs at both ends.
fn trim(bytes: &[u8]) -> &[u8]
    ensures { result.now ≡ trim_ows bytes.now }
{
    let mut item = bytes;
    'front: while !item.is_empty() && is_space(item[0]) {
        item = &item[1..];
    }
    'back: while !item.is_empty() && is_space(item[item.len() - 1]) {
        item = &item[..item.len() - 1];
    }
    item
}

fn is_space(byte: u8) -> bool
    ensures { result ≡ is_ows byte }
{
    byte == b' ' || byte == b'\t'
}
