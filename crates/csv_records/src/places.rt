//! Where a byte of a text stands, as far as quotes and line feeds ask.
ghost use Rattle.std.specs.Prelude.{◌≡◌, ◌≢◌, ◌<◌, ◌≤◌, ℕ, IfSome, IfNone, false, get_or, length};
ghost use Rattle.csv_records.specs.Places.{HasNoQuote, IsCut, after_plain, after_start};
ghost use Rattle.csv_records.specs.Places.{ends_field, ends_line, in_quotes, next_place};
ghost use Rattle.csv_records.specs.Places.{place_after};

use memchr::{memchr, memrchr};

/// A place in a text, behind the bytes that came.
#[derive(Clone, Copy, Debug, PartialEq, Eq)]
pub enum Place {
    /// No byte came.
    TextStart,
    /// Behind the first byte of the text, where it is the first one of a byte order mark.
    MarkFirst,
    /// Behind the first two bytes of the text, where they are those of a byte order mark.
    MarkSecond,
    /// At the start of a field.
    FieldStart,
    /// In a field without quotes, or behind a quoted part of it.
    Plain,
    /// Between quotes.
    Quoted,
    /// Behind a quote that ends the quoted part, unless the next byte is a quote too.
    QuoteEnd,
}

/// A byte that stands between fields, or ends a line.
fn ends_field(byte: u8) -> bool
    ensures { result ≡ ends_field byte }
{
    byte == b',' || byte == b'\r' || byte == b'\n'
}

/// The place behind a byte that no quote begins.
fn after_plain(byte: u8) -> Place
    ensures { result ≡ after_plain byte }
{
    if ends_field(byte) {
        Place::FieldStart
    } else {
        Place::Plain
    }
}

/// The place behind the first byte of a field.
fn after_start(byte: u8) -> Place
    ensures { result ≡ after_start byte }
{
    if byte == b'"' {
        Place::Quoted
    } else {
        after_plain(byte)
    }
}

/// The place after one more byte.
fn next_place(place: Place, byte: u8) -> Place
    ensures { result ≡ next_place place byte }
{
    match place {
        Place::TextStart if byte == 0xEF => Place::MarkFirst,
        Place::TextStart => after_start(byte),
        Place::MarkFirst if byte == 0xBB => Place::MarkSecond,
        Place::MarkFirst => after_plain(byte),
        Place::MarkSecond if byte == 0xBF => Place::FieldStart,
        Place::MarkSecond => after_plain(byte),
        Place::FieldStart => after_start(byte),
        Place::Plain => after_plain(byte),
        Place::Quoted if byte == b'"' => Place::QuoteEnd,
        Place::Quoted => Place::Quoted,
        Place::QuoteEnd => after_start(byte),
    }
}

/// Whether quotes are open.
fn in_quotes(place: Place) -> bool
    ensures { result ≡ in_quotes place }
{
    match place {
        Place::Quoted => true,
        _ => false,
    }
}

/// Whether a byte at this place ends a line.
fn ends_line(place: Place, byte: u8) -> bool
    ensures { result ≡ ends_line place byte }
{
    match place {
        Place::Quoted => false,
        _ => byte == b'\n',
    }
}

/// The place behind these bytes.
pub(crate) fn place_after(from: Place, bytes: &[u8]) -> Place
    ensures { result ≡ place_after from bytes.now }
{
    let mut place = from;
    for at in 0..bytes.len() {
        place = next_place(place, bytes[at]);
    }
    place
}

/// Whether a quote is among the bytes.
fn has_quote(bytes: &[u8]) -> bool
    ensures { result ≡ false → HasNoQuote bytes.now }
{
    match memchr(b'"', bytes) {
        Some(_) => true,
        None => false,
    }
}

/// How many bytes stand before the last cut, where no quote is open and none comes.
fn cut_at_feed(from: Place, bytes: &[u8]) -> usize
    requires open { in_quotes from ≡ false }
    requires plain { HasNoQuote bytes.now }
    ensures within { result ≤ length bytes.now }
    ensures cut { 0 < result → IsCut from bytes.now result }
{
    match memrchr(b'\n', bytes) {
        Some(at) => at + 1,
        None => 0,
    }
}

/// The same byte after byte, wherever quotes stand.
fn cut_by_places(from: Place, bytes: &[u8]) -> usize
    ensures within { result ≤ length bytes.now }
    ensures cut { 0 < result → IsCut from bytes.now result }
{
    let mut place = from;
    let mut cut: usize = 0;
    for at in 0..bytes.len() {
        let byte = bytes[at];
        if ends_line(place, byte) {
            cut = at + 1;
        }
        place = next_place(place, byte);
    }
    cut
}

/// How many of these bytes stand before the last place where the text may be cut; 0 where it may
/// be cut nowhere in them. It takes time in proportion to the bytes.
pub(crate) fn last_cut(from: Place, bytes: &[u8]) -> usize
    ensures within { result ≤ length bytes.now }
    ensures cut { 0 < result → IsCut from bytes.now result }
{
    if in_quotes(from) || has_quote(bytes) {
        cut_by_places(from, bytes)
    } else {
        cut_at_feed(from, bytes)
    }
}
