//! Where lines begin in a text, and what is left of it there.
ghost use Rattle.std.specs.Prelude.{◌≡◌, ◌∷◌, [], IfNone, IfSome, drop, true};
ghost use Rattle.csv_records.specs.Records.{csv_records};
ghost use Rattle.plain_fields.specs.Lines.{IsLineStart, StandsBehindFeed};

/// Whether the first line of a text is read as one behind a line feed: no byte order mark stands
/// before it, as far as the first byte tells.
pub fn begins_as_line(text: &[u8]) -> bool
    ensures { result ≡ true → IsLineStart text.now 0 }
{
    if text.is_empty() {
        return false;
    }
    let first = text[0];
    if first == 0xEF {
        return false;
    }
    true
}

/// A text from the line feed before a place on.
pub fn text_behind(text: &[u8], at: usize) -> &[u8]
    requires { StandsBehindFeed text.now at }
    ensures { result.now ≡ 10 ∷ drop at text.now }
{
    &text[at - 1..]
}

/// A text whose records are those from the start of a line on; none where no byte is left.
pub fn rest_at(text: &[u8], at: usize) -> Option<&[u8]>
    requires { IsLineStart text.now at }
    ensures some { IfSome result (λ rest.
        csv_records rest.now ≡ csv_records (10 ∷ drop at text.now)) }
    ensures none { IfNone result (csv_records (10 ∷ drop at text.now) ≡ []) }
{
    if at == text.len() {
        return None;
    }
    if at == 0 {
        return Some(text);
    }
    Some(text_behind(text, at))
}
