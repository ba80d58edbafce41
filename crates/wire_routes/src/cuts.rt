//! Texts behind a word, and before and behind a byte.
ghost use Rattle.std.specs.Prelude.{◌≡◌, option_map};
ghost use Rattle.wire_routes.specs.Cuts.{after_word, cut_at, number32};

use plain_fields::read_field_number;

/// What follows the word that a text begins with.
pub(crate) fn after_word<'a>(text: &'a [u8], word: &[u8]) -> Option<&'a [u8]>
    ensures { option_map (λ t. t.now) result ≡ after_word word.now text.now }
{
    if text.starts_with(word) {
        Some(&text[word.len()..])
    } else {
        None
    }
}

/// What stands before and behind the first of that byte.
pub(crate) fn cut_at(text: &[u8], byte: u8) -> Option<(&[u8], &[u8])>
    ensures { option_map (λ p. (p.0.now, p.1.now)) result ≡ cut_at byte text.now }
{
    for at in 0..text.len() {
        if text[at] == byte {
            return Some((&text[..at], &text[at + 1..]));
        }
    }
    None
}

/// The number below 2^32 that digits stand for.
pub(crate) fn read_number32(digits: &[u8]) -> Option<u32>
    ensures { result ≡ number32 digits.now }
{
    let number = read_field_number(digits, u64::from(u32::MAX))?;
    Some(number as u32)
}
