//! Numbers written in decimal digits, of any length.
ghost use Rattle.std.specs.Prelude.{◌≡◌, ◌≤◌, ℕ, IfSome, length, min};
ghost use Rattle.std.specs.Char.{is_ascii_digit};
ghost use Rattle.std.specs.List.{list_all};
ghost use Rattle.exact_fraction.specs.Digits.{number_of, number_within, plain_number_within};

/// One above the greatest `u64`: where the value of a longer run of digits stops counting.
pub(crate) const CAP: u128 = 0x1_0000_0000_0000_0000;

/// The number that a text of one or more digits stands for, where it is at most `most`.
/// Leading zeros are read, and the text may have any length.
pub fn read_number(text: &[u8], most: u64) -> Option<u64>
    ensures value { result ≡ number_within most text.now }
    ensures bound { IfSome result (λ n. n ≤ most) }
{
    if text.is_empty() || !all_digits(text) {
        return None;
    }
    let value = capped_number(text);
    if value <= u128::from(most) {
        Some(value as u64)
    } else {
        None
    }
}

/// The same for a number that a person types: without leading zeros.
pub fn read_plain_number(text: &[u8], most: u64) -> Option<u64>
    ensures value { result ≡ plain_number_within most text.now }
    ensures bound { IfSome result (λ n. n ≤ most) }
{
    if text.len() > 1 && text[0] == b'0' {
        return None;
    }
    read_number(text, most)
}

fn all_digits(text: &[u8]) -> bool
    ensures { result ≡ list_all is_ascii_digit text.now }
{
    text.iter().all(|byte| byte.is_ascii_digit())
}

/// The value of the digits, or `CAP` where it is greater.
pub(crate) fn capped_number(digits: &[u8]) -> u128
    ensures { result ≡ min (number_of digits.now) CAP }
{
    let mut value: u128 = 0;
    for digit in digits {
        value = (value * 10 + u128::from(digit.saturating_sub(b'0'))).min(CAP);
    }
    value
}
