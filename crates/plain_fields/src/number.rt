//! The numbers that fields are, which are small enough for a machine word.
ghost use Rattle.std.specs.Prelude.{◌≡◌, ◌≤◌, IfSome, Some, None, if◌then◌else◌, min};
ghost use Rattle.std.specs.Char.{is_ascii_digit};
ghost use Rattle.std.specs.List.{list_all};
ghost use Rattle.exact_fraction.specs.Digits.{number_of, number_within};

/// The greatest number of a field.
pub const MAX_NUMBER: u64 = 1_000_000_000_000_000_000;

/// Where the value of a longer run of digits stops counting: ten times as much, and a digit, still
/// fits 64 bits.
const CAP: u64 = 1_000_000_000_000_000_001;

/// The number that a text of one or more digits stands for, where it is at most `most`.
/// Leading zeros are read, and the text may have any length.
pub fn read_field_number(text: &[u8], most: u64) -> Option<u64>
    requires { most ≤ MAX_NUMBER }
    ensures value { result ≡ number_within most text.now }
    ensures bound { IfSome result (λ n. n ≤ most) }
{
    if text.is_empty() {
        return None;
    }
    let value = capped_number(text)?;
    if value <= most { Some(value) } else { None }
}

/// The value of the digits, or `CAP` where it is greater; none where a byte is no digit.
fn capped_number(text: &[u8]) -> Option<u64>
    ensures { result ≡ (if list_all is_ascii_digit text.now
        then Some (min (number_of text.now) CAP) else None) }
{
    let mut value: u64 = 0;
    for byte in text {
        if !byte.is_ascii_digit() {
            return None;
        }
        value = (value * 10 + u64::from(byte - b'0')).min(CAP);
    }
    Some(value)
}
