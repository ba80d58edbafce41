//! Decimals and percentages as people write them.
ghost use Rattle.std.specs.Prelude.{◌≡◌, ◌+◌, ◌-◌, ◌*◌, ◌/◌, ◌%◌, ◌^◌, ◌<◌, ◌≤◌, ◌++◌, ◌==◌, ◌*ℤ◌};
ghost use Rattle.std.specs.Prelude.{pos, IsTrue, OnErr, OnOk, length, unsigned_abs};
ghost use Rattle.std.specs.Char.{is_ascii_digit};
ghost use Rattle.std.specs.List.{list_all, suffix_len};
ghost use Rattle.exact_fraction.specs.DecimalText.{IsFloor, decimal_text, last_digits, minus_of};
ghost use Rattle.exact_fraction.specs.DecimalText.{percent_parts, percent_text, without_last_zeros};

use crate::decimal::Decimal;
use crate::fraction::Fraction;
use slo_limits::WHOLE;
use std::alloc::AllocError;
use std::fmt;

/// A percentage is counted in ten-thousandths, and the whole is 100 percent.
const PARTS_OF_A_PERCENT: u128 = 10_000;

const PARTS_OF_THE_WHOLE: i128 = 1_000_000;

impl fmt::Display for Decimal {
    ghost use Rattle.std.specs.Prelude.{Some};

    ghost output = { λ billionths. Some (decimal_text billionths) };

    fn fmt<W: fmt::Write>(&self, f: &mut fmt::Formatter<W>) -> fmt::Result {
        let whole = self.billionths() / WHOLE;
        let digits = nine_digits((self.billionths() % WHOLE) as u32);
        let decimals = digits_text(without_last_zeros(&digits));
        if decimals.is_empty() {
            write!(f, "{whole}")
        } else {
            write!(f, "{whole}.{decimals}")
        }
    }
}

/// Appends a decimal without zeros at the end of its decimals, and without a point where it is
/// whole: `14.4`, `0.5`, `7`.
/// After an error `out` is as before.
pub fn write_decimal(out: &mut Vec<u8>, value: Decimal) -> Result<(), AllocError>
    ensures written { OnOk result (out.new.items ≡ out.old.items ++ decimal_text value) }
    ensures unchanged { OnErr result (out.new.items ≡ out.old.items) }
{
    let alloc = *out.allocator();
    let text = format!(in alloc; "{value}")?;
    out.extend_from_slice(text.as_bytes())
}

/// Appends a fraction as a percentage with four places, rounded toward minus infinity: -2/3 as
/// `-66.6667`.
/// After an error `out` is as before.
pub fn write_percent(out: &mut Vec<u8>, value: &Fraction) -> Result<(), AllocError>
    ensures written { OnOk result (out.new.items ≡ out.old.items ++ percent_text value.now) }
    ensures floor { IsFloor (percent_parts value.now) (value.now.num *ℤ pos (10 ^ 6))
        value.now.den }
    ensures unchanged { OnErr result (out.new.items ≡ out.old.items) }
{
    let parts = percent_parts(value);
    let size = parts.unsigned_abs();
    let minus = minus_of(parts);
    let whole = size / PARTS_OF_A_PERCENT;
    let digits = nine_digits((size % PARTS_OF_A_PERCENT) as u32);
    let places = digits_text(&digits[5..]);
    let alloc = *out.allocator();
    let text = format!(in alloc; "{minus}{whole}.{places}")?;
    out.extend_from_slice(text.as_bytes())
}

/// The fraction in ten-thousandths of a percent, rounded toward minus infinity.
fn percent_parts(value: &Fraction) -> i128
    ensures value { result ≡ percent_parts value.now }
    ensures floor { IsFloor (percent_parts value.now) (value.now.num *ℤ pos (10 ^ 6))
        value.now.den }
{
    (value.num() * PARTS_OF_THE_WHOLE).div_euclid(value.den() as i128)
}

fn minus_of(parts: i128) -> &'static str
    ensures { result.now ≡ minus_of parts }
{
    if parts < 0 { "-" } else { "" }
}

/// The last nine digits of `n`, the highest first.
fn nine_digits(n: u32) -> [u8; 9]
    ensures { result ≡ last_digits 9 n }
{
    [
        digit(n, 100_000_000),
        digit(n, 10_000_000),
        digit(n, 1_000_000),
        digit(n, 100_000),
        digit(n, 10_000),
        digit(n, 1_000),
        digit(n, 100),
        digit(n, 10),
        digit(n, 1),
    ]
}

/// The digit of `n` at a place that is worth so much.
fn digit(n: u32, worth: u32) -> u8
    requires { 0 < worth }
    ensures { result ≡ 48 + n / worth % 10 }
{
    b'0' + (n / worth % 10) as u8
}

fn without_last_zeros(digits: &[u8]) -> &[u8]
    ensures { result.now ≡ without_last_zeros digits.now }
{
    &digits[..digits.len() - last_zeros(digits)]
}

fn last_zeros(digits: &[u8]) -> usize
    ensures count { result ≡ suffix_len (λ digit. digit == 48) digits.now }
    ensures within { result ≤ length digits.now }
{
    digits
        .iter()
        .rev()
        .take_while(|digit| **digit == b'0')
        .count()
}

/// Digits as text.
fn digits_text(digits: &[u8]) -> &str
    requires { IsTrue (list_all is_ascii_digit digits.now) }
    ensures { result.now ≡ digits.now }
{
    match str::from_utf8(digits) {
        Ok(text) => text,
        Err(_) => "",
    }
}
