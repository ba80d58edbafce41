//! Numbers with at most nine decimals.
ghost use Rattle.std.specs.Prelude.{◌≡◌, ℕ, ◌+◌, ◌<◌, ◌≤◌, ◌^◌, length, Result};
ghost use Rattle.slo_limits.specs.declared.TheConstants.{MAX_DECIMAL};
ghost use Rattle.exact_fraction.specs.Decimal.{AnswersDecimal};
ghost use Rattle.exact_fraction.specs.DecimalCuts.{after_point, decimal_by_cuts, leading_digits};
ghost use Rattle.exact_fraction.specs.DecimalCuts.{worth_of};
ghost use Rattle.exact_fraction.specs.declared.decimal.DecimalFault.{DecimalFault};

use crate::digits::capped_number;
use slo_limits::{MAX_DECIMAL, WHOLE};
use std::marker::Model;

/// How many decimals a decimal can have: it counts billionths.
const MOST_DECIMALS: usize = 9;

/// A number of billionths, at most 10^18.
#[derive(Clone, Copy, Debug, PartialEq, Eq, PartialOrd, Ord)]
pub struct Decimal {
    billionths: u64,
}

impl Model for Decimal {
    ghost use Rattle.std.specs.Prelude.{ℕ, ◌≤◌};
    ghost use Rattle.slo_limits.specs.declared.TheConstants.{MAX_DECIMAL};

    ghost Value = { ℕ };

    ghost view = { λ a. a.billionths };

    ghost invariant = { λ a. a.billionths ≤ MAX_DECIMAL };

    ghost inverse = { λ n. record { billionths = n } };
}

impl Decimal {
    /// The decimal of `n` billionths.
    pub fn of_billionths(n: u64) -> Decimal
        requires { n ≤ MAX_DECIMAL }
        ensures { result ≡ n }
    {
        Decimal { billionths: n }
    }

    /// How many billionths it is.
    pub fn billionths(&self) -> u64
        ensures value { result ≡ self.now }
        ensures bound { result ≤ MAX_DECIMAL }
    {
        self.billionths
    }
}

/// Why a text is no decimal, in the order in which the causes are tried.
#[derive(Clone, Copy, Debug, PartialEq, Eq)]
pub enum DecimalFault {
    /// No bytes.
    Empty,
    /// The first byte that no decimal text can have at that place;
    /// the length, where the text ends before a decimal text can.
    BadByte(usize),
    /// More than nine digits after the point.
    TooManyDecimals,
    /// More than a thousand million.
    TooLarge,
}

/// Reads digits, then optionally a point and digits. Leading zeros are read, and the text may have
/// any length.
pub fn read_decimal(text: &[u8]) -> Result<Decimal, DecimalFault>
    ensures answer { AnswersDecimal text.now result }
    ensures only { (other : Result ℕ DecimalFault) → AnswersDecimal text.now other
        → result ≡ other }
    ensures cuts { result ≡ decimal_by_cuts text.now }
{
    read_by_cuts(text)
}

fn read_by_cuts(text: &[u8]) -> Result<Decimal, DecimalFault>
    ensures { result ≡ decimal_by_cuts text.now }
{
    if text.is_empty() {
        return Err(DecimalFault::Empty);
    }
    let whole = leading_digits(text);
    if whole == 0 {
        return Err(DecimalFault::BadByte(0));
    }
    if whole == text.len() {
        return worth(text, &[]);
    }
    if text[whole] != b'.' {
        return Err(DecimalFault::BadByte(whole));
    }
    read_decimals(whole + 1, &text[..whole], &text[whole + 1..])
}

/// Reads what stands after the point, which ends at `place`.
fn read_decimals(place: usize, whole: &[u8], decimals: &[u8]) -> Result<Decimal, DecimalFault>
    requires { place + length decimals.now < 2 ^ 64 }
    ensures { result ≡ after_point place whole.now decimals.now }
{
    let digits = leading_digits(decimals);
    if digits == 0 || digits < decimals.len() {
        return Err(DecimalFault::BadByte(place + digits));
    }
    worth(whole, decimals)
}

fn leading_digits(text: &[u8]) -> usize
    ensures count { result ≡ leading_digits text.now }
    ensures within { result ≤ length text.now }
{
    text.iter().take_while(|byte| byte.is_ascii_digit()).count()
}

/// What the digits before and after the point are worth.
fn worth(whole: &[u8], decimals: &[u8]) -> Result<Decimal, DecimalFault>
    ensures { result ≡ worth_of whole.now decimals.now }
{
    if decimals.len() > MOST_DECIMALS {
        return Err(DecimalFault::TooManyDecimals);
    }
    let scale = 10u128.pow((MOST_DECIMALS - decimals.len()) as u32);
    let billionths = capped_number(whole) * WHOLE as u128 + capped_number(decimals) * scale;
    if billionths > MAX_DECIMAL as u128 {
        return Err(DecimalFault::TooLarge);
    }
    Ok(Decimal::of_billionths(billionths as u64))
}
