//! Exact fractions in lowest terms.
ghost use Rattle.std.specs.Prelude.{◌≡◌, ◌<◌, ◌≤◌, ◌++◌, pos, ◌≤ℤ◌, unsigned_abs, OnErr, OnOk};
ghost use Rattle.exact_fraction.specs.Ratio.{IsFraction, IsLowest, SameValue, fraction_text, gcd};
ghost use Rattle.exact_fraction.specs.Ratio.{lowest, most_part, with_sign_of};

use std::alloc::AllocError;
use std::fmt;
use std::marker::Model;

/// A fraction in lowest terms: numerator and denominator have no common divisor, and zero is 0/1.
/// Each of the two is at most 4 * 10^24 in size, so that the products of a comparison fit 128 bits.
#[derive(Clone, Copy, Debug, PartialEq, Eq)]
pub struct Fraction {
    num: i128,
    den: u128,
}

impl Model for Fraction {
    ghost use Rattle.exact_fraction.specs.Ratio.{IsFraction, Ratio, ratio_code};

    ghost Value = { Ratio };

    ghost coded = { ratio_code };

    ghost view = { λ a. record { num = a.num; den = a.den } };

    ghost invariant = { λ a. IsFraction (record { num = a.num; den = a.den }) };

    ghost inverse = { λ r. record { num = r.num; den = r.den } };
}

impl Fraction {
    /// The fraction `num/den` in lowest terms.
    pub fn of(num: i128, den: u128) -> Fraction
        requires num_fits { unsigned_abs num ≤ most_part }
        requires positive { 1 ≤ den }
        requires den_fits { den ≤ most_part }
        ensures value { result ≡ lowest num den }
        ensures lowest_terms { IsLowest result }
        ensures same_value { SameValue result num den }
        ensures num_shrinks { unsigned_abs result.num ≤ unsigned_abs num }
        ensures den_shrinks { result.den ≤ den }
        ensures not_negative { pos 0 ≤ℤ num → pos 0 ≤ℤ result.num }
    {
        let size = num.unsigned_abs();
        let common = gcd(size, den);
        Fraction::in_lowest_terms(with_sign_of(num, size / common), den / common)
    }

    fn in_lowest_terms(num: i128, den: u128) -> Fraction
        requires { IsFraction (record { num = num; den = den }) }
        ensures { result ≡ record { num = num; den = den } }
    {
        Fraction { num, den }
    }

    /// The numerator, which has the fraction's sign.
    pub fn num(&self) -> i128
        ensures value { result ≡ self.now.num }
        ensures bound { unsigned_abs result ≤ most_part }
    {
        self.num
    }

    /// The denominator.
    pub fn den(&self) -> u128
        ensures value { result ≡ self.now.den }
        ensures positive { 0 < result }
        ensures bound { result ≤ most_part }
    {
        self.den
    }
}

/// A size with the sign of `num`.
fn with_sign_of(num: i128, size: u128) -> i128
    requires { size ≤ most_part }
    ensures { result ≡ with_sign_of num size }
{
    let part = size as i128;
    if num < 0 { -part } else { part }
}

/// The greatest common divisor, by Euclid's remainders.
fn gcd(a: u128, b: u128) -> u128
    ensures { result ≡ gcd a b }
{
    let mut x = a;
    let mut y = b;
    while y != 0 {
        (x, y) = (y, x % y);
    }
    x
}

impl fmt::Display for Fraction {
    ghost use Rattle.std.specs.Prelude.{Some};

    ghost output = { λ value. Some (fraction_text value) };

    fn fmt<W: fmt::Write>(&self, f: &mut fmt::Formatter<W>) -> fmt::Result {
        let num = self.num;
        let den = self.den;
        write!(f, "{num}/{den}")
    }
}

/// Appends a fraction as `num/den`, as `-2/3`. After an error `out` is as before.
pub fn write_fraction(out: &mut Vec<u8>, value: &Fraction) -> Result<(), AllocError>
    ensures written { OnOk result (out.new.items ≡ out.old.items ++ fraction_text value.now) }
    ensures unchanged { OnErr result (out.new.items ≡ out.old.items) }
{
    let alloc = *out.allocator();
    let text = format!(in alloc; "{value}")?;
    out.extend_from_slice(text.as_bytes())
}
