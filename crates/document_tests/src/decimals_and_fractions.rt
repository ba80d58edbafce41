//! Numbers, decimals and fractions: what texts read as, how values are written and compared.

use crate::expectations::{expect, expect_bytes};
use exact_fraction::{
    Decimal, DecimalFault, Fraction, Op, compare, holds, read_decimal, read_number,
    read_plain_number, write_decimal, write_fraction, write_percent,
};
use slo_limits::MAX_THRESHOLD;
use std::alloc::{AllocError, Global};
use std::cmp::Ordering;

/// A text, the most that is read, the number, and the number where no zeros may lead it.
const NUMBERS: [(&str, u64, Option<u64>, Option<u64>); 9] = [
    ("0", 9, Some(0), Some(0)),
    ("007", 9, Some(7), None),
    ("10", 9, None, None),
    ("", 9, None, None),
    ("1a", 99, None, None),
    ("-1", 99, None, None),
    (
        "18446744073709551615",
        u64::MAX,
        Some(u64::MAX),
        Some(u64::MAX),
    ),
    ("18446744073709551616", u64::MAX, None, None),
    (
        "000000000000000000000000000000000000000000000000000005",
        5,
        Some(5),
        None,
    ),
];

#[test]
fn numbers_are_read(rt: HostRuntime) {
    for (text, most, number, plain) in &NUMBERS {
        let bytes = text.as_bytes();
        expect(&rt, read_number(bytes, *most) == *number, text);
        expect(&rt, read_plain_number(bytes, *most) == *plain, text);
    }
}

/// A text, and how many billionths it is or its first fault.
const DECIMALS: [(&str, Result<u64, DecimalFault>); 13] = [
    ("0.999", Ok(999_000_000)),
    ("00.9", Ok(900_000_000)),
    ("1000000000", Ok(1_000_000_000_000_000_000)),
    ("1000000000.000000001", Err(DecimalFault::TooLarge)),
    (
        "99999999999999999999999999999999999999999",
        Err(DecimalFault::TooLarge),
    ),
    ("0.0000000001", Err(DecimalFault::TooManyDecimals)),
    ("99999999999.0000000000", Err(DecimalFault::TooManyDecimals)),
    ("5.", Err(DecimalFault::BadByte(2))),
    (".5", Err(DecimalFault::BadByte(0))),
    ("1.2.3", Err(DecimalFault::BadByte(3))),
    ("-1", Err(DecimalFault::BadByte(0))),
    ("12e3", Err(DecimalFault::BadByte(2))),
    ("", Err(DecimalFault::Empty)),
];

fn billionths_of(text: &str) -> Result<u64, DecimalFault> {
    Ok(read_decimal(text.as_bytes())?.billionths())
}

#[test]
fn decimals_are_read(rt: HostRuntime) {
    for (text, billionths) in &DECIMALS {
        expect(&rt, billionths_of(text) == *billionths, text);
    }
}

/// Decimals, and how they are written.
const WRITTEN_DECIMALS: [(&str, &str); 5] = [
    ("14.400000000", "14.4"),
    ("00.5", "0.5"),
    ("7", "7"),
    ("0.000000001", "0.000000001"),
    ("10.0", "10"),
];

/// A text that is a decimal as it is written again; nothing for other texts.
fn rewritten(alloc: Global, text: &str) -> Result<Vec<u8>, AllocError> {
    let mut out = Vec::new(alloc);
    if let Ok(value) = read_decimal(text.as_bytes()) {
        write_decimal(&mut out, value)?;
    }
    Ok(out)
}

#[test]
fn decimals_are_written(rt: HostRuntime) {
    for (text, wanted) in &WRITTEN_DECIMALS {
        let found = rewritten(rt.alloc(), text).expect(&rt, "memory");
        expect_bytes(&rt, &found, wanted.as_bytes());
    }
}

/// The most that each part of a fraction may be in size.
const MOST_PART: u128 = 4_000_000_000_000_000_000_000_000;

/// The fraction of a numerator and a denominator; none where it isn't one, or a part is too large.
fn fraction_of(num: i128, den: u128) -> Option<Fraction> {
    if den == 0 || den > MOST_PART || num.unsigned_abs() > MOST_PART {
        return None;
    }
    Some(Fraction::of(num, den))
}

/// Numerators and denominators, with the fraction in lowest terms and the percentage.
const WRITTEN_FRACTIONS: [(i128, u128, &str); 6] = [
    (-2, 3, "-2/3 -66.6667"),
    (-4, 2, "-2/1 -200.0000"),
    (0, 17, "0/1 0.0000"),
    (2, 3, "2/3 66.6666"),
    (-1, 100_000_000, "-1/100000000 -0.0001"),
    (1, MOST_PART, "1/4000000000000000000000000 0.0000"),
];

/// A fraction as it is written, and as a percentage.
fn fraction_text(alloc: Global, value: &Fraction) -> Result<Vec<u8>, AllocError> {
    let mut out = Vec::new(alloc);
    write_fraction(&mut out, value)?;
    out.extend_from_slice(b" ")?;
    write_percent(&mut out, value)?;
    Ok(out)
}

#[test]
fn fractions_are_written(rt: HostRuntime) {
    for (num, den, wanted) in &WRITTEN_FRACTIONS {
        let value = fraction_of(*num, *den).expect(&rt, "a fraction");
        let found = fraction_text(rt.alloc(), &value).expect(&rt, "memory");
        expect_bytes(&rt, &found, wanted.as_bytes());
    }
}

/// Fractions and the billionths of decimals, with their order.
const ORDERS: [(i128, u128, u64, Ordering); 5] = [
    (1, 10, 100_000_000, Ordering::Equal),
    (-1, 10, 100_000_000, Ordering::Less),
    (333_333_333, 3_333_333_329, 100_000_000, Ordering::Greater),
    (
        4_000_000_000_000_000_000_000_000,
        1,
        10_000_000_000_000,
        Ordering::Greater,
    ),
    (1, MOST_PART, 10_000_000_000_000, Ordering::Less),
];

/// The order of a fraction and of a decimal that may be a threshold; none for others.
fn order_of(num: i128, den: u128, billionths: u64) -> Option<Ordering> {
    if billionths > MAX_THRESHOLD {
        return None;
    }
    let value = fraction_of(num, den)?;
    Some(compare(&value, Decimal::of_billionths(billionths)))
}

#[test]
fn fractions_are_compared(rt: HostRuntime) {
    for (num, den, billionths, order) in &ORDERS {
        expect(
            &rt,
            order_of(*num, *den, *billionths) == Some(*order),
            "an order",
        );
    }
}

/// What an OpenSLO word holds of: less, equal and greater.
const OPS: [(Op, [bool; 3]); 4] = [
    (Op::Lte, [true, true, false]),
    (Op::Gte, [false, true, true]),
    (Op::Lt, [true, false, false]),
    (Op::Gt, [false, false, true]),
];

#[test]
fn ops_hold_of_their_orders(rt: HostRuntime) {
    for (op, [less, equal, greater]) in &OPS {
        expect(&rt, holds(*op, Ordering::Less) == *less, "less");
        expect(&rt, holds(*op, Ordering::Equal) == *equal, "equal");
        expect(&rt, holds(*op, Ordering::Greater) == *greater, "greater");
    }
}
