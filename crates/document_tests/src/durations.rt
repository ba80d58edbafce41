//! Durations in OpenSLO's shorthand: their minutes, their faults, and how they are written.

use crate::expectations::{expect, expect_bytes};
use slo_duration::{Duration, DurationFault, Unit, read_duration, rolling_minutes, write_duration};

/// Texts with their rolling minutes.
const DURATIONS: [(&str, u32); 12] = [
    ("0m", 0),
    ("5m", 5),
    ("1h", 60),
    ("30d", 43_200),
    ("2w", 20_160),
    ("1M", 43_200),
    ("1Q", 129_600),
    ("1Y", 525_600),
    ("007d", 10_080),
    ("0000000000000000000000000000001m", 1),
    ("4294967295m", 4_294_967_295),
    ("8171Y", 4_294_677_600),
];

/// Texts that are no durations.
const FAULTS: [(&str, DurationFault); 14] = [
    ("", DurationFault::Empty),
    ("m", DurationFault::BadNumber),
    ("-1m", DurationFault::BadNumber),
    (" 1m", DurationFault::BadNumber),
    ("5", DurationFault::BadUnit),
    ("5mm", DurationFault::BadUnit),
    ("5m ", DurationFault::BadUnit),
    ("5D", DurationFault::BadUnit),
    ("5s", DurationFault::BadUnit),
    ("1h30m", DurationFault::BadUnit),
    ("99999999999999999999999999", DurationFault::BadUnit),
    ("4294967296m", DurationFault::TooLong),
    ("8172Y", DurationFault::TooLong),
    ("99999999999999999999999999m", DurationFault::TooLong),
];

/// The rolling minutes of a text, or its first fault.
fn minutes_of(text: &str) -> Result<u32, DurationFault> {
    Ok(rolling_minutes(read_duration(text.as_bytes())?))
}

#[test]
fn a_duration_has_its_rolling_minutes(rt: HostRuntime) {
    for (text, minutes) in &DURATIONS {
        expect(&rt, minutes_of(text) == Ok(*minutes), text);
    }
}

#[test]
fn a_text_that_is_no_duration_has_its_first_fault(rt: HostRuntime) {
    for (text, fault) in &FAULTS {
        expect(&rt, minutes_of(text) == Err(*fault), text);
    }
}

#[test]
fn a_duration_is_written_behind_what_is_there(rt: HostRuntime) {
    let quarter = Duration {
        count: 4,
        unit: Unit::Quarter,
    };
    let week = read_duration(b"007d").expect(&rt, "a week");
    let mut out = b"at ".to_vec(rt.alloc()).expect(&rt, "memory");
    write_duration(rt.alloc(), &mut out, quarter).expect(&rt, "memory");
    write_duration(rt.alloc(), &mut out, week).expect(&rt, "memory");
    expect_bytes(&rt, &out, b"at 4Q7d");
}
