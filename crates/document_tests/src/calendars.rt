//! Calendar windows in time zones: the starts that Python's `zoneinfo` gives for real zone files,
//! moments, and bytes and texts that are none.
mod zone_files;

ghost use Rattle.std.specs.Prelude.{IfSome};
ghost use Rattle.std.specs.List.Sorted.{IsNonDecreasing};

use crate::expectations::expect;
use slo_duration::{Duration, Unit, read_duration};
use std::alloc::Global;
use std::process::Abort;
use zone_calendar::{
    StartsFault, Zone, ZoneFault, has_too_many_starts, is_calendar_step, last_start, read_civil,
    read_zone, starts, window_at,
};
use zone_files::{APIA, BERLIN, SAO_PAULO};

/// A zone file of version 1: UTC, but an hour ahead from second 1,000,000,000 to second
/// 1,010,000,000.
const BUILT_FILE: &[u8; 74] = b"\
TZif\0\0\0\0\0\0\0\0\0\0\0\0\0\0\0\0\0\0\0\0\0\0\0\0\0\0\0\0\0\0\0\x02\0\0\0\x02\0\0\0\x08;\x9a\
\xca\0<3`\x80\x01\0\0\0\0\0\0\0\0\0\x0e\x10\x01\x04AAA\0BBB\0";

/// A first moment, a step, a horizon, and the starts.
struct Case {
    first: &'static str,
    step: &'static str,
    horizon: u32,
    starts: &'static [u32],
}

/// A rule with summer time: a window of 1,380 minutes, a first moment in a gap and one in a fold,
/// four weeks over both changes of a year. The expected starts are those of Python's `zoneinfo` for
/// `America/New_York`.
const EASTERN_STARTS: [Case; 4] = [
    Case {
        first: "2024-03-01 00:00:00",
        step: "1d",
        horizon: 28_506_121,
        starts: &[
            28_487_820, 28_489_260, 28_490_700, 28_492_140, 28_493_580, 28_495_020, 28_496_460,
            28_497_900, 28_499_340, 28_500_780, 28_502_160, 28_503_600, 28_505_040, 28_506_480,
            28_507_920,
        ],
    },
    Case {
        first: "2024-03-10 02:30:00",
        step: "1d",
        horizon: 28_500_511,
        starts: &[28_500_930, 28_502_310],
    },
    Case {
        first: "2024-11-03 01:30:00",
        step: "1d",
        horizon: 28_843_171,
        starts: &[28_843_530, 28_845_030],
    },
    Case {
        first: "2024-01-21 12:00:00",
        step: "4w",
        horizon: 28_912_921,
        starts: &[
            28_430_940, 28_471_260, 28_511_520, 28_551_840, 28_592_160, 28_632_480, 28_672_800,
            28_713_120, 28_753_440, 28_793_760, 28_834_080, 28_874_460, 28_914_780,
        ],
    },
];

/// A clock that goes forward by 46 hours, so that one start comes before that of the day before, by
/// Python's `zoneinfo`.
const WIDE_STARTS: [Case; 1] = [Case {
    first: "2024-03-07 12:00:00",
    step: "1d",
    horizon: 28_508_281,
    starts: &[
        28_498_260, 28_499_700, 28_501_140, 28_502_580, 28_502_700, 28_504_020, 28_504_140,
        28_505_580, 28_507_020, 28_508_460,
    ],
}];

/// Months, quarters and years from the 31st and from February 29.
const UTC_STARTS: [Case; 5] = [
    Case {
        first: "2023-01-31 00:00:00",
        step: "1M",
        horizon: 28_045_321,
        starts: &[27_918_720, 27_959_040, 28_003_680, 28_046_880],
    },
    Case {
        first: "2024-02-29 12:30:59",
        step: "1Q",
        horizon: 29_140_471,
        starts: &[
            28_486_830, 28_616_430, 28_748_910, 28_881_390, 29_012_430, 29_142_030,
        ],
    },
    Case {
        first: "2023-08-31 00:00:00",
        step: "1Q",
        horizon: 28_749_481,
        starts: &[28_224_000, 28_355_040, 28_486_080, 28_618_560, 28_751_040],
    },
    Case {
        first: "2024-02-29 00:00:00",
        step: "1Y",
        horizon: 31_113_961,
        starts: &[
            28_486_080, 29_011_680, 29_537_280, 30_062_880, 30_589_920, 31_115_520,
        ],
    },
    Case {
        first: "2096-12-31 23:59:59",
        step: "1w",
        horizon: 66_805_800,
        starts: &[66_797_279, 66_807_359],
    },
];

/// Across the gap and the fold of `BUILT_FILE`.
const BUILT_STARTS: [Case; 2] = [
    Case {
        first: "2001-09-08 02:00:00",
        step: "1d",
        horizon: 16_666_561,
        starts: &[16_665_240, 16_666_680, 16_668_060],
    },
    Case {
        first: "2002-01-01 20:00:00",
        step: "1d",
        horizon: 16_833_241,
        starts: &[16_831_860, 16_833_300, 16_834_800],
    },
];

/// Across changes of the table of 1980 and of 1995, and of the rule of 2024, by Python's
/// `zoneinfo`.
const BERLIN_STARTS: [Case; 4] = [
    Case {
        first: "1980-04-06 02:30:00",
        step: "1d",
        horizon: 5_397_151,
        starts: &[5_397_210, 5_398_590],
    },
    Case {
        first: "1980-09-27 02:30:00",
        step: "1d",
        horizon: 5_649_151,
        starts: &[5_647_710, 5_649_150, 5_650_650],
    },
    Case {
        first: "2024-03-30 02:30:00",
        step: "1d",
        horizon: 28_530_751,
        starts: &[28_529_370, 28_530_810, 28_532_190],
    },
    Case {
        first: "1995-02-28 00:00:00",
        step: "1Q",
        horizon: 13_756_201,
        starts: &[13_232_100, 13_360_200, 13_492_680, 13_625_220, 13_757_700],
    },
];

/// Across the day that was left out, which gives two starts at one minute, by Python's `zoneinfo`.
const APIA_STARTS: [Case; 2] = [
    Case {
        first: "2011-12-29 12:00:00",
        step: "1d",
        horizon: 22_088_761,
        starts: &[22_086_600, 22_088_040, 22_088_040, 22_089_480],
    },
    Case {
        first: "2012-03-31 03:30:00",
        step: "1M",
        horizon: 22_348_891,
        starts: &[22_218_570, 22_261_830, 22_306_470, 22_349_670],
    },
];

/// Across a gap and a fold at midnight, by Python's `zoneinfo`.
const SAO_PAULO_STARTS: [Case; 2] = [
    Case {
        first: "2018-11-03 00:00:00",
        step: "1d",
        horizon: 25_688_041,
        starts: &[25_686_900, 25_688_340, 25_689_720],
    },
    Case {
        first: "2018-02-16 23:30:00",
        step: "1d",
        horizon: 25_315_051,
        starts: &[25_313_850, 25_315_290, 25_316_790],
    },
];

/// Moments, and texts that are none.
const MOMENTS: [(&str, bool); 19] = [
    ("2020-01-21 12:30:00", true),
    ("1971-01-01 00:00:00", true),
    ("2097-12-31 23:59:59", true),
    ("2000-02-29 00:00:00", true),
    ("2023-02-29 00:00:00", false),
    ("2024-02-29 00:00:00", true),
    ("2096-02-29 00:00:00", true),
    ("2024-06-31 00:00:00", false),
    ("1970-12-31 23:59:59", false),
    ("2098-01-01 00:00:00", false),
    ("2024-00-10 00:00:00", false),
    ("2024-13-10 00:00:00", false),
    ("2024-01-00 00:00:00", false),
    ("2024-01-10 24:00:00", false),
    ("2024-01-10 23:60:00", false),
    ("2024-01-10 23:59:60", false),
    ("2024-01-10T00:00:00", false),
    ("2024-01-10 00:00", false),
    ("2024-01-10 00:00:00 ", false),
];

/// Bytes that have no zone.
const NO_ZONES: [&[u8]; 8] = [
    b"",
    b"hello",
    b"EST5EDT",
    b"EST5EDT,M3.2.0,M11.1.0\r\n",
    b"EST5EDT,M3.2.0,M11.1.0\n\n",
    b"E\xffT5",
    b"TZif",
    b"TZif2\0\0\0\0\0\0\0\0\0\0\0\0\0\0\0\0\0\0\0\0\0\0\0",
];

/// A minute, and the window that holds it among starts of which two are at one minute.
const WINDOWS: [(u32, Option<(u32, Option<u32>)>); 6] = [
    (9, None),
    (10, Some((10, Some(20)))),
    (19, Some((10, Some(20)))),
    (20, Some((20, Some(35)))),
    (34, Some((20, Some(35)))),
    (4_294_967_295, Some((35, None))),
];

/// The starts in a zone; none where a text can't be read, the horizon is too far or there are too
/// many starts.
fn starts_of(alloc: Global, zone: &Zone, first: &str, step: &str, horizon: u32) -> Option<Vec<u32>>
    ensures { IfSome result (λ list. IsNonDecreasing list.items) }
{
    let first = read_civil(first.as_bytes())?;
    let step = read_duration(step.as_bytes()).ok()?;
    if !is_calendar_step(step) || horizon >= 100_000_000 {
        return None;
    }
    match starts(alloc, zone, &first, step, horizon) {
        Ok(list) => Some(list),
        Err(_) => None,
    }
}

/// The last start of a case at a minute; none where a text can't be read or the horizon is too far.
fn last_of(zone: &Zone, case: &Case, minute: u32) -> Option<u32> {
    let first = read_civil(case.first.as_bytes())?;
    let step = read_duration(case.step.as_bytes()).ok()?;
    if !is_calendar_step(step) || case.horizon >= 100_000_000 {
        return None;
    }
    last_start(zone, &first, step, case.horizon, minute)
}

/// Whether each start of a case is the last one from its minute on, up to the next.
fn begin_windows(zone: &Zone, case: &Case) -> bool {
    let mut before = None;
    for start in case.starts {
        let is_other = before != Some(*start);
        if is_other && last_of(zone, case, start.saturating_sub(1)) != before {
            return false;
        }
        before = Some(*start);
        if last_of(zone, case, *start) != before {
            return false;
        }
    }
    last_of(zone, case, u32::MAX) == before
}

/// Whether a case has its starts in a zone.
fn has_starts(alloc: Global, zone: &Zone, case: &Case) -> bool {
    match starts_of(alloc, zone, case.first, case.step, case.horizon) {
        Some(list) => list.as_slice() == case.starts,
        None => false,
    }
}

/// Each case has its starts in the zone of the bytes.
fn expect_starts(rt: &impl Abort, alloc: Global, bytes: &[u8], cases: &[Case]) {
    let zone = read_zone(alloc, bytes).expect(rt, "a zone");
    for case in cases {
        expect(rt, has_starts(alloc, &zone, case), case.first);
        expect(rt, begin_windows(&zone, case), case.first);
    }
}

#[test]
fn a_rule_gives_starts_over_its_gap_and_its_fold(rt: HostRuntime) {
    for bytes in ["EST5EDT,M3.2.0,M11.1.0", "EST5EDT,M3.2.0,M11.1.0\n"] {
        expect_starts(&rt, rt.alloc(), bytes.as_bytes(), &EASTERN_STARTS);
    }
    expect_starts(&rt, rt.alloc(), b"AAA23BBB-23,M3.2.0,M11.1.0", &WIDE_STARTS);
    expect_starts(&rt, rt.alloc(), b"UTC0", &UTC_STARTS);
}

#[test]
fn a_zone_file_gives_starts_over_its_changes(rt: HostRuntime) {
    expect_starts(&rt, rt.alloc(), BUILT_FILE, &BUILT_STARTS);
    expect_starts(&rt, rt.alloc(), BERLIN, &BERLIN_STARTS);
    expect_starts(&rt, rt.alloc(), APIA, &APIA_STARTS);
    expect_starts(&rt, rt.alloc(), SAO_PAULO, &SAO_PAULO_STARTS);
}

/// The window of a minute among the starts in a zone.
fn window_among(
    alloc: Global,
    zone: &Zone,
    first: &str,
    step: &str,
    minute: u32,
) -> Option<(u32, Option<u32>)> {
    let list = starts_of(alloc, zone, first, step, 28_600_000)?;
    window_at(list.as_slice(), minute)
}

#[test]
fn a_minute_has_its_window_among_the_starts(rt: HostRuntime) {
    let zone = read_zone(rt.alloc(), b"EST5EDT,M3.2.0,M11.1.0").expect(&rt, "a zone");
    let short_day = window_among(rt.alloc(), &zone, "2024-03-01 00:00:00", "1d", 28_501_000);
    let is_right = short_day == Some((28_500_780, Some(28_502_160)));
    expect(&rt, is_right, "the day of a gap");
    let month = "2023-01-31 00:00:00";
    let first = window_among(rt.alloc(), &Zone::utc(), month, "1M", 27_918_720);
    expect(&rt, first.is_some(), "the first minute");
    let before = window_among(rt.alloc(), &Zone::utc(), month, "1M", 27_918_719);
    expect(&rt, before.is_none(), "the minute before the first");
}

/// How many starts there are, or why there is no list of them.
fn count_of(list: Result<Vec<u32>, StartsFault>) -> Result<usize, StartsFault> {
    Ok(list?.len())
}

#[test]
fn more_than_forty_thousand_starts_are_too_many(rt: HostRuntime) {
    let first = read_civil(b"1971-01-01 00:00:00").expect(&rt, "a moment");
    let day = Duration {
        count: 1,
        unit: Unit::Day,
    };
    let few = count_of(starts(rt.alloc(), &Zone::utc(), &first, day, 57_000_000));
    let many = count_of(starts(rt.alloc(), &Zone::utc(), &first, day, 60_000_000));
    expect(&rt, few == Ok(39_220), "few");
    expect(&rt, many == Err(StartsFault::TooManyStarts), "many");
    expect(&rt, !has_too_many_starts(&first, day, 57_000_000), "few");
    expect(&rt, has_too_many_starts(&first, day, 60_000_000), "many");
    let last = last_start(&Zone::utc(), &first, day, 60_000_000, u32::MAX);
    expect(&rt, last == Some(60_000_480), "the last of many");
}

/// Whether bytes are no zone.
fn are_refused(alloc: Global, bytes: &[u8]) -> bool {
    matches!(read_zone(alloc, bytes), Err(ZoneFault::BadZone))
}

#[test]
fn other_bytes_are_no_zone(rt: HostRuntime) {
    for bytes in &NO_ZONES {
        expect(&rt, are_refused(rt.alloc(), bytes), "no zone");
    }
    let part = &BERLIN[..300];
    expect(&rt, are_refused(rt.alloc(), part), "a part of a file");
}

#[test]
fn moments_are_read(rt: HostRuntime) {
    for (text, is_moment) in &MOMENTS {
        let moment = read_civil(text.as_bytes());
        expect(&rt, moment.is_some() == *is_moment, text);
    }
}

#[test]
fn a_minute_has_the_window_that_began_last(rt: HostRuntime) {
    let starts = [10, 20, 20, 35];
    expect(&rt, window_at(&[], 9).is_none(), "no starts");
    for (minute, window) in &WINDOWS {
        expect(&rt, window_at(&starts, *minute) == *window, "a window");
    }
}
