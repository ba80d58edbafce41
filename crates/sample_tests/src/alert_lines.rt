//! Whole questions to a line, against answers of a plain evaluation outside of this code: sums of
//! leaves, fractions and sets of minutes.
ghost use Rattle.std.specs.Prelude.{◌≡◌, ◌+◌, ◌<◌, ◌≤◌};
ghost use Rattle.std.specs.Int.{◌∣◌};
ghost use Rattle.burn_core.specs.Alert.{IsRule};
ghost use Rattle.window_sums.specs.Slices.{CountedDays, width_of};
ghost use Rattle.alert_line.specs.Line.{Agrees, IsMinute, SameAlert};

use crate::added_events::{filled, method_of};
use crate::expectations::{expect, expect_text};
use crate::row_words::number;
use alert_line::{AlertLine, Spans};
use burn_core::{AlertRule, State};
use exact_fraction::{Decimal, Op, read_decimal};
use slice_method::Method;
use std::alloc::Global;
use std::marker::Brand;
use std::process::Abort;
use std::str::SplitWhitespace;
use std::sync::ledger::{Blank, Ledger};
use sum_pages::Steps;
use window_sums::WindowSums;

/// The first line of a block has the width of the slices and the samples, each a minute, its good
/// events and all. The others are questions: a rule (operator, threshold, lookback and wait, or the
/// name of a built-in one), the target, the origin, a range and a minute. The answer is the
/// condition and the state at that minute, and when the alert is active within the range.
fn questions() -> &'static str {
    "\
1  1880 200000 200000  1998 98560 100000
page 0.999 0 1990 2010 2000 => false quiet

1  1880 200000 200000  1998 98559 100000
page 0.999 0 1990 2010 2000 => true breaching 1999..2004
page 0.999 0 1990 2010 2004 => false quiet 1999..2004
page 0.999 2000 2000 2010 2000 => true breaching 2000..2004

1  109 0 10
gt 1 10 0 0.9 0 100 130 115 => true breaching 110..120
gt 1 10 5 0.9 0 100 130 115 => true breaching 115..120
gt 1 10 9 0.9 0 100 130 119 => true breaching 119..120
gt 1 10 10 0.9 0 100 130 119 => true quiet

1  100 0 10  109 0 10
gt 1 10 0 0.9 110 110 130 110 => true breaching 110..120
gt 1 10 5 0.9 110 110 130 114 => true quiet 115..120
gt 1 10 9 0.9 101 101 130 109 => true quiet 110..120

1
gt 2 60 0 0.999 0 0 40 20 => false no_data
lte 10000 60 0 0.999 0 0 40 20 => false no_data

1  1000 1 1
lte 10000 60 0 0.999 0 990 1070 1001 => true breaching 1001..1061
lte 10000 60 0 0.999 0 990 1070 1061 => false no_data 1001..1061

1  1000 0 1000
gt 2 60 5 0.999 0 900 1200 1000 => false no_data 1006..1061
gt 2 60 5 0.999 0 900 1200 1006 => true breaching 1006..1061
gt 2 60 5 0.999 0 900 1200 1061 => false no_data 1006..1061
gt 2 60 5 0.999 0 1000 1006 1005 => true quiet
gt 2 60 5 0.999 0 1006 1007 1006 => true breaching 1006..1007
gt 2 60 5 0.999 0 1060 1100 1060 => true breaching 1060..1061
gt 2 60 5 0.999 0 1010 1010 1010 => true breaching
gt 2 60 5 0.999 1003 1003 1100 1007 => true quiet 1008..1061

1  1700 10000000 10000000  1998 98559 100000
page 0.999 0 1990 2070 2000 => true breaching 1999..2004
ticket 0.999 0 1990 2070 2000 => false quiet

1  1990 9930 10000
page 0.999 0 1985 2400 2000 => true breaching 1991..2021
ticket 0.999 0 1985 2400 2000 => true breaching 1991..2351

1  1990 9980 10000
page 0.999 0 1985 2400 2000 => false quiet
ticket 0.999 0 1985 2400 2000 => true breaching 1991..2351

1  1700 9990 10000  1990 9930 10000  1998 9800 10000
page 0.999 0 1985 2100 1999 => true breaching 1999..2029
ticket 0.999 0 1985 2100 1999 => true breaching 1991..2100

1  1 995 1000  61 995 1000  121 995 1000  181 995 1000  241 995 1000
gt 5 60 0 0.999 0 60 130 121 => false quiet
gte 5 60 0 0.999 0 60 130 121 => true breaching 60..130
lt 5 60 0 0.999 0 60 130 121 => false quiet
lte 5 60 0 0.999 0 60 130 121 => true breaching 60..130
gt 4.999999999 60 0 0.999 0 60 130 121 => true breaching 60..130
lte 4.999999999 60 0 0.999 0 60 130 121 => false quiet
page 0.9996 0 0 300 130 => true breaching 2..32 62..92 122..152 182..212 242..272
ticket 0.999 0 0 900 1 => false no_data 2..602

1  3 1 2  7 9 10  64 0 5  65 5 5  119 3 4  120 4 4  180 0 1  239 8 8
gte 1 100 0 0.5 0 0 130 4 => true breaching 4..8 108..120
gte 1 100 3 0.5 0 0 130 7 => true breaching 7..8 111..120
gte 0.4 100 3 0.5 50 50 130 52 => false quiet 68..130
lt 1 7 2 0.5 66 66 200 70 => false quiet 122..128
gte 0.5 60 20 0.5 0 84 100 84 => true quiet 85..100
gte 0.5 60 20 0.5 0 85 100 85 => true breaching 85..100

5  3 1 2  7 9 10  64 0 5  65 5 5  119 3 4  120 4 4  180 0 1  239 8 8
gte 1 7 0 0.5 0 0 260 69 => false no_data 5..8 65..68 185..188
gt 1 13 2 0.5 0 0 260 124 => false quiet 67..70 187..194
lte 1 4 0 0.5 3 3 260 70 => false no_data
lt 0.7 62 1 0.5 0 0 260 200 => false quiet 11..65 124..183 244..260
gte 1 5 0 0.5 0 60 70 65 => true breaching 65..66
gt 1 5 0 0.5 0 60 70 65 => true breaching 65..66

5  101 0 10  104 0 10  108 0 10
gt 1 12 4 0.9 0 95 130 110 => true breaching 109..118
gt 1 12 0 0.9 101 101 130 101 => false no_data 105..118
page 0.9996 0 95 500 112 => true breaching 105..136
ticket 0.9996 0 95 500 480 => false quiet 105..466

60  3 1 2  7 9 10  64 0 5  65 5 5  119 3 4  120 4 4  180 0 1  239 8 8
gte 1 119 0 0.5 0 0 330 125 => true breaching 60..180 240..300
gte 1 60 10 0.5 0 0 330 130 => false no_data
gt 1 59 0 0.5 0 0 330 125 => false no_data
gte 2 150 5 0.5 0 0 330 245 => false quiet 65..180 276..330
gt 2 150 5 0.5 0 0 330 245 => false quiet
lte 0 300 0 0.5 70 70 400 180 => false quiet
lt 2 130 61 0.5 0 0 400 250 => true breaching 241..251
page 0.5 0 0 500 61 => false no_data
ticket 0.5 0 0 600 361 => true breaching 60..421 481..541

1  100 0 10  43299 10 10
gte 5 43200 0 0.9 0 43295 43305 43300 => true breaching 43295..43301
gte 5 43200 0 0.9 0 43295 43305 43301 => false quiet 43295..43301
gt 5 43200 2 0.9 0 98 105 103 => true breaching 103..105
gte 10 43199 43197 0.9 0 43290 43310 43299 => true breaching 43298..43300

1  2097000 0 10
gt 1 150 30 0.9 0 2097020 2097152 2097151 => false no_data 2097031..2097151
gt 1 152 30 0.9 0 2097020 2097152 2097151 => true breaching 2097031..2097152"
}

fn decimal<R: Abort>(rt: &R, word: Option<&str>, most: u64) -> Decimal
    ensures { result ≤ most }
{
    let text = word.expect(rt, "a decimal");
    let decimal = read_decimal(text.as_bytes()).ok().expect(rt, text);
    assert!(rt; decimal.billionths() <= most);
    decimal
}

/// All events, or the ratios of slices of five minutes, or slices of an hour.
fn method_by(width: &str) -> Method
    ensures { width_of result ∣ 60 }
{
    match width {
        "60" => method_of(60, Some(990_000_000)),
        "5" => method_of(5, None),
        _ => method_of(0, None),
    }
}

/// The sums of a block.
fn sums_of<R: Abort>(rt: &R, alloc: Global, line: &str) -> WindowSums {
    let (width, events) = line.split_once(" ").unwrap_or((line, ""));
    filled(rt, alloc, method_by(width), events)
}

fn op_of(name: &str) -> Op {
    match name {
        "lte" => Op::Lte,
        "gte" => Op::Gte,
        "lt" => Op::Lt,
        _ => Op::Gt,
    }
}

fn rule_of<R: Abort>(rt: &R, words: &mut SplitWhitespace<'_>) -> AlertRule
    ensures { IsRule result }
{
    let name = words.next().expect(rt, "a rule");
    if name == "page" {
        return AlertRule::Page;
    }
    if name == "ticket" {
        return AlertRule::Ticket;
    }
    AlertRule::Single {
        op: op_of(name),
        threshold: decimal(rt, words.next(), 10_000_000_000_000),
        lookback: number(rt, words.next(), 43_200) as u32,
        after: number(rt, words.next(), 43_200) as u32,
    }
}

/// The line of a question, and its origin.
fn line_of<R: Abort>(rt: &R, alloc: Global, words: &mut SplitWhitespace<'_>) -> (AlertLine, u32)
    ensures origin { result.0.origin ≡ result.1 }
    ensures agrees { (sums : CountedDays) → Agrees result.0 sums }
{
    let rule = rule_of(rt, words);
    let target = decimal(rt, words.next(), 999_999_999);
    let origin = number(rt, words.next(), 3_000) as u32;
    let line = AlertLine::new(alloc, origin, rule, target).expect(rt, "a line");
    (line, origin)
}

fn shown(rt: &(impl AllocGlobal + Abort), holds: bool, state: State, spans: &Spans) -> String {
    let word = state.word();
    let mut text = format!(in rt.alloc(); "{holds} {word}").expect(rt, "memory");
    for (from, to) in spans {
        let span = format!(in rt.alloc(); " {from}..{to}").expect(rt, "memory");
        text.push_str(&span).expect(rt, "memory");
    }
    text
}

fn answer_by<L: Ledger, R: AllocGlobal + Abort>(
    rt: &R,
    line: &mut AlertLine,
    range: (u32, u32),
    at: u32,
    sums: &WindowSums,
    blank: Blank,
) -> String
    requires order { range.0 ≤ range.1 }
    requires begin { line.old.origin ≤ range.0 }
    requires end { range.1 ≤ line.old.origin + 2097152 }
    requires minute { IsMinute line.old at }
    requires agrees { Agrees line.old sums.now }
    requires blank { (blank.name ≡ L.name) × (blank.parts ≡ L.parts) × (0 < L.parts) }
    ensures alert { SameAlert line.old line.new }
    ensures agrees { Agrees line.new sums.now }
{
    let mut steps = Steps::<L>::new(blank);
    let holds = line.condition_at(at, sums, &mut steps);
    let state = line.state_at(at, sums, &mut steps);
    let spans = line
        .intervals(range.0, range.1, sums, &mut steps)
        .expect(rt, "memory");
    shown(rt, holds, state, &spans)
}

/// The line gives the answer of a row, for a caller that counts no steps.
fn expect_answer<R: AllocGlobal + Abort>(
    rt: &R,
    line: &mut AlertLine,
    range: (u32, u32),
    at: u32,
    sums: &WindowSums,
    row: (&str, &str),
)
    requires order { range.0 ≤ range.1 }
    requires begin { line.old.origin ≤ range.0 }
    requires end { range.1 ≤ line.old.origin + 2097152 }
    requires minute { IsMinute line.old at }
    requires agrees { Agrees line.old sums.now }
    ensures alert { SameAlert line.old line.new }
    ensures agrees { Agrees line.new sums.now }
{
    let told = answer_by::<Brand, R>(rt, line, range, at, sums, Blank::new(1));
    expect_text(rt, row.0, &told, row.1);
}

/// Asks a new line, again when all is known, and again when a part was forgotten. Gives the line.
fn ask<R: AllocGlobal + Abort>(rt: &R, row: &str, sums: &WindowSums) -> AlertLine {
    let (question, want) = row.split_once(" => ").expect(rt, "an answer");
    let mut words = question.split_whitespace();
    let (mut line, origin) = line_of(rt, rt.alloc(), &mut words);
    let from = number(rt, words.next(), 2_097_152) as u32;
    let to = number(rt, words.next(), 2_097_152) as u32;
    let at = number(rt, words.next(), 2_097_151) as u32;
    assert!(rt; origin <= from && from <= to && origin <= at);
    expect_answer(rt, &mut line, (from, to), at, sums, (question, want));
    expect_answer(rt, &mut line, (from, to), at, sums, (question, want));
    line.mark(at, to);
    expect_answer(rt, &mut line, (from, to), at, sums, (question, want));
    line
}

#[test]
fn lines_answer_as_a_plain_evaluation_does(rt: HostRuntime) {
    for block in questions().split("\n\n") {
        let (samples, rows) = block.split_once('\n').expect(&rt, "questions");
        let sums = sums_of(&rt, rt.alloc(), samples);
        for row in rows.lines() {
            ask(&rt, row, &sums);
        }
    }
}

#[test]
fn marks_forget_their_minutes_alone(rt: HostRuntime) {
    let sums = sums_of(&rt, rt.alloc(), "1  1000 0 1000");
    let row = "gt 2 60 5 0.999 0 900 1200 1006 => true breaching 1006..1061";
    let mut line = ask(&rt, row, &sums);
    line.mark(1_061, 1_061);
    for minute in 0..2_000 {
        let is_known = line.known_at(minute).is_some();
        expect(&rt, is_known == (895..1_200).contains(&minute), "known");
    }
    line.mark(1_001, 1_061);
    for minute in 895..1_200 {
        let is_forgotten = line.known_at(minute).is_none();
        expect(
            &rt,
            is_forgotten == (1_001..1_061).contains(&minute),
            "forgotten",
        );
    }
}
