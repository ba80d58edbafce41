//! Records written out by hand from the format, and bytes that are none. A table is one text, since
//! a proof of a test costs by its literals: the bytes of a row are pairs of digits of 16, and texts
//! between quotes.
use crate::expectations::{expect, expect_text};
use crate::requests::change_text;
use record_form::{Entry, LimitName, Outcome, Refusal, YamlWord, read_record, write_record};
use std::alloc::{AllocError, Global};
use std::process::Abort;
use std::{mem, str};
use yaml_terms::ProfileFault;

/// The records of the nine commands at 500, and the commands in words, where `;` ends a line.
const RECORDS: &str = "\
000001f4 01 00000005 'a:' 20 'b' 0a ~ 500 define a: b;
000001f4 02 03 08 'shop-slo' ~ 500 remove Slo shop-slo
000001f4 03 0d 'Europe/Berlin' 00000005 'CET-1' ~ 500 zone Europe/Berlin CET-1
000001f4 04 0003 \
09 'shop-good' 03 'web' 00000064 00000001 00 00002706 00002710 \
09 'shop-good' 03 'web' 00000065 3b9aca00 01 000000001dcd6500 \
09 'shop-good' 03 'web' 00000066 00000002 02 ~ 500 samples \
shop-good web 100 1 9990/10000 \
shop-good web 101 1000000000 500000000 \
shop-good web 102 2 withdrawn
000001f4 05 05 'night' 08 'shop-slo' 00000384 000003e8 ~ 500 exclude night shop-slo 900 1000
000001f4 06 05 'night' ~ 500 lift night
000001f4 07 ~ 500 tick
000001f4 08 00000003 ~ 500 take 3
000001f4 09 ~ 500 upgrade";

/// Bytes that are no record, below the form that they break.
const NO_RECORDS: &str = "\
# cut short, one byte more, no kind, a kind that isn't there
''
000001
000001f4
000001f4 07 07
000001f4 00
000001f4 0a
000001f4 09 09
# a moment of 67,108,864
04000000 07
# define: a length of one byte more, of one byte less, and of 1,048,577
000001f4 01 00000006 'a:' 20 'b' 0a
000001f4 01 00000004 'a:' 20 'b' 0a
000001f4 01 00100001 'a:' 20 'b' 0a
# remove: an eighth kind, and no name
000001f4 02 07 08 'shop-slo'
000001f4 02 03 00
# zone: a name with a byte that no zone's name has, and a length of 65,537
000001f4 03 03 'a' 20 'b' 00000005 'CET-1'
000001f4 03 03 'CET' 00010001 'CET-1'
# samples: a count of one more than there are, and of 1,001
000001f4 04 0001
000001f4 04 03e9
# a row with the revision 0, one of 10^9 + 1, a minute of 67,108,864
000001f4 04 0001 01 'a' 01 'b' 00000064 00000000 00 00000001 00000001
000001f4 04 0001 01 'a' 01 'b' 00000064 3b9aca01 00 00000001 00000001
000001f4 04 0001 01 'a' 01 'b' 04000000 00000001 00 00000001 00000001
# a fourth form of amounts, and a withdrawn one with bytes behind it
000001f4 04 0001 01 'a' 01 'b' 00000064 00000001 03
000001f4 04 0001 01 'a' 01 'b' 00000064 00000001 02 00000001 00000001
# a value of 10^18 + 1 billionths
000001f4 04 0001 01 'a' 01 'b' 00000064 00000001 01 0de0b6b3a7640001
# exclude: a bound of 134,217,728; lift: a name that ends after the bytes do; take: three bytes
000001f4 05 05 'night' 08 'shop-slo' 00000384 08000000
000001f4 06 06 'night'
000001f4 08 000003";

/// The bytes of a row.
fn bytes_of(alloc: Global, row: &str) -> Result<Vec<u8>, AllocError> {
    let mut bytes = Vec::new(alloc);
    for word in row.split_ascii_whitespace() {
        match word.strip_prefix("'") {
            Some(text) => bytes.extend_from_slice(text.trim_end_matches("'").as_bytes())?,
            None => push_pairs(&mut bytes, word)?,
        }
    }
    Ok(bytes)
}

/// Appends the bytes that pairs of digits of 16 spell.
fn push_pairs(bytes: &mut Vec<u8>, digits: &str) -> Result<(), AllocError> {
    for pair in digits.as_bytes().chunks_exact(2) {
        let pair = str::from_utf8(pair).unwrap_or("");
        bytes.push(u8::from_str_radix(pair, 16).unwrap_or(0))?;
    }
    Ok(())
}

/// An entry in words.
fn entry_text(alloc: Global, entry: &Entry) -> Result<String, AllocError> {
    let change = change_text(alloc, &entry.command)?;
    let change = change.replace(alloc, "\n", ";")?;
    format!(in alloc; "{} {change}", entry.moment)
}

/// The record of a row in words, and `none` where it is none. A record is written as it was read.
fn told(rt: &(impl AllocGlobal + Abort), row: &str) -> String {
    let bytes = bytes_of(rt.alloc(), row).expect(rt, "memory");
    match read_record(rt.alloc(), &bytes).expect(rt, "memory") {
        Some(entry) => {
            let again = write_record(rt.alloc(), &entry).expect(rt, "memory");
            expect(rt, again.as_bytes() == bytes.as_slice(), row);
            let text = entry_text(rt.alloc(), &entry).expect(rt, "memory");
            mem::forget(entry);
            text
        }
        None => String::from_str(rt.alloc(), "none").expect(rt, "memory"),
    }
}

#[test]
fn records_are_read_and_written_again(rt: HostRuntime) {
    for line in RECORDS.lines() {
        let (row, wanted) = line.split_once(" ~ ").expect(&rt, "a record");
        expect_text(&rt, row, &told(&rt, row), wanted);
    }
}

#[test]
fn other_bytes_are_no_record(rt: HostRuntime) {
    for row in NO_RECORDS.lines() {
        if !row.starts_with("#") {
            expect_text(&rt, row, &told(&rt, row), "none");
        }
    }
}

/// The status and the word of an outcome that is no success.
fn failure(rt: &impl Abort, outcome: Outcome, wanted: Option<(u16, &'static str)>) {
    expect(rt, outcome.failure() == wanted, "a failure");
    mem::forget(outcome);
}

#[test]
fn refusals_are_told_by_status_and_word(rt: HostRuntime) {
    let which = LimitName::ZoneBytes;
    let limit = Outcome::Refused(Refusal::Limit { which });
    failure(&rt, limit, Some((507, "limit")));
    let not_found = Outcome::Refused(Refusal::NotFound);
    failure(&rt, not_found, Some((404, "not_found")));
    failure(&rt, Outcome::NoMemory, Some((503, "no_memory")));
    failure(&rt, Outcome::Changed { entry: None }, None);
    expect_text(&rt, "a limit", which.word(), "zone_bytes");
    expect_text(&rt, "a text", YamlWord::NotUtf8.word(), "not_utf8");
    let deep = YamlWord::Form(ProfileFault::TooDeep);
    expect_text(&rt, "a text", deep.word(), "too_deep");
}
