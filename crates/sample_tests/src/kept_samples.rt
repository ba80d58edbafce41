//! Rows and exclusions that come to a book, and that each call succeeds, which no clause says.
ghost use Rattle.std.specs.Prelude.{◌≡◌, []};

use crate::expectations::{expect, expect_text};
use exact_fraction::{Label, read_label};
use sample_book::{Exclusion, Row, RowVerdict, SampleBook};
use slice_method::Amount;
use std::alloc::{AllocError, Global};
use std::process::Abort;
use std::{mem, slice};

pub(crate) fn label(rt: &impl Abort, text: &[u8]) -> Label {
    read_label(text).expect(rt, "a label")
}

pub(crate) fn empty_book(rt: &impl Abort, alloc: Global) -> SampleBook
    ensures { result.rows ≡ [] }
{
    SampleBook::new(alloc).expect(rt, "memory")
}

/// Ends a book, whose memory goes with the test's. The proof that all of it is let go is long, and
/// no test is about it.
pub(crate) fn let_go(book: SampleBook) {
    mem::forget(book);
}

fn row(web: Label, revision: u32, part: u32) -> Row {
    Row {
        sli: web,
        source: web,
        minute: 100,
        revision,
        amount: Amount::Counts {
            part,
            total: 10_000,
        },
    }
}

/// Takes a row as a caller does: what is new gets room, what is new or newer is put.
fn take(book: &mut SampleBook, row: &Row) -> Result<RowVerdict, AllocError> {
    let verdict = book.check(row);
    match verdict {
        RowVerdict::New => {
            book.make_room(slice::from_ref(row))?;
            book.put(row);
        }
        RowVerdict::Newer(_) => book.put(row),
        RowVerdict::Repeated | RowVerdict::Superseded(_) | RowVerdict::Conflict(_) => {}
    }
    Ok(verdict)
}

fn word(verdict: Result<RowVerdict, AllocError>) -> &'static str {
    match verdict {
        Ok(RowVerdict::New) => "new",
        Ok(RowVerdict::Newer(_)) => "newer",
        Ok(RowVerdict::Repeated) => "repeated",
        Ok(RowVerdict::Superseded(_)) => "superseded",
        Ok(RowVerdict::Conflict(_)) => "conflict",
        Err(_) => "no memory",
    }
}

/// One cell gets the revisions 1, 3, 2, 3, and then 3 with another amount.
const BATCH: [(u32, u32, &str); 5] = [
    (1, 9990, "new"),
    (3, 1, "newer"),
    (2, 9995, "superseded"),
    (3, 1, "repeated"),
    (3, 2, "conflict"),
];

#[test]
fn the_greatest_revision_counts(rt: HostRuntime) {
    let web = label(&rt, b"web");
    let mut book = empty_book(&rt, rt.alloc());
    for (revision, part, want) in BATCH {
        let told = word(take(&mut book, &row(web, revision, part)));
        expect_text(&rt, "a row", told, want);
    }
    assert!(rt; book.row_at(0) == Some(row(web, 3, 1)) && book.cells() == 1);
    let_go(book);
}

/// The same batch as a whole, over a book that stays empty.
fn words_of_batch(
    alloc: Global,
    book: &SampleBook,
    web: Label,
) -> Result<Vec<&'static str>, AllocError> {
    let mut rows = Vec::new(alloc);
    for (revision, part, _) in BATCH {
        rows.push(row(web, revision, part))?;
    }
    let mut words = Vec::new(alloc);
    for verdict in &book.check_batch(alloc, &rows)? {
        words.push(word(Ok(*verdict)))?;
    }
    Ok(words)
}

#[test]
fn a_batch_is_judged_and_not_put(rt: HostRuntime) {
    let book = empty_book(&rt, rt.alloc());
    let words = words_of_batch(rt.alloc(), &book, label(&rt, b"web")).expect(&rt, "memory");
    let wanted = ["new", "newer", "superseded", "repeated", "conflict"];
    expect(&rt, words.as_slice() == wanted.as_slice(), "a batch");
    assert!(rt; book.cells() == 0);
    let_go(book);
}

/// Two sources, three minutes on two days, sent in two batches: minute 1439 is of day 0, minute
/// 1440 of day 1.
fn sent(source: Label, minute: u32) -> Row {
    Row {
        sli: source,
        source,
        minute,
        revision: 1,
        amount: Amount::Counts { part: 1, total: 2 },
    }
}

/// Gives a batch room, and takes its rows.
fn take_batch(book: &mut SampleBook, rows: &[Row]) -> Result<(), AllocError> {
    book.make_room(rows)?;
    for row in rows {
        take(book, row)?;
    }
    Ok(())
}

#[test]
fn rows_of_a_day_are_found(rt: HostRuntime) {
    let web = label(&rt, b"web");
    let shop = label(&rt, b"shop");
    let mut book = empty_book(&rt, rt.alloc());
    let first = [sent(web, 1439), sent(shop, 1440), sent(web, 1440)];
    take_batch(&mut book, &first).expect(&rt, "memory");
    take_batch(&mut book, &[sent(web, 3), sent(web, 1441)]).expect(&rt, "memory");
    let lasts = [
        book.last_row_on(web, 0),
        book.last_row_on(web, 1),
        book.last_row_on(shop, 0),
    ];
    assert!(rt; lasts == [Some(3), Some(4), None]);
    assert!(rt; book.last_row(web) == Some(4) && book.last_row(shop) == Some(1));
    assert!(rt; book.first_row(shop) == Some(sent(shop, 1440)));
    let_go(book);
}

/// Makes an exclusion as a caller does, where its id is unused.
pub(crate) fn exclude(book: &mut SampleBook, id: Label, slo: Label, from: u32, to: u32) -> bool
    ensures { book.new.rows ≡ book.old.rows }
{
    if book.exclusion(id).is_none() && book.reserve(1).is_ok() {
        book.exclude(Exclusion { id, slo, from, to });
        true
    } else {
        false
    }
}

/// Lifts an exclusion as a caller does, where it is live.
pub(crate) fn lift(book: &mut SampleBook, id: Label) -> bool
    ensures { book.new.rows ≡ book.old.rows }
{
    match book.exclusion(id) {
        Some((_, true)) => {
            book.lift(id);
            true
        }
        _ => false,
    }
}

/// Whether exactly those of these minutes are excluded whose flag says so.
pub(crate) fn agrees(book: &SampleBook, slo: Label, minutes: &[(u32, bool)]) -> bool {
    minutes
        .iter()
        .all(|minute| book.is_excluded(slo, minute.0) == minute.1)
}

const BOTH: [(u32, bool); 6] = [
    (99, false),
    (100, true),
    (107, true),
    (110, true),
    (114, true),
    (115, false),
];

const LATER: [(u32, bool); 5] = [
    (100, false),
    (104, false),
    (105, true),
    (114, true),
    (115, false),
];

const NEITHER: [(u32, bool); 3] = [(100, false), (107, false), (114, false)];

/// [100, 110) under the objective's own name, and [105, 115) under another one.
fn exclude_both(book: &mut SampleBook, slo: Label, other: Label) -> bool {
    let first = exclude(book, slo, slo, 100, 110);
    let second = exclude(book, other, slo, 105, 115);
    first & second
}

/// Whether the minutes are as they should be while both are live, after the first was lifted, and
/// after both were.
fn lifts_one_by_one(book: &mut SampleBook, slo: Label, other: Label) -> bool {
    let both = agrees(book, slo, &BOTH) & agrees(book, other, &NEITHER);
    let lifted = lift(book, slo);
    let later = agrees(book, slo, &LATER);
    let all = lift(book, other);
    let neither = agrees(book, slo, &NEITHER);
    both & lifted & later & all & neither
}

#[test]
fn overlapping_exclusions_are_lifted_one_by_one(rt: HostRuntime) {
    let slo = label(&rt, b"shop");
    let other = label(&rt, b"bar");
    let mut book = empty_book(&rt, rt.alloc());
    assert!(rt; exclude_both(&mut book, slo, other));
    assert!(rt; lifts_one_by_one(&mut book, slo, other));
    let first = Exclusion {
        id: slo,
        slo,
        from: 100,
        to: 110,
    };
    assert!(rt; book.exclusion_at(0) == Some((first, false)) && book.exclusions() == 2);
    assert!(rt; book.exclusion_at(2).is_none());
    let_go(book);
}

/// What further rows are where revision 2 with 9995 of 10000 is kept.
const AFTER: [(u32, u32, &str); 4] = [
    (2, 9995, "repeated"),
    (1, 9995, "superseded"),
    (2, 1, "conflict"),
    (3, 1, "newer"),
];

/// Whether each of these rows is judged so over the book.
fn are_judged(book: &SampleBook, web: Label, rows: &[(u32, u32, &str)]) -> bool {
    rows.iter().all(|want| word(Ok(book.check(&row(web, want.0, want.1)))) == want.2)
}

/// Whether the refusals show what is kept.
fn show_the_kept_row(book: &SampleBook, web: Label) -> bool {
    let old = book.check(&row(web, 1, 1)) == RowVerdict::Superseded(2);
    let other = book.check(&row(web, 2, 1)) == RowVerdict::Conflict(row(web, 2, 9995));
    old & other
}

#[test]
fn rows_are_judged_by_the_kept_one(rt: HostRuntime) {
    let web = label(&rt, b"web");
    let mut book = empty_book(&rt, rt.alloc());
    let told = word(take(&mut book, &row(web, 2, 9995)));
    expect_text(&rt, "a row", told, "new");
    assert!(rt; are_judged(&book, web, &AFTER) & show_the_kept_row(&book, web));
    let_go(book);
}

/// Room for a further cell is no row.
#[test]
fn room_is_no_row(rt: HostRuntime) {
    let web = label(&rt, b"web");
    let bar = label(&rt, b"bar");
    let mut book = empty_book(&rt, rt.alloc());
    let told = word(take(&mut book, &row(web, 2, 9995)));
    expect_text(&rt, "a row", told, "new");
    let alone = book.row_at(1).is_none();
    let roomy = book.make_room(slice::from_ref(&row(bar, 1, 1))).is_ok();
    let first = book.row_at(0) == Some(row(web, 2, 9995));
    assert!(rt; alone & roomy & first & book.row_at(1).is_none());
    let_go(book);
}

/// Whether an exclusion is kept, and not live.
fn is_lifted(book: &SampleBook, id: Label) -> bool {
    match book.exclusion(id) {
        Some((_, live)) => !live,
        None => false,
    }
}

const ONE_MINUTE: [(u32, bool); 3] = [(99, false), (100, true), (101, false)];

/// [100, 101) has one minute, and none once it is lifted.
fn excludes_one_minute(book: &mut SampleBook, slo: Label) -> bool {
    let made = exclude(book, slo, slo, 100, 101);
    let live = agrees(book, slo, &ONE_MINUTE);
    let lifted = lift(book, slo);
    let after = agrees(book, slo, &NEITHER);
    made & live & lifted & after & is_lifted(book, slo)
}

#[test]
fn an_exclusion_ends_before_its_last_minute(rt: HostRuntime) {
    let slo = label(&rt, b"shop");
    let mut book = empty_book(&rt, rt.alloc());
    assert!(rt; excludes_one_minute(&mut book, slo));
    let_go(book);
}
