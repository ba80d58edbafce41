//! What minutes count for, before exclusion and after it, over batches that got their room at once.
ghost use Rattle.std.specs.Prelude.{◌≡◌, ◌≤◌, ◌+◌, ◌*◌, ◌^◌, ◌∷◌, length};
ghost use Rattle.std.specs.List.{AllByRecursion};
ghost use Rattle.sample_book.specs.History.{MayComeAll, MayComeAs, is_put, room_after, rows_after};
ghost use Rattle.sample_book.specs.Rows.{cell_of, verdict_of};
ghost use Rattle.sample_tests.specs.Events.{HasEvents};

use crate::kept_samples::{agrees, empty_book, exclude, label, let_go, lift};
use exact_fraction::{Decimal, Label, Op};
use sample_book::{Row, RowVerdict, SampleBook, laws};
use slice_method::{Amount, Reading};
use std::process::Abort;

fn events(sli: Label, source: Label, minute: u32, revision: u32, good: u32) -> Row
    requires { good ≤ 10 }
    ensures { HasEvents result }
{
    Row {
        sli,
        source,
        minute,
        revision,
        amount: Amount::Counts {
            part: good,
            total: 10,
        },
    }
}

fn is_put(verdict: &RowVerdict) -> bool
    ensures { result ≡ is_put verdict.now }
{
    match verdict {
        RowVerdict::New => true,
        RowVerdict::Newer(_) => true,
        _ => false,
    }
}

/// Puts a row that is new or newer, and passes over another.
fn put_row(book: &mut SampleBook, row: &Row)
    requires { MayComeAs (verdict_of book.old.rows row.now) book.old.room (cell_of row.now) }
    ensures rows { book.new.rows ≡ rows_after book.old.rows row.now }
    ensures room { book.new.room ≡ room_after (verdict_of book.old.rows row.now) book.old.room }
    ensures held { AllByRecursion HasEvents book.old.rows → HasEvents row.now
        → AllByRecursion HasEvents book.new.rows }
    ensures few { length book.new.rows ≤ length book.old.rows + 1 }
{
    let verdict = book.check(row);
    if is_put(&verdict) {
        book.put(row);
    }
}

fn put_rows(book: &mut SampleBook, rows: &[Row])
    requires may { MayComeAll book.old.rows book.old.room rows.now }
    requires events { AllByRecursion HasEvents rows.now }
    requires held { AllByRecursion HasEvents book.old.rows }
    ensures held { AllByRecursion HasEvents book.new.rows }
    ensures few { length book.new.rows ≤ length book.old.rows + length rows.now }
{
    for row in rows {
        put_row(book, row);
    }
}

/// Gives a whole batch its room, and puts it.
fn take_batch(book: &mut SampleBook, rows: &[Row]) -> bool
    requires events { AllByRecursion HasEvents rows.now }
    requires held { AllByRecursion HasEvents book.old.rows }
    ensures held { AllByRecursion HasEvents book.new.rows }
    ensures few { length book.new.rows ≤ length book.old.rows + length rows.now }
{
    book.rows_are_current();
    laws::room_is_enough();
    match book.make_room(rows) {
        Ok(()) => {}
        Err(_) => return false,
    }
    put_rows(book, rows);
    true
}

/// Two sources of an indicator at minute 1440, of which the first corrects itself, and one of them
/// a minute later; and another indicator.
fn batch(web: Label, shop: Label) -> [Row; 5]
    ensures events { AllByRecursion HasEvents result }
    ensures few { length result ≡ 5 }
{
    [
        events(web, web, 1440, 1, 3),
        events(web, shop, 1440, 1, 4),
        events(web, web, 1441, 1, 1),
        events(shop, web, 1440, 1, 7),
        events(web, web, 1440, 2, 9),
    ]
}

fn good_at(book: &SampleBook, sli: Label, minute: u32) -> (u64, u64)
    requires held { AllByRecursion HasEvents book.now.rows }
    requires few { length book.now.rows ≤ 5 }
{
    let none = Decimal::of_billionths(0);
    let sum = book.counts_at(sli, Reading::Good, Op::Lte, none, minute);
    (sum.good, sum.total)
}

fn counted_at(book: &SampleBook, slo: Label, sli: Label, minute: u32) -> (u64, u64)
    requires held { AllByRecursion HasEvents book.now.rows }
    requires few { length book.now.rows ≤ 5 }
{
    let none = Decimal::of_billionths(0);
    let sum = book.counted_at(slo, sli, Reading::Good, Op::Lte, none, minute);
    (sum.good, sum.total)
}

#[test]
fn a_minute_counts_by_its_current_rows(rt: HostRuntime) {
    let web = label(&rt, b"web");
    let shop = label(&rt, b"shop");
    let mut book = empty_book(&rt, rt.alloc());
    assert!(rt; take_batch(&mut book, &batch(web, shop)));
    assert!(rt; good_at(&book, web, 1440) == (13, 20) && good_at(&book, web, 1441) == (1, 10));
    assert!(rt; good_at(&book, shop, 1440) == (7, 10) && good_at(&book, web, 0) == (0, 0));
    let_go(book);
}

#[test]
fn the_first_row_and_the_days_of_an_indicator_are_known(rt: HostRuntime) {
    let web = label(&rt, b"web");
    let shop = label(&rt, b"shop");
    let mut book = empty_book(&rt, rt.alloc());
    assert!(rt; book.first_row(web).is_none() && book.days_of(web) == 0);
    assert!(rt; take_batch(&mut book, &batch(web, shop)));
    assert!(rt; book.first_row(web) == Some(events(web, web, 1440, 2, 9)));
    assert!(rt; book.first_row(shop) == Some(events(shop, web, 1440, 1, 7)));
    assert!(rt; book.days_of(web) == 1 && book.days_of(shop) == 1);
    let more = [events(web, web, 1439, 1, 1), events(web, web, 2880, 1, 1)];
    assert!(rt; take_batch(&mut book, &more));
    assert!(rt; book.days_of(web) == 3 && book.days_of(shop) == 1 && book.cells() == 6);
    let_go(book);
}

/// [1440, 1441) of the objective `shop`.
fn exclude_first(book: &mut SampleBook, slo: Label) -> bool
    ensures { book.new.rows ≡ book.old.rows }
{
    exclude(book, slo, slo, 1440, 1441)
}

#[test]
fn an_excluded_minute_counts_nothing_until_it_is_lifted(rt: HostRuntime) {
    let web = label(&rt, b"web");
    let shop = label(&rt, b"shop");
    let mut book = empty_book(&rt, rt.alloc());
    assert!(rt; take_batch(&mut book, &batch(web, shop)) & exclude_first(&mut book, shop));
    assert!(rt; counted_at(&book, shop, web, 1440) == (0, 0));
    assert!(rt; counted_at(&book, shop, web, 1441) == (1, 10));
    assert!(rt; counted_at(&book, web, web, 1440) == (13, 20));
    assert!(rt; lift(&mut book, shop) && counted_at(&book, shop, web, 1440) == (13, 20));
    let_go(book);
}

fn id(rt: &impl Abort, number: u32) -> Label {
    let text = [
        b'm',
        b'0' + (number / 10 % 10) as u8,
        b'0' + (number % 10) as u8,
    ];
    label(rt, &text)
}

/// Thirty exclusions, of ten minutes at the end of each of thirty days, and one of two days.
fn exclude_many(rt: &impl Abort, book: &mut SampleBook, slo: Label, other: Label) -> bool {
    let mut made = exclude(book, id(rt, 99), slo, 100_000, 102_880);
    for number in 0..30u32 {
        let from = number * 1440 + 1435;
        let owner = if number % 2 == 0 { slo } else { other };
        made &= exclude(book, id(rt, number), owner, from, from + 10);
    }
    made
}

/// The minutes before, in and behind exclusions, across midnight, and in the one of two days.
const OWN: [(u32, bool); 12] = [
    (1434, false),
    (1435, true),
    (1440, true),
    (1444, true),
    (1445, false),
    (2880, false),
    (4320, true),
    (41_764, true),
    (41_765, false),
    (99_999, false),
    (101_500, true),
    (102_880, false),
];

const OTHERS: [(u32, bool); 5] = [
    (1440, false),
    (2875, true),
    (2884, true),
    (2885, false),
    (101_500, false),
];

#[test]
fn many_exclusions_take_their_own_minutes_alone(rt: HostRuntime) {
    let slo = label(&rt, b"shop");
    let other = label(&rt, b"bar");
    let mut book = empty_book(&rt, rt.alloc());
    assert!(rt; exclude_many(&rt, &mut book, slo, other));
    assert!(rt; agrees(&book, slo, &OWN) & agrees(&book, other, &OTHERS));
    assert!(rt; lift(&mut book, id(&rt, 2)) && agrees(&book, slo, &[(4320, false), (1440, true)]));
    let_go(book);
}
