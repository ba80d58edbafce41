//! Which changes of state are planned as notices, and the box in which notices wait.
use crate::expectations::expect;
use burn_core::{Flags, State};
use exact_fraction::read_label;
use notice_box::{Notice, NoticeBox, UnknownNotice, plan};
use std::alloc::Global;
use std::process::Abort;

/// What a plan is over three bindings with the same flags.
#[test]
fn plans_give_notice_of_changes_whose_flag_is_set(rt: HostRuntime) {
    let before = [State::Quiet, State::Breaching, State::NoData];
    let now = [State::Breaching, State::Quiet, State::NoData];
    let later = [State::NoData, State::NoData, State::Quiet];
    let some = Flags::built_in();
    let breaching = Flags {
        resolved: false,
        ..some
    };
    let all = Flags {
        no_data: true,
        ..some
    };
    let rows = [
        (
            before,
            now,
            some,
            [Some((0, State::Breaching)), Some((1, State::Quiet)), None],
        ),
        (
            before,
            now,
            breaching,
            [Some((0, State::Breaching)), None, None],
        ),
        (before, before, all, [None, None, None]),
        (now, later, some, [Some((2, State::Quiet)), None, None]),
        (
            now,
            later,
            all,
            [
                Some((0, State::NoData)),
                Some((1, State::NoData)),
                Some((2, State::Quiet)),
            ],
        ),
    ];
    for (before, now, flags, want) in rows {
        let plan = plan(rt.alloc(), &before, &now, &[flags, flags, flags]).expect(&rt, "a plan");
        for place in 0..3 {
            expect(&rt, plan.get(place).copied() == want[place], "a plan");
        }
    }
}

fn add<R: Abort>(rt: &R, notices: &mut NoticeBox) {
    let shop = read_label(b"shop").expect(rt, "a label");
    let number = notices.count();
    assert!(rt; number < 1_000);
    notices.reserve(1).expect(rt, "room");
    notices.push(Notice {
        number: number + 1,
        at: 500,
        slo: shop,
        objective: 0,
        policy: shop,
        state: State::Breaching,
    });
}

/// The first notice is taken once, and no notice of another number.
#[test]
fn a_notice_is_taken_once(rt: HostRuntime) {
    let mut notices = NoticeBox::new(rt.alloc());
    expect(&rt, notices.take(1) == Err(UnknownNotice), "no notice");
    add(&rt, &mut notices);
    let rows = [
        (0, Err(UnknownNotice)),
        (2, Err(UnknownNotice)),
        (1, Ok(true)),
        (1, Ok(false)),
    ];
    for (number, waited) in rows {
        expect(&rt, notices.take(number) == waited, "a notice is taken");
    }
}

/// Seven notices, of which the first was taken before the others came.
fn seven<R: Abort>(rt: &R, alloc: Global) -> NoticeBox {
    let mut notices = NoticeBox::new(alloc);
    add(rt, &mut notices);
    assert!(rt; notices.take(1) == Ok(true));
    for _more in 0..6 {
        add(rt, &mut notices);
    }
    notices
}

/// The numbers of the first notices that wait, and 0 where there is none.
fn first_numbers<R: Abort>(rt: &R, alloc: Global, notices: &NoticeBox) -> [u32; 4] {
    let first = notices.first_waiting(alloc, 4).expect(rt, "notices");
    let mut numbers = [0; 4];
    for place in 0..4 {
        if let Some(notice) = first.get(place) {
            numbers[place] = notice.number;
        }
    }
    numbers
}

/// Takes the last six of seven notices, one again: how many wait after each, and the first of them.
fn take_six<R: Abort>(rt: &R, alloc: Global, notices: &mut NoticeBox) {
    let rows = [
        (3, true, 5, [2, 4, 5, 6]),
        (2, true, 4, [4, 5, 6, 7]),
        (7, true, 3, [4, 5, 6, 0]),
        (3, false, 3, [4, 5, 6, 0]),
        (5, true, 2, [4, 6, 0, 0]),
        (4, true, 1, [6, 0, 0, 0]),
        (6, true, 0, [0, 0, 0, 0]),
    ];
    for (number, waited, waiting, first) in rows {
        expect(rt, notices.take(number) == Ok(waited), "a notice is taken");
        expect(rt, notices.waiting() == waiting, "so many wait");
        expect(
            rt,
            first_numbers(rt, alloc, notices) == first,
            "the first that wait",
        );
    }
}

/// The number of the notice at a place, and whether it waits.
fn kept_at(notices: &NoticeBox, place: u32) -> Option<(u32, bool)> {
    notices.notice_at(place).map(|kept| (kept.0.number, kept.1))
}

#[test]
fn notices_wait_until_they_are_taken(rt: HostRuntime) {
    let mut notices = seven(&rt, rt.alloc());
    take_six(&rt, rt.alloc(), &mut notices);
    add(&rt, &mut notices);
    expect(&rt, notices.first_place() == Some(7), "the first place");
    expect(&rt, notices.count() == 8, "eight notices");
    for (place, want) in [(6, Some((7, false))), (7, Some((8, true))), (8, None)] {
        expect(
            &rt,
            kept_at(&notices, place) == want,
            "the notice of a place",
        );
    }
}
