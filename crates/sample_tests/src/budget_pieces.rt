//! What no clause says of `budget`: that it answers at all, whatever pieces its input comes in. A
//! row has the rows of an input, in which `|` is a line feed, and the answer.
use crate::expectations::expect_text;
use budget_command::{BudgetError, answer_budget, budget_words, read_order};
use office_outside::{MemorySource, Plan};
use std::process::Abort;

/// A source of a text, in pieces of so many bytes.
fn source(rt: &(impl AllocGlobal + Abort), text: &str, size: usize) -> MemorySource {
    let sizes = vec![in rt.alloc(); size; text.len()].expect(rt, "memory");
    let bytes = Vec::from_slice(rt.alloc(), text.as_bytes()).expect(rt, "memory");
    MemorySource::new(bytes, Plan::new(Vec::new(rt.alloc()), sizes))
}

/// The lines of `budget 0.999 0 1000` for a text that comes in pieces of so many bytes, or the
/// words for why it is refused.
fn answer(rt: &(impl AllocGlobal + Abort), text: &str, size: usize) -> String {
    let order = read_order(b"0.999", b"0", b"1000").expect(rt, "an order");
    let mut input = source(rt, text, size);
    match answer_budget(rt.alloc(), order, &mut input) {
        Ok(lines) => lines,
        Err(BudgetError::Fault(fault)) => budget_words(rt.alloc(), fault).expect(rt, "memory"),
        Err(_) => String::new(rt.alloc()),
    }
}

const ONE: &str = "cells 1|corrected 0|repeated 0|superseded 0|\
good 9990|total 10000|burn 1/1|remaining 0/1|";

const TWO: &str = "cells 2|corrected 0|repeated 0|superseded 0|\
good 9991|total 10001|burn 10000/10001|remaining 1/10001|";

/// Each input is answered as its row says, where `one` and `two` stand for these lines.
fn expect_answers(rt: &(impl AllocGlobal + Abort), rows: &str) {
    for row in rows.split('\n') {
        let (text, wanted) = row.split_once(" => ").unwrap_or((row, "no row"));
        let text = text.replace(rt.alloc(), "|", "\n").expect(rt, "memory");
        let wanted = match wanted {
            "one" => ONE,
            "two" => TWO,
            words => words,
        };
        let wanted = wanted.replace(rt.alloc(), "|", "\n").expect(rt, "memory");
        for size in [1, 2, 3, 7, 4096] {
            expect_text(rt, row, &answer(rt, &text, size), &wanted);
        }
    }
}

#[test]
fn pieces_say_nothing_of_the_rows(rt: HostRuntime) {
    let rows = "\
web,100,1,9990,10000| => one
web,100,1,9990,10000 => one
\u{feff}web,100,1,9990,10000| => one
\"web\",\"100\",\"1\",\"9990\",\"10000\"\r| => one
\u{feff}\"web\",100,1,9990,10000||| => one
web,100,1,9990,10000|web,101,1,1,1 => two
web,100,1,9990,10000\rweb,101,1,1,1\r => two
web,100,1,9990,10000\r|\r|web,101,1,1,1\r| => two";
    expect_answers(&rt, rows);
}

#[test]
fn a_piece_may_end_within_quotes(rt: HostRuntime) {
    let rows = "\
\"we|b\",1,1,1,1|web| => record 1: source
web,1,1,1,1|\"we\"\"|b\",1,1,1,1|web| => record 2: source
web,1,1,1,1|web,1,1,1,\"1| => record 2: counts
\u{feff}\"a|b\",1,1,1,1|web| => record 1: source
\u{feff}web,1,1,1,1|\u{feff}web,1,1,1,1| => record 2: source
web,1,1,1,1|w\"b|\"| => record 2: fields";
    expect_answers(&rt, rows);
}

#[test]
fn the_first_rule_that_is_broken_gives_the_word(rt: HostRuntime) {
    let rows = "\
a b,x,0,9| => record 1: fields
a b,x,0,9,1| => record 1: source
web,x,0,9,1| => record 1: minute
web,67108864,0,9,1| => record 1: minute
web,1,0,9,1| => record 1: revision
web,1,1000000001,9,1| => record 1: revision
web,1,1,9,1| => record 1: counts
web,1,1,-0,1| => record 1: counts
web,1,1,1,1000000001| => record 1: counts
web,1,1,1,2|web,1,1,2,2|web| => record 2: conflict 1,2";
    expect_answers(&rt, rows);
}
