//! The lines that `budget` prints.
ghost use Rattle.std.specs.Prelude.{◌≡◌, ◌≤◌, ◌<◌, IfOk, All, length, string_bytes, sum_by};
ghost use Rattle.slo_terms.specs.Sums.{share_within};
ghost use Rattle.budget_command.specs.Records.{IsCounted, good_of, total_of};
ghost use Rattle.budget_command.specs.Lines.{lines_of, sum_lines};

use crate::row::events_of;
use burn_core::{burn, remaining};
use exact_fraction::{Decimal, Leaf};
use sample_book::{CurrentRows, Row};
use slo_limits::{MAX_AMOUNT, MAX_CELLS, MAX_SUM, WHOLE};
use std::alloc::{AllocError, Global};

/// A row's events, where its minute lies in [from, to), and else none.
fn share(row: &Row, from: u32, to: u32) -> Leaf
    requires { IsCounted row.now }
    ensures good { result.num ≡ share_within (λ r. r.minute) good_of from to row.now }
    ensures total { result.den ≡ share_within (λ r. r.minute) total_of from to row.now }
    ensures part { result.num ≤ result.den }
    ensures few { result.den ≤ MAX_AMOUNT }
{
    if from <= row.minute && row.minute < to {
        events_of(row)
    } else {
        Leaf { num: 0, den: 0 }
    }
}

/// The cells of a book, and the events of the rows whose minutes lie in a range.
#[derive(Clone, Copy, Debug)]
pub struct Events {
    pub cells: u32,
    pub sum: Leaf,
}

/// The cells, and the events of the rows whose minutes lie in [from, to).
pub fn events_within(book: &CurrentRows, from: u32, to: u32) -> Events
    requires few { length book.now.rows ≤ MAX_CELLS }
    requires counted { All IsCounted book.now.rows }
    ensures cells { result.cells ≡ length book.now.rows }
    ensures good { result.sum.num ≡ sum_by (share_within (λ r. r.minute) good_of from to)
        book.now.rows }
    ensures total { result.sum.den ≡ sum_by (share_within (λ r. r.minute) total_of from to)
        book.now.rows }
    ensures part { result.sum.num ≤ result.sum.den }
    ensures bound { result.sum.den ≤ MAX_SUM }
{
    let mut good: u64 = 0;
    let mut total: u64 = 0;
    let mut place: u32 = 0;
    'rows: while let Some(row) = book.at(place as usize) {
        let events = share(&row, from, to);
        good += events.num;
        total += events.den;
        place += 1;
    }
    Events {
        cells: place,
        sum: Leaf {
            num: good,
            den: total,
        },
    }
}

/// The budget of a sum of events, a line each.
#[tactic(auto, unfolding(crate::specs::Lines::sum_lines))]
fn sum_text(alloc: Global, target: Decimal, events: Leaf) -> Result<String, AllocError>
    requires part { events.num ≤ events.den }
    requires few { events.den ≤ MAX_SUM }
    requires below_one { target < WHOLE }
    ensures { IfOk result (λ text. string_bytes text ≡ sum_lines target events) }
{
    let Some(burn) = burn(events, target) else {
        return String::from_str(alloc, "no data\n");
    };
    let Some(remaining) = remaining(events, target) else {
        return String::from_str(alloc, "no data\n");
    };
    let good = events.num;
    let total = events.den;
    format!(in alloc; "good {good}\ntotal {total}\nburn {burn}\nremaining {remaining}\n")
}

/// All lines, for so many cells, rows of each kind, and a sum of events.
pub fn budget_text(
    alloc: Global,
    cells: u32,
    tallies: (u64, u64, u64),
    target: Decimal,
    events: Leaf,
) -> Result<String, AllocError>
    requires part { events.num ≤ events.den }
    requires few { events.den ≤ MAX_SUM }
    requires below_one { target < WHOLE }
    ensures { IfOk result (λ text. string_bytes text ≡
        lines_of (record {
          cells = cells;
          corrected = tallies.0;
          repeated = tallies.1;
          superseded = tallies.2;
        }) target events) }
{
    let budget = sum_text(alloc, target, events)?;
    let (corrected, repeated, superseded) = tallies;
    format!(in alloc;
        "cells {cells}\ncorrected {corrected}\nrepeated {repeated}\nsuperseded {superseded}\n{budget}"
    )
}
