//! The lines of a report.
ghost use Rattle.std.specs.Prelude.{◌≡◌, IfOk, Some, string_bytes};
ghost use Rattle.std.specs.List.{enumerate_from, flat_map};
ghost use Rattle.record_form.specs.declared.BudgetRow.{BudgetRow};
ghost use Rattle.office_report.specs.Lines.{counted_words, is_of as is_of_def};
ghost use Rattle.office_report.specs.Lines.{objective_lines as objective_lines_def};
ghost use Rattle.office_report.specs.Lines.{report_text as report_text_def};
ghost use Rattle.office_report.specs.Lines.{row_words as row_words_def};
ghost use Rattle.office_report.specs.Lines.{state_line as state_line_def};
ghost use Rattle.office_report.specs.Lines.{state_lines as state_lines_def, unbegun_words};

use burn_core::State;
use catalog_terms::Binding;
use exact_fraction::{Bytes, Fraction, Label, write_percent};
use office_history::Measure;
use record_form::BudgetRow;
use std::alloc::{AllocError, Global};

/// What was good, of what was counted, and what is left of the budget.
fn remaining_words(
    alloc: Global,
    num: u64,
    den: u64,
    remaining: &Fraction,
) -> Result<Vec<u8>, AllocError>
    ensures { IfOk result (λ words. words.items ≡ counted_words num den (Some remaining.now)) }
{
    let mut words = format!(in alloc; "{num} {den} ")?.into_bytes();
    write_percent(&mut words, remaining)?;
    words.extend_from_slice(b"%")?;
    Ok(words)
}

fn row_words(alloc: Global, row: &BudgetRow) -> Result<Vec<u8>, AllocError>
    ensures { IfOk result (λ words. words.items ≡ row_words_def row.now) }
{
    match &row.remaining {
        Some(remaining) => remaining_words(alloc, row.num, row.den, remaining),
        None => Ok(format!(in alloc; "no data")?.into_bytes()),
    }
}

fn state_line(alloc: Global, binding: &Binding, state: State) -> Result<String, AllocError>
    ensures { IfOk result (λ line. string_bytes line ≡ state_line_def (binding.now, state)) }
{
    let policy = binding.policy;
    let word = state.word();
    format!(in alloc; "  {policy} {word}\n")
}

fn is_of(binding: &Binding, name: Label, number: usize) -> bool
    ensures { result ≡ is_of_def name number binding.now }
{
    binding.slo == name && binding.objective as usize == number
}

/// The lines of an objective's bindings.
fn state_lines(
    alloc: Global,
    states: &[(Binding, State)],
    name: Label,
    number: usize,
) -> Result<Vec<u8>, AllocError>
    ensures { IfOk result (λ lines. lines.items ≡ state_lines_def states.now name number) }
{
    let mut lines = Vec::new(alloc);
    for (binding, state) in states {
        if is_of(binding, name, number) {
            let line = state_line(alloc, binding, *state)?;
            lines.extend_from_slice(line.as_bytes())?;
        }
    }
    Ok(lines)
}

/// The line of an objective, and those of its bindings.
fn objective_lines(
    alloc: Global,
    states: &[(Binding, State)],
    name: Label,
    number: usize,
    words: &[u8],
) -> Result<Vec<u8>, AllocError>
    ensures { IfOk result (λ lines. lines.items
        ≡ objective_lines_def states.now name number words.now) }
{
    let bound = state_lines(alloc, states, name, number)?;
    let mut lines = format!(in alloc; "{name} {number} ")?.into_bytes();
    lines.extend_from_slice(words)?;
    lines.extend_from_slice(b"\n")?;
    lines.extend_from_slice(&bound)?;
    Ok(lines)
}

/// The lines of objectives whose budgets are counted.
pub(crate) fn counted_lines(
    alloc: Global,
    states: &[(Binding, State)],
    name: Label,
    rows: &[BudgetRow],
) -> Result<Vec<u8>, AllocError>
    ensures { IfOk result (λ lines. lines.items
        ≡ flat_map (λ (row : BudgetRow). objective_lines_def states.now name row.objective
        (row_words_def row)) rows.now) }
{
    let mut lines = Vec::new(alloc);
    for row in rows {
        let words = row_words(alloc, row)?;
        let more = objective_lines(alloc, states, name, row.objective as usize, &words)?;
        lines.extend_from_slice(&more)?;
    }
    Ok(lines)
}

/// The lines of an SLO's objectives, where no window of its calendar had begun.
pub(crate) fn unbegun_lines(
    alloc: Global,
    states: &[(Binding, State)],
    name: Label,
    measures: &[Measure],
) -> Result<Vec<u8>, AllocError>
    ensures { IfOk result (λ lines. lines.items
        ≡ flat_map (λ p. objective_lines_def states.now name p.0 unbegun_words)
        (enumerate_from 0 measures.now)) }
{
    let mut lines = Vec::new(alloc);
    let mut number = 0;
    for _measure in measures {
        let more = objective_lines(alloc, states, name, number, b"no window")?;
        lines.extend_from_slice(&more)?;
        number += 1;
    }
    Ok(lines)
}

/// The whole report: the lines of the SLOs between the first line and the last.
pub(crate) fn report_text(
    alloc: Global,
    at: u32,
    entries: u32,
    lines: &[u8],
    slos: usize,
    notices: u32,
) -> Result<Bytes, AllocError>
    ensures { IfOk result (λ text. text ≡ report_text_def at entries lines.now slos notices) }
{
    let mut text = format!(in alloc; "report at {at}, entries {entries}\n")?.into_bytes();
    let last = format!(in alloc; "slos {slos}, notices {notices}\n")?;
    text.extend_from_slice(lines)?;
    text.extend_from_slice(last.as_bytes())?;
    Ok(Bytes::from_vec(text))
}
