//! The rows of a CSV text, judged record by record and kept in a book.
ghost use Rattle.std.specs.Prelude.{◌≡◌, ◌+◌, ◌++◌, ◌≤◌, ℕ, List, Err, Ok, IfNone, IfOk, IfSome};
ghost use Rattle.std.specs.Prelude.{None, OnOk, ◌∷◌, drop, length, true};
ghost use Rattle.csv_records.specs.Records.{Fields, csv_records};
ghost use Rattle.event_fields.specs.Events.{AreCounted, event_of};
ghost use Rattle.plain_fields.specs.Lines.{StandsBehindFeed, five_of};
ghost use Rattle.budget_command.specs.Records.{BUDGET, is_newer as is_newer_def};
ghost use Rattle.budget_command.specs.Records.{is_repeated as is_repeated_def};
ghost use Rattle.budget_command.specs.Records.{is_superseded as is_superseded_def, outcome_over};
ghost use Rattle.budget_command.specs.Records.{IsCounted, of_row, row_by_verdict};
ghost use Rattle.budget_command.specs.Tables.{AreAll, BreaksRule, HasTaken, HasTakenLine};
ghost use Rattle.budget_command.specs.Tables.{HasTakenRecord, HaveTakenLines, IsBroken, IsEmpty};
ghost use Rattle.budget_command.specs.Tables.{IsFit, tallies_in};

use crate::drafts::Drafts;
use crate::fault::RecordFault;
use crate::row::{indicator, row_of};
use csv_records::{Record, RecordReader};
use event_fields::{Sources, read_event, read_fields};
use event_lines::read_event_line;
use exact_fraction::Label;
use plain_fields::{LineOfFive, read_five, text_behind};
use sample_book::{CurrentRows, Row, RowVerdict};
use slo_limits::{MAX_AMOUNT, MAX_CELLS};
use std::alloc::{AllocError, Global};

/// Why a table doesn't take all records.
#[derive(Clone, Copy, Debug, PartialEq, Eq)]
pub enum TableFault {
    /// The record of this number, counted from 1, is the first that breaks a rule.
    Broken { number: u64, fault: RecordFault },
    NoMemory,
}

/// Where the plain lines in front of a part end.
#[derive(Clone, Copy)]
struct LinesEnd {
    /// The number of the record that is next.
    number: u64,
    /// The place where it begins.
    at: usize,
}

/// The current rows of all that came, and what became of those that came.
#[derive(Drop)]
pub struct Table {
    pub book: CurrentRows,
    pub corrected: u64,
    pub repeated: u64,
    pub superseded: u64,
}

/// The row that a record stands for, or the first rule that it breaks by itself.
fn read_record(sli: &Label, sources: &mut Sources, fields: &Record) -> Result<Row, RecordFault>
    requires { sli.now ≡ BUDGET }
    ensures read { (current : List Row) → outcome_over current fields.now ≡ of_row current result }
    ensures counted { IfOk result IsCounted }
{
    match read_event(sources, fields, u64::from(MAX_AMOUNT)) {
        Ok(event) => Ok(row_of(*sli, &event)),
        Err(fault) => Err(RecordFault::Event(fault)),
    }
}

/// The same of a line.
fn read_line(sli: &Label, sources: &mut Sources, line: &LineOfFive) -> Result<Row, RecordFault>
    requires { sli.now ≡ BUDGET }
    ensures read { (current : List Row) → outcome_over current (five_of line.now)
        ≡ of_row current result }
    ensures counted { IfOk result IsCounted }
{
    match read_fields(sources, line.fields, u64::from(MAX_AMOUNT)) {
        Ok(event) => Ok(row_of(*sli, &event)),
        Err(fault) => Err(RecordFault::Event(fault)),
    }
}

/// The rule that a row breaks by what becomes of it over so many cells.
fn refusal(cells: u32, verdict: &RowVerdict) -> Option<RecordFault>
    ensures taken { IfNone result ((row : Row) → row_by_verdict cells verdict.now row ≡ Ok row) }
    ensures refused { IfSome result (λ fault. (row : Row) →
        row_by_verdict cells verdict.now row ≡ Err fault) }
{
    match verdict {
        RowVerdict::New if cells < MAX_CELLS => None,
        RowVerdict::New => Some(RecordFault::Limit),
        RowVerdict::Newer(_) => None,
        RowVerdict::Repeated => None,
        RowVerdict::Superseded(_) => None,
        RowVerdict::Conflict(kept) => Some(RecordFault::Conflict(kept.amount)),
    }
}

/// Whether a row took the place of one of a lower revision.
fn is_newer(verdict: &RowVerdict) -> bool
    ensures { result ≡ is_newer_def verdict.now }
{
    match verdict {
        RowVerdict::Newer(_) => true,
        _ => false,
    }
}

/// Whether a row says again what its cell's row says.
fn is_repeated(verdict: &RowVerdict) -> bool
    ensures { result ≡ is_repeated_def verdict.now }
{
    match verdict {
        RowVerdict::Repeated => true,
        _ => false,
    }
}

/// Whether a row's cell has one of a greater revision.
fn is_superseded(verdict: &RowVerdict) -> bool
    ensures { result ≡ is_superseded_def verdict.now }
{
    match verdict {
        RowVerdict::Superseded(_) => true,
        _ => false,
    }
}

impl Table {
    /// A table of nothing.
    pub(crate) fn new(alloc: Global) -> Table
        ensures { IsEmpty result }
    {
        Table {
            book: CurrentRows::new(alloc),
            corrected: 0,
            repeated: 0,
            superseded: 0,
        }
    }

    /// Takes a row, and counts what becomes of it; or finds the rule that it breaks over the
    /// current rows, after which the table is of no use.
    fn take(&mut self, number: u64, row: &Row) -> Result<(), TableFault>
        requires tallied { tallies_in self.old + 1 ≤ number }
        requires few { length self.old.book.rows ≤ MAX_CELLS }
        ensures kept { OnOk result (of_row self.old.book.rows (Ok row.now) ≡ Ok row.now) }
        ensures taken { OnOk result (HasTaken row.now self.old self.new) }
        ensures few { OnOk result (length self.new.book.rows ≤ MAX_CELLS) }
        ensures broken { (at : ℕ) (fault : RecordFault) →
            result ≡ Err (TableFault.Broken at fault) →
            (at ≡ number) × (of_row self.old.book.rows (Ok row.now) ≡ Err fault) }
    {
        let cells = self.book.len();
        match self.book.arrive(row) {
            Ok(verdict) => {
                if let Some(fault) = refusal(cells, &verdict) {
                    return Err(TableFault::Broken { number, fault });
                }
                self.corrected += u64::from(is_newer(&verdict));
                self.repeated += u64::from(is_repeated(&verdict));
                self.superseded += u64::from(is_superseded(&verdict));
                Ok(())
            }
            Err(AllocError) => Err(TableFault::NoMemory),
        }
    }

    /// Takes the record of this number, or finds the rule that it breaks.
    fn take_record(
        &mut self,
        sli: &Label,
        sources: &mut Sources,
        number: u64,
        fields: &Record,
    ) -> Result<(), TableFault>
        requires indicator { sli.now ≡ BUDGET }
        requires tallied { tallies_in self.old + 1 ≤ number }
        requires few { length self.old.book.rows ≤ MAX_CELLS }
        ensures taken { OnOk result (HasTakenRecord fields.now self.old self.new) }
        ensures few { OnOk result (length self.new.book.rows ≤ MAX_CELLS) }
        ensures broken { (at : ℕ) (fault : RecordFault) →
            result ≡ Err (TableFault.Broken at fault) →
            (at ≡ number) × (outcome_over self.old.book.rows fields.now ≡ Err fault) }
    {
        match read_record(sli, sources, fields) {
            Ok(row) => self.take(number, &row),
            Err(fault) => Err(TableFault::Broken { number, fault }),
        }
    }

    /// Takes the line of this number, or finds the rule that it breaks.
    fn take_line(
        &mut self,
        sli: &Label,
        sources: &mut Sources,
        number: u64,
        line: &LineOfFive,
    ) -> Result<(), TableFault>
        requires indicator { sli.now ≡ BUDGET }
        requires tallied { tallies_in self.old + 1 ≤ number }
        requires few { length self.old.book.rows ≤ MAX_CELLS }
        ensures taken { OnOk result (HasTakenRecord (five_of line.now) self.old self.new) }
        ensures few { OnOk result (length self.new.book.rows ≤ MAX_CELLS) }
        ensures broken { (at : ℕ) (fault : RecordFault) →
            result ≡ Err (TableFault.Broken at fault) →
            (at ≡ number) × (outcome_over self.old.book.rows (five_of line.now) ≡ Err fault) }
    {
        match read_line(sli, sources, line) {
            Ok(row) => self.take(number, &row),
            Err(fault) => Err(TableFault::Broken { number, fault }),
        }
    }

    /// Takes the line of this number at a place behind a line feed, and answers the place behind
    /// it; none where it isn't plain. Most lines are read in one pass, the others field by field.
    fn take_next(
        &mut self,
        sli: &Label,
        drafts: &mut Drafts,
        number: u64,
        part: &[u8],
        at: usize,
    ) -> Result<Option<usize>, TableFault>
        requires indicator { sli.now ≡ BUDGET }
        requires behind { StandsBehindFeed part.now at }
        requires tallied { tallies_in self.old + 1 ≤ number }
        requires few { length self.old.book.rows ≤ MAX_CELLS }
        ensures taken { IfOk result (λ next. IfSome next (λ end.
            HasTakenLine part.now at end self.old self.new)) }
        ensures same { result ≡ Ok None → self.new ≡ self.old }
        ensures few { OnOk result (length self.new.book.rows ≤ MAX_CELLS) }
        ensures broken { (place : ℕ) (fault : RecordFault) →
            result ≡ Err (TableFault.Broken place fault) →
            (place ≡ number) × BreaksRule part.now at self.old fault }
    {
        if let Some(line) = read_event_line(part, at, u64::from(MAX_AMOUNT)) {
            if let Some(row) = drafts.draft(sli, &line) {
                return match self.take(number, row) {
                    Ok(()) => Ok(Some(line.end)),
                    Err(fault) => Err(fault),
                };
            }
        }
        match read_five(part, at) {
            Some(line) => match self.take_line(sli, &mut drafts.sources, number, &line) {
                Ok(()) => Ok(Some(line.end)),
                Err(fault) => Err(fault),
            },
            None => Ok(None),
        }
    }
}

/// Whether a text begins with a line feed.
fn begins_with_feed(text: &[u8]) -> bool
    ensures { result ≡ true → StandsBehindFeed text.now 1 }
{
    0 < text.len() && text[0] == b'\n'
}

/// Takes the rows of the plain lines behind a part's line feed, the first of which has this number,
/// up to a line that is none.
fn fill_lines(
    table: &mut Table,
    sli: &Label,
    drafts: &mut Drafts,
    number: u64,
    part: &[u8],
) -> Result<LinesEnd, TableFault>
    requires indicator { sli.now ≡ BUDGET }
    requires begun { StandsBehindFeed part.now 1 }
    requires fit { IsFit table.old.book.rows }
    requires tallied { tallies_in table.old + 1 ≤ number }
    requires few { number + length (csv_records part.now) ≤ u64.MAX }
    ensures ok { IfOk result (λ end.
        HaveTakenLines part.now number table.old end.at end.number table.new) }
    ensures broken { (at : ℕ) (fault : RecordFault) →
        result ≡ Err (TableFault.Broken at fault) → IsBroken part.now number table.old at fault }
{
    let mut next = number;
    let mut at: usize = 1;
    'lines: loop {
        match table.take_next(sli, drafts, next, part, at) {
            Ok(Some(end)) => {
                next += 1;
                at = end;
            }
            Ok(None) => return Ok(LinesEnd { number: next, at }),
            Err(fault) => return Err(fault),
        }
    }
}

/// Takes the rows of a part's records, as `fill` does, whatever their form.
fn fill_records(
    table: &mut Table,
    alloc: Global,
    sli: &Label,
    sources: &mut Sources,
    number: u64,
    part: &[u8],
) -> Result<u64, TableFault>
    requires indicator { sli.now ≡ BUDGET }
    requires fit { IsFit table.old.book.rows }
    requires tallied { tallies_in table.old + 1 ≤ number }
    requires few { number + length (csv_records part.now) ≤ u64.MAX }
    ensures ok { IfOk result (λ next. (before : List Fields) → AreAll before number table.old →
        AreAll (before ++ csv_records part.now) next table.new) }
    ensures fit { OnOk result (IsFit table.new.book.rows) }
    ensures tallied { IfOk result (λ next. tallies_in table.new + 1 ≤ next) }
    ensures numbered { IfOk result (λ next. next ≤ number + length (csv_records part.now)) }
    ensures broken { (at : ℕ) (fault : RecordFault) →
        result ≡ Err (TableFault.Broken at fault) → IsBroken part.now number table.old at fault }
{
    let mut reader = RecordReader::new(alloc, part);
    let mut record = Record::new(alloc);
    let mut next = number;
    'records: loop {
        match reader.read(&mut record) {
            Ok(true) => {}
            Ok(false) => return Ok(next),
            Err(_) => return Err(TableFault::NoMemory),
        }
        match table.take_record(sli, sources, next, &record) {
            Ok(()) => next += 1,
            Err(fault) => return Err(fault),
        }
    }
}

/// Takes the rows of the records behind the plain lines of a part, where there are more.
fn fill_rest(
    table: &mut Table,
    alloc: Global,
    sli: &Label,
    sources: &mut Sources,
    number: u64,
    part: &[u8],
    at: usize,
) -> Result<u64, TableFault>
    requires indicator { sli.now ≡ BUDGET }
    requires behind { StandsBehindFeed part.now at }
    requires fit { IsFit table.old.book.rows }
    requires tallied { tallies_in table.old + 1 ≤ number }
    requires few { number + length (csv_records (10 ∷ drop at part.now)) ≤ u64.MAX }
    ensures ok { IfOk result (λ next. (before : List Fields) → AreAll before number table.old →
        AreAll (before ++ csv_records (10 ∷ drop at part.now)) next table.new) }
    ensures fit { OnOk result (IsFit table.new.book.rows) }
    ensures tallied { IfOk result (λ next. tallies_in table.new + 1 ≤ next) }
    ensures numbered { IfOk result (λ next.
        next ≤ number + length (csv_records (10 ∷ drop at part.now))) }
    ensures broken { (place : ℕ) (fault : RecordFault) →
        result ≡ Err (TableFault.Broken place fault) →
        IsBroken (10 ∷ drop at part.now) number table.old place fault }
{
    if at == part.len() {
        return Ok(number);
    }
    let rest = text_behind(part, at);
    fill_records(table, alloc, sli, sources, number, rest)
}

/// Takes the rows of a part's records, the first of which has this number, and answers the number
/// of the record behind them; or finds the first record that breaks a rule. Plain lines behind a
/// line feed are read where they stand.
pub(crate) fn fill(
    table: &mut Table,
    drafts: &mut Drafts,
    alloc: Global,
    number: u64,
    part: &[u8],
) -> Result<u64, TableFault>
    requires fit { IsFit table.old.book.rows }
    requires tallied { tallies_in table.old + 1 ≤ number }
    requires few { number + length (csv_records part.now) ≤ u64.MAX }
    ensures ok { IfOk result (λ next. (before : List Fields) → AreAll before number table.old →
        AreAll (before ++ csv_records part.now) next table.new) }
    ensures fit { OnOk result (IsFit table.new.book.rows) }
    ensures tallied { IfOk result (λ next. tallies_in table.new + 1 ≤ next) }
    ensures numbered { IfOk result (λ next. next ≤ number + length (csv_records part.now)) }
    ensures broken { (at : ℕ) (fault : RecordFault) →
        result ≡ Err (TableFault.Broken at fault) → IsBroken part.now number table.old at fault }
{
    let sli = indicator();
    if !begins_with_feed(part) {
        return fill_records(table, alloc, &sli, &mut drafts.sources, number, part);
    }
    match fill_lines(table, &sli, drafts, number, part) {
        Ok(end) => fill_rest(
            table,
            alloc,
            &sli,
            &mut drafts.sources,
            end.number,
            part,
            end.at,
        ),
        Err(fault) => Err(fault),
    }
}
