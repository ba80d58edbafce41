//! Samples: rows that are taken, all of them or none.
ghost use Rattle.std.specs.Prelude.{◌≡◌, ◌+◌, ◌<◌, ◌≤◌, ◌++◌, List, Some, None, IfOk};
ghost use Rattle.std.specs.Prelude.{OnOk, cond, length, map};
ghost use Rattle.std.specs.Global.{Vec};
ghost use Rattle.slo_limits.specs.declared.TheConstants.{MAX_BATCH_ROWS as most_rows};
ghost use Rattle.sample_book.specs.declared.RowVerdict.{RowVerdict};
ghost use Rattle.sample_book.specs.History.{Came, Arrival, Holds, MayComeAll};
ghost use Rattle.sample_book.specs.Puts.{verdicts as verdicts_def};
ghost use Rattle.record_form.specs.declared.Command.TheVariants as commands;
ghost use Rattle.office_history.specs.History.{Office, with_entry};
ghost use Rattle.office_history.specs.Outcomes.{outcome_of};
ghost use Rattle.office_history.specs.declared.Judgement.TheVariants as judgements;
ghost use Rattle.office_history.specs.Verdicts.{accepted as accepted_def};
ghost use Rattle.office_derived.specs.declared.BatchTally.{BatchTally};
ghost use Rattle.office_derived.specs.declared.Work.TheVariants as works;
ghost use Rattle.office_derived.specs.Tallies.{changes, tally_of as tally_of_def, tally_outcome};
ghost use Rattle.office_derived.specs.Derived.{HasRoom, IsJudged, IsNext, IsSound, Reflects, Stays};
ghost use Rattle.office_derived.specs.Derived.{entry_of};
ghost use Rattle.sample_changes.specs.Judging.{rows_fault as rows_fault_def, rows_verdict};
ghost use Rattle.sample_changes.specs.Works.{ComesTo};

use crate::faults::{batch_fault, limit};
use crate::tally::tally_of;
use objective_days::passes_days_limit;
use office_derived::{BatchTally, Derived, Verdict, Work, accepted, cell_limit, row_limit};
use office_history::Judgement;
use record_form::{LimitName, Outcome, Refusal, Rows};
use sample_book::{Row, RowVerdict, SampleBook};
use slo_limits::MAX_BATCH_ROWS;
use std::alloc::{AllocError, Global};

/// The first rule that rows break behind the limit of their number.
fn rows_fault(
    alloc: Global,
    derived: &Derived,
    moment: u32,
    rows: &[Row],
    verdicts: &[RowVerdict],
    tally: BatchTally,
) -> Result<Option<Refusal>, AllocError>
    requires sound { IsSound derived.now }
    requires few { length rows.now ≤ most_rows }
    requires judged { verdicts.now ≡ verdicts_def derived.now.book.rows rows.now }
    requires counted { tally ≡ tally_of_def verdicts.now }
    requires small { tally.new + tally.newer ≤ most_rows }
    ensures { IfOk result (λ fault. fault ≡ rows_fault_def derived.now.upgraded derived.now.origin
        moment derived.now.catalog derived.now.book.rows derived.now.accepted rows.now) }
{
    derived.book.rows_are_current();
    let upgraded = derived.upgraded;
    match batch_fault(
        upgraded,
        derived.origin,
        moment,
        &derived.catalog,
        rows,
        verdicts,
    ) {
        Some(fault) => return Ok(Some(fault)),
        None => {}
    }
    if cell_limit(upgraded) < derived.book.cells() + tally.new {
        return Ok(Some(limit(LimitName::Cells)));
    }
    if row_limit(upgraded) < derived.accepted + (tally.new + tally.newer) {
        return Ok(Some(limit(LimitName::Accepted)));
    }
    let passes = passes_days_limit(alloc, &derived.catalog, &derived.book, rows)?;
    if passes {
        return Ok(Some(limit(LimitName::Days)));
    }
    Ok(None)
}

/// What becomes of rows that break no rule.
fn faultless_verdict(tally: BatchTally, entries: u32) -> Judgement
    ensures { result ≡ cond (changes tally) (accepted_def entries) (judgements.Same (tally_outcome
        tally None)) }
{
    if tally.changes() {
        accepted(entries)
    } else {
        Judgement::Same(tally.sampled(None))
    }
}

/// What becomes of rows that became this over those of the book.
fn judgement_of(
    alloc: Global,
    derived: &Derived,
    moment: u32,
    rows: &[Row],
    verdicts: &[RowVerdict],
    tally: BatchTally,
) -> Result<Judgement, AllocError>
    requires sound { IsSound derived.now }
    requires few { length rows.now ≤ most_rows }
    requires judged { verdicts.now ≡ verdicts_def derived.now.book.rows rows.now }
    requires counted { tally ≡ tally_of_def verdicts.now }
    requires small { tally.new + tally.newer ≤ most_rows }
    ensures { IfOk result (λ judgement. judgement ≡ rows_verdict derived.now.upgraded
        derived.now.origin moment derived.now.catalog derived.now.book.rows derived.now.accepted
        derived.now.entries rows.now) }
{
    let fault = rows_fault(alloc, derived, moment, rows, verdicts, tally)?;
    match fault {
        Some(refusal) => Ok(Judgement::Refused(refusal)),
        None => Ok(faultless_verdict(tally, derived.entries)),
    }
}

/// What becomes of a batch, and of its rows, counted and one by one.
#[derive(Drop)]
struct BatchFound {
    judgement: Judgement,
    tally: BatchTally,
    verdicts: Vec<RowVerdict>,
}

/// What becomes of rows, and of each of them.
fn rows_judgement(
    alloc: Global,
    derived: &Derived,
    moment: u32,
    rows: &[Row],
) -> Result<BatchFound, AllocError>
    requires sound { IsSound derived.now }
    requires few { length rows.now ≤ most_rows }
    ensures judged { IfOk result (λ found. found.judgement ≡ rows_verdict derived.now.upgraded
        derived.now.origin moment derived.now.catalog derived.now.book.rows derived.now.accepted
        derived.now.entries rows.now) }
    ensures counted { IfOk result (λ found. found.tally ≡ tally_of_def (verdicts_def
        derived.now.book.rows rows.now)) }
    ensures each { IfOk result (λ found. found.verdicts.items ≡ verdicts_def
        derived.now.book.rows rows.now) }
{
    let verdicts = derived.book.check_batch(alloc, rows)?;
    let tally = tally_of(&verdicts);
    let judgement = judgement_of(alloc, derived, moment, rows, &verdicts, tally)?;
    Ok(BatchFound {
        judgement,
        tally,
        verdicts,
    })
}

/// A copy of rows.
fn copy_of(alloc: Global, rows: &[Row]) -> Result<Rows, AllocError>
    ensures { IfOk result (λ copy. copy ≡ rows.now) }
{
    let mut copy = Vec::new(alloc);
    copy.extend_from_slice(rows)?;
    Ok(Rows::from_vec(copy))
}

/// What the judging of rows comes to, with a copy of them where they are accepted.
fn judged_rows(alloc: Global, rows: &[Row], found: BatchFound) -> Verdict<Work>
    ensures { ComesTo found.judgement rows.now found.tally found.verdicts.items result }
{
    let BatchFound {
        judgement,
        tally,
        verdicts,
    } = found;
    match judgement {
        Judgement::Same(outcome) => Verdict::Same(outcome),
        Judgement::Refused(refusal) => Verdict::Refused(refusal),
        Judgement::Accepted => match copy_of(alloc, rows) {
            Ok(rows) => Verdict::Ready(Work::Samples {
                rows,
                tally,
                verdicts,
            }),
            Err(_) => Verdict::NoMemory,
        },
    }
}

/// What becomes of samples that come at a moment, with a copy of them where they are accepted.
pub fn judge_samples(alloc: Global, derived: &Derived, moment: u32, rows: &Rows) -> Verdict<Work>
    requires { IsSound derived.now }
    ensures { (o : Office) → Reflects derived.now o → IsJudged o moment (commands.Samples rows.now)
        result }
{
    let batch = rows.as_slice();
    if MAX_BATCH_ROWS < batch.len() {
        return Verdict::Refused(limit(LimitName::Rows));
    }
    match rows_judgement(alloc, derived, moment, batch) {
        Err(_) => Verdict::NoMemory,
        Ok(found) => judged_rows(alloc, batch, found),
    }
}

/// Takes all memory that samples need. After an error nothing changes but the room.
pub fn room_for_samples(derived: &mut Derived, rows: &Rows) -> Result<(), AllocError>
    ensures room { (tally : BatchTally) (becomes : Vec RowVerdict)
        → OnOk result (HasRoom derived.new
        (works.Samples rows.now tally becomes)) }
    ensures stays { Stays derived.old derived.new }
{
    let batch = rows.as_slice();
    derived.book.make_room(batch)?;
    derived.sums.reserve_rows(batch)
}

/// Puts the rows of a batch, in order.
fn put_rows(book: &mut SampleBook, rows: &[Row])
    requires { MayComeAll book.old.rows book.old.room rows.now }
    ensures history { (arrivals : List Arrival) → Holds arrivals book.old.rows book.old.exclusions →
        Holds (arrivals ++ map Came rows.now) book.new.rows book.new.exclusions }
    ensures exclusions { book.new.exclusions ≡ book.old.exclusions }
{
    for row in rows {
        book.take(row);
    }
}

/// Takes accepted samples, with no memory.
pub fn apply_samples(
    derived: &mut Derived,
    moment: u32,
    rows: Rows,
    tally: BatchTally,
    verdicts: Vec<RowVerdict>,
) -> Outcome
    requires sound { IsSound derived.old }
    requires room { HasRoom derived.old (works.Samples rows tally verdicts) }
    requires next { (o : Office) × IsNext derived.old o moment (works.Samples rows tally
        verdicts) }
    ensures reflects { (o : Office) → IsNext derived.old o moment (works.Samples rows tally
        verdicts) → Reflects derived.new (with_entry o (entry_of moment (works.Samples rows tally
        verdicts))) }
    ensures sound { IsSound derived.new }
    ensures outcome { (o : Office) → IsNext derived.old o moment (works.Samples rows tally
        verdicts) → result ≡ outcome_of o moment (commands.Samples rows) }
{
    let entry = derived.entries;
    let batch = rows.as_slice();
    derived.sums.follow_rows(&derived.book, batch, &verdicts);
    put_rows(&mut derived.book, batch);
    derived.accepted += tally.new + tally.newer;
    derived.entries = entry + 1;
    derived.present = moment;
    tally.sampled(Some(entry))
}
