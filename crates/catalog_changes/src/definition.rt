//! Definitions.
ghost use Rattle.std.specs.Prelude.{◌≡◌, Err, IfOk, length};
ghost use Rattle.std.specs.List.{All};
ghost use Rattle.record_form.specs.declared.Command.TheVariants.{Define};
ghost use Rattle.record_form.specs.declared.Refusal.{Refusal};
ghost use Rattle.definition_verdict.specs.Made.{IsDefinition};
ghost use Rattle.office_history.specs.Definitions.{IsRefused};
ghost use Rattle.catalog_terms.specs.Catalog.{with_members};
ghost use Rattle.office_history.specs.Catalog.{text_objects};
ghost use Rattle.office_history.specs.History.{Office, with_entry};
ghost use Rattle.office_history.specs.Judges.{JudgesText};
ghost use Rattle.catalog_changes.specs.Judging.{defined_verdict};
ghost use Rattle.office_history.specs.Outcomes.{outcome_of};
ghost use Rattle.office_derived.specs.Derived.{HasRoom, IsJudged, IsNext, IsSound, RowIsRead};
ghost use Rattle.office_derived.specs.Derived.{Reflects, entry_of};
ghost use Rattle.office_derived.specs.declared.Work.TheVariants as works;
ghost use Rattle.catalog_changes.specs.Judging.{IsJudgedBy, IsPlanOver, IsTextWork, known_by};

use crate::copies::copy_of;
use crate::days::passes_days;
use crate::kinds::texts_have_bodies_of_their_kinds;
use crate::sums_plan::plan_sums;
use definition_verdict::{Definition, VerdictError, judge_definition};
use exact_fraction::Bytes;
use kept_sums::SumsPlan;
use office_derived::{Derived, Verdict, Work, accepted};
use office_history::Judgement;
use record_form::{LimitName, Outcome, Refusal};
use slo_catalog::Catalog;
use slo_limits::RANGE_MINUTES;
use std::alloc::{AllocError, Global};

/// What a text defines over what is kept.
fn definition_over(
    alloc: Global,
    derived: &Derived,
    text: &[u8],
) -> Result<Definition, VerdictError>
    requires { IsSound derived.now }
    ensures defined { IfOk result (λ made. IsDefinition (known_by derived.now) text.now made) }
    ensures catalog { IfOk result
        (λ made. made.catalog ≡ with_members (text_objects text.now) derived.now.catalog) }
    ensures objects { IfOk result (λ made. made.objects ≡ length (text_objects text.now)) }
    ensures read { IfOk result (λ made. All (RowIsRead made.catalog) derived.now.book.rows) }
    ensures refused { (refusal : Refusal) → result ≡ Err (VerdictError.Refused refusal) →
        IsRefused (known_by derived.now) text.now refusal }
{
    // So each indicator that has samples keeps its reading.
    texts_have_bodies_of_their_kinds();
    let Ok(zones) = derived.zones.names(alloc) else {
        return Err(VerdictError::NoMemory);
    };
    judge_definition(
        alloc,
        &derived.catalog,
        &zones,
        &derived.book,
        derived.origin + RANGE_MINUTES,
        text,
    )
}

/// What becomes of a text that defines this.
fn verdict_on(
    alloc: Global,
    derived: &Derived,
    made: &Definition,
    applied: u64,
) -> Result<Judgement, AllocError>
    requires sound { IsSound derived.now }
    requires applied { applied ≡ made.now.objects }
    ensures { IfOk result
        (λ verdict. verdict ≡ defined_verdict (known_by derived.now) derived.now.entries made.now) }
{
    if passes_days(alloc, derived, &made.catalog)? {
        return Ok(Judgement::Refused(Refusal::Limit {
            which: LimitName::Days,
        }));
    }
    if made.same {
        return Ok(Judgement::Same(Outcome::Defined {
            applied,
            entry: None,
        }));
    }
    Ok(accepted(derived.entries))
}

/// A copy of an accepted text, and what becomes of the sums as its catalog is kept.
fn text_and_plan(
    alloc: Global,
    derived: &Derived,
    text: &Bytes,
    catalog: &Catalog,
) -> Result<(Bytes, SumsPlan), AllocError>
    requires sound { IsSound derived.now }
    requires read { All (RowIsRead catalog.now) derived.now.book.rows }
    ensures text { IfOk result (λ found. found.0 ≡ text.now) }
    ensures plan { IfOk result (λ found. IsPlanOver derived.now catalog.now found.1) }
{
    let text = copy_of(alloc, text)?;
    let plan = plan_sums(alloc, derived, catalog)?;
    Ok((text, plan))
}

/// What becomes of a text over what is kept.
fn judged_text(alloc: Global, derived: &Derived, text: &Bytes) -> Verdict<Work>
    requires { IsSound derived.now }
    ensures { IsJudgedBy (JudgesText (known_by derived.now) derived.now.entries text.now)
        (IsTextWork derived.now text.now) result }
{
    let made = match definition_over(alloc, derived, text.as_bytes()) {
        Ok(made) => made,
        Err(VerdictError::Refused(refusal)) => return Verdict::Refused(refusal),
        Err(VerdictError::NoMemory) => return Verdict::NoMemory,
    };
    let applied = made.objects as u64;
    match verdict_on(alloc, derived, &made, applied) {
        Ok(Judgement::Accepted) => match text_and_plan(alloc, derived, text, &made.catalog) {
            Ok((text, plan)) => Verdict::Ready(Work::Define {
                text,
                catalog: made.catalog,
                applied,
                plan,
            }),
            Err(AllocError) => Verdict::NoMemory,
        },
        Ok(Judgement::Same(outcome)) => Verdict::Same(outcome),
        Ok(Judgement::Refused(refusal)) => Verdict::Refused(refusal),
        Err(AllocError) => Verdict::NoMemory,
    }
}

/// What becomes of a text of documents at a moment. The text, its documents, their objects and the
/// catalog with them are judged first; then the limit of days, over that catalog; then whether the
/// catalog stays as it is; and then the limit of entries.
pub fn judge_define(alloc: Global, derived: &Derived, moment: u32, text: &Bytes) -> Verdict<Work>
    requires { IsSound derived.now }
    ensures { (o : Office) → Reflects derived.now o → IsJudged o moment (Define text.now) result }
{
    judged_text(alloc, derived, text)
}

/// Defines the objects of an accepted text at a moment, in minutes since 1970-01-01T00:00Z: its
/// catalog is kept with the sums of its objectives, and it is one entry more. Takes no memory:
/// there is room for the sums.
pub fn apply_define(
    derived: &mut Derived,
    moment: u32,
    text: Bytes,
    catalog: Catalog,
    applied: u64,
    plan: SumsPlan,
) -> Outcome
    requires sound { IsSound derived.old }
    requires room { HasRoom derived.old (works.Define text catalog applied plan) }
    requires next { (o : Office)
        × IsNext derived.old o moment (works.Define text catalog applied plan) }
    ensures reflects { (o : Office) →
        IsNext derived.old o moment (works.Define text catalog applied plan) →
        Reflects derived.new
        (with_entry o (entry_of moment (works.Define text catalog applied plan))) }
    ensures sound { IsSound derived.new }
    ensures outcome { (o : Office) →
        IsNext derived.old o moment (works.Define text catalog applied plan) →
        result ≡ outcome_of o moment (Define text) }
{
    // So each indicator that has samples keeps its reading.
    texts_have_bodies_of_their_kinds();
    let entry = derived.entries;
    derived.entries = entry + 1;
    derived.present = moment;
    derived.catalog = catalog;
    derived.sums.take(plan);
    Outcome::Defined {
        applied,
        entry: Some(entry),
    }
}
