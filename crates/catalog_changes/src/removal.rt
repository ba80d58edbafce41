//! Removals.
ghost use Rattle.std.specs.Prelude.{◌≡◌, IfOk};
ghost use Rattle.record_form.specs.declared.Command.TheVariants.{Remove};
ghost use Rattle.office_history.specs.History.{Office, with_entry};
ghost use Rattle.office_history.specs.Outcomes.{outcome_of};
ghost use Rattle.office_history.specs.Verdicts.{accepted as accepted_def, first_row_of};
ghost use Rattle.office_history.specs.Verdicts.{is_sli as is_sli_def, remove_verdict};
ghost use Rattle.office_history.specs.Verdicts.{removal_fault as removal_fault_def, unless_sampled};
ghost use Rattle.office_derived.specs.Derived.{HasRoom, IsJudged, IsNext, IsSound, Reflects};
ghost use Rattle.office_derived.specs.Derived.{entry_of};
ghost use Rattle.office_derived.specs.declared.Work.TheVariants as works;
ghost use Rattle.catalog_changes.specs.Judging.{IsJudgedBy, IsRemoval};

use crate::sums_plan::plan_sums;
use catalog_terms::{RemoveError, RemoveFault};
use exact_fraction::Label;
use kept_sums::SumsPlan;
use object_terms::Kind;
use office_derived::{Derived, Verdict, Work, accepted};
use office_history::Judgement;
use record_form::{Outcome, Refusal};
use sample_book::{Row, SampleBook};
use slo_catalog::{Catalog, remove};
use std::alloc::{AllocError, Global};

fn removal_fault(fault: RemoveFault) -> Refusal
    ensures { result ≡ removal_fault_def fault }
{
    match fault {
        RemoveFault::NotFound => Refusal::NotFound,
        RemoveFault::InUse { by_kind, by_name } => Refusal::InUse { by_kind, by_name },
    }
}

fn is_sli(kind: Kind) -> bool
    ensures { result ≡ is_sli_def kind }
{
    match kind {
        Kind::Sli => true,
        Kind::DataSource
        | Kind::Service
        | Kind::Slo
        | Kind::AlertPolicy
        | Kind::AlertCondition
        | Kind::AlertNotificationTarget => false,
    }
}

/// The first current row of an object, which has some where it is an indicator.
fn first_row(book: &SampleBook, kind: Kind, name: Label) -> Option<Row>
    ensures { result ≡ first_row_of book.now.rows kind name }
{
    if is_sli(kind) {
        book.first_row(name)
    } else {
        None
    }
}

/// What becomes of the removal of an object that no member refers to.
fn verdict_on(book: &SampleBook, entries: u32, kind: Kind, name: Label) -> Judgement
    ensures { result ≡ unless_sampled (first_row_of book.now.rows kind name)
        (accepted_def entries) }
{
    match first_row(book, kind, name) {
        Some(row) => Judgement::Refused(Refusal::HasSamples {
            minute: row.minute,
            name: row.sli,
            source: row.source,
        }),
        None => accepted(entries),
    }
}

/// What becomes of a removal over what is kept.
fn judged_removal(alloc: Global, derived: &Derived, kind: Kind, name: Label) -> Verdict<Work>
    requires { IsSound derived.now }
    ensures { IsJudgedBy
        (λ j. j ≡ remove_verdict derived.now.catalog derived.now.book.rows derived.now.entries kind
        name) (IsRemoval derived.now kind name) result }
{
    let catalog = match remove(alloc, &derived.catalog, kind, name) {
        Ok(catalog) => catalog,
        Err(RemoveError::Fault(fault)) => return Verdict::Refused(removal_fault(fault)),
        Err(RemoveError::NoMemory) => return Verdict::NoMemory,
    };
    match verdict_on(&derived.book, derived.entries, kind, name) {
        Judgement::Accepted => match plan_sums(alloc, derived, &catalog) {
            Ok(plan) => Verdict::Ready(Work::Remove {
                kind,
                name,
                catalog,
                plan,
            }),
            Err(AllocError) => Verdict::NoMemory,
        },
        Judgement::Same(outcome) => Verdict::Same(outcome),
        Judgement::Refused(refusal) => Verdict::Refused(refusal),
    }
}

/// What becomes of the removal of an object at a moment. There has to be such an object; then no
/// other may refer to it; then an indicator may have no samples; and then the limit of entries is
/// tried.
pub fn judge_remove(
    alloc: Global,
    derived: &Derived,
    moment: u32,
    kind: Kind,
    name: Label,
) -> Verdict<Work>
    requires { IsSound derived.now }
    ensures { (o : Office) → Reflects derived.now o → IsJudged o moment (Remove kind name) result }
{
    judged_removal(alloc, derived, kind, name)
}

/// Removes an object at a moment, in minutes since 1970-01-01T00:00Z: the catalog without it is
/// kept with the sums of its objectives, and it is one entry more. Takes no memory: there is room
/// for the sums.
pub fn apply_remove(
    derived: &mut Derived,
    moment: u32,
    kind: Kind,
    name: Label,
    catalog: Catalog,
    plan: SumsPlan,
) -> Outcome
    requires sound { IsSound derived.old }
    requires room { HasRoom derived.old (works.Remove kind name catalog plan) }
    requires next { (o : Office)
        × IsNext derived.old o moment (works.Remove kind name catalog plan) }
    ensures reflects { (o : Office) →
        IsNext derived.old o moment (works.Remove kind name catalog plan) →
        Reflects derived.new
        (with_entry o (entry_of moment (works.Remove kind name catalog plan))) }
    ensures sound { IsSound derived.new }
    ensures outcome { (o : Office) →
        IsNext derived.old o moment (works.Remove kind name catalog plan) →
        result ≡ outcome_of o moment (Remove kind name) }
{
    let entry = derived.entries;
    derived.entries = entry + 1;
    derived.present = moment;
    derived.catalog = catalog;
    derived.sums.take(plan);
    Outcome::Changed { entry: Some(entry) }
}
