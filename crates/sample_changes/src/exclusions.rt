//! Exclusions and their liftings.
ghost use Rattle.std.specs.Prelude.{◌≡◌, ◌≤◌, ◌++◌, ◌∷◌, ◌||◌, [], ℕ, List, true, OnOk, Some};
ghost use Rattle.std.specs.Prelude.{All, false, is_none, length};
ghost use Rattle.std.specs.List.{AllByRecursion, Contains};
ghost use Rattle.catalog_measures.specs.Measures.{IsMeasure};
ghost use Rattle.kept_sums.specs.Objectives.{IsObjective, counted, keys_by};
ghost use Rattle.office_history.specs.declared.Measure.{Measure};
ghost use Rattle.slo_limits.specs.declared.TheConstants.{MAX_MINUTE};
ghost use Rattle.sample_book.specs.declared.Exclusion.{Exclusion};
ghost use Rattle.sample_book.specs.Exclusions.{IsLive, excludes, exclusion_of, is_excluded};
ghost use Rattle.record_form.specs.declared.Command.TheVariants as commands;
ghost use Rattle.office_history.specs.History.{Office, with_entry};
ghost use Rattle.office_history.specs.Objectives.{slo_named};
ghost use Rattle.office_history.specs.Outcomes.{outcome_of};
ghost use Rattle.office_history.specs.Verdicts.{exclude_verdict as exclude_verdict_def};
ghost use Rattle.office_history.specs.Verdicts.{is_range as is_range_def};
ghost use Rattle.office_history.specs.Verdicts.{lift_verdict as lift_verdict_def};
ghost use Rattle.office_history.specs.Verdicts.{new_exclusion_fault as new_exclusion_fault_def};
ghost use Rattle.office_history.specs.Verdicts.{same_content};
ghost use Rattle.office_derived.specs.declared.Work.TheVariants as works;
ghost use Rattle.office_derived.specs.Derived.{HasRoom, IsJudged, IsNext, IsSound, Reflects, Stays};
ghost use Rattle.office_derived.specs.Derived.{entry_of};

use crate::faults::limit;
use catalog_measures::measures_named;
use exact_fraction::Label;
use object_terms::Kind;
use office_derived::{Derived, Verdict, Work, accepted};
use office_history::{Judgement, Measure};
use record_form::{LimitName, Outcome, Refusal};
use sample_book::{Exclusion, SampleBook};
use slo_catalog::{Catalog, slo_in};
use slo_limits::{MAX_EXCLUSIONS, RANGE_MINUTES};
use std::alloc::{AllocError, Global};

/// Whether no SLO has the name.
fn has_no_slo(catalog: &Catalog, name: Label) -> bool
    ensures { result ≡ is_none (slo_named catalog.now name) }
{
    match catalog.find(Kind::Slo, name) {
        Some(object) => slo_in(&object.body).is_none(),
        None => true,
    }
}

fn is_same_content(a: &Exclusion, b: &Exclusion) -> bool
    ensures { result ≡ same_content a.now b.now }
{
    a.slo == b.slo && a.from == b.from && a.to == b.to
}

/// Whether an exclusion is of minutes of the office, one at least.
fn is_range(origin: u32, value: &Exclusion) -> bool
    requires { origin ≤ MAX_MINUTE }
    ensures { result ≡ is_range_def origin value.now }
{
    origin <= value.from && value.from < value.to && value.to <= origin + RANGE_MINUTES
}

/// The first rule that an exclusion of an unused id breaks.
fn new_exclusion_fault(
    origin: u32,
    catalog: &Catalog,
    made: u32,
    value: &Exclusion,
) -> Option<Refusal>
    requires { origin ≤ MAX_MINUTE }
    ensures { result ≡ new_exclusion_fault_def origin catalog.now made value.now }
{
    if has_no_slo(catalog, value.slo) {
        return Some(Refusal::NoSuchSlo {
            kind: Kind::Slo,
            name: value.slo,
        });
    }
    if !is_range(origin, value) {
        return Some(Refusal::Range);
    }
    if MAX_EXCLUSIONS <= made as usize {
        return Some(limit(LimitName::Exclusions));
    }
    None
}

/// What becomes of an exclusion.
fn exclude_verdict(derived: &Derived, value: &Exclusion) -> Judgement
    requires { IsSound derived.now }
    ensures { result ≡ exclude_verdict_def derived.now.origin derived.now.catalog
        derived.now.book.exclusions derived.now.entries value.now }
{
    match derived.book.exclusion(value.id) {
        Some((kept, true)) => {
            if is_same_content(&kept, value) {
                Judgement::Same(Outcome::Changed { entry: None })
            } else {
                Judgement::Refused(Refusal::ExclusionConflict {
                    from: kept.from,
                    slo: kept.slo,
                    to: kept.to,
                })
            }
        }
        Some((_, false)) => Judgement::Refused(Refusal::Withdrawn { id: value.id }),
        None => {
            let made = derived.book.exclusions();
            match new_exclusion_fault(derived.origin, &derived.catalog, made, value) {
                Some(fault) => Judgement::Refused(fault),
                None => accepted(derived.entries),
            }
        }
    }
}

/// What becomes of an exclusion that comes, whatever the moment.
pub fn judge_exclude(derived: &Derived, value: &Exclusion) -> Verdict<Work>
    requires { IsSound derived.now }
    ensures { (o : Office) (moment : ℕ) → Reflects derived.now o → IsJudged o moment
        (commands.Exclude value.now) result }
{
    match exclude_verdict(derived, value) {
        Judgement::Accepted => Verdict::Ready(Work::Exclude(*value)),
        Judgement::Same(outcome) => Verdict::Same(outcome),
        Judgement::Refused(refusal) => Verdict::Refused(refusal),
    }
}

/// Keeps sums of its SLO for an objective, unless they are kept: nothing is excluded from those
/// that it shares with other SLOs.
fn part(alloc: Global, derived: &mut Derived, measure: &Measure) -> Result<(), AllocError>
    requires sound { IsSound derived.old }
    requires objective { IsObjective derived.old.catalog measure.now }
    requires range { IsMeasure measure.now }
    ensures here { OnOk result
        (Contains (keys_by false derived.new.sums.own) (counted measure.now)) }
    ensures still { (key : Measure) → Contains (keys_by false derived.old.sums.own) key
        → Contains (keys_by false derived.new.sums.own) key }
    ensures stays { Stays derived.old derived.new }
{
    let kept = derived.sums.has_own(measure);
    if kept {
        return Ok(());
    }
    let sums = derived.sums.new_sums(alloc, measure, false, &derived.book)?;
    derived.sums.add_own(measure, sums)?;
    Ok(())
}

/// Keeps sums of their SLO for objectives.
fn part_all(alloc: Global, derived: &mut Derived, measures: &[Measure]) -> Result<(), AllocError>
    requires sound { IsSound derived.old }
    requires objectives { AllByRecursion (IsObjective derived.old.catalog) measures.now }
    requires ranges { All IsMeasure measures.now }
    ensures here { OnOk result (AllByRecursion (λ (m : Measure).
        Contains (keys_by false derived.new.sums.own) (counted m)) measures.now) }
    ensures stays { Stays derived.old derived.new }
{
    for measure in measures {
        part(alloc, derived, measure)?;
    }
    Ok(())
}

/// Takes all memory that an exclusion needs: the objectives of its SLO get sums of their own. After
/// an error nothing changes but the room.
pub fn room_for_exclude(
    alloc: Global,
    derived: &mut Derived,
    value: &Exclusion,
) -> Result<(), AllocError>
    requires { IsSound derived.old }
    ensures room { OnOk result (HasRoom derived.new (works.Exclude value.now)) }
    ensures stays { Stays derived.old derived.new }
{
    let measures = measures_named(alloc, &derived.catalog, value.slo)?;
    part_all(alloc, derived, &measures)?;
    derived.book.reserve(1)
}

/// Makes an accepted exclusion, with no memory.
pub fn apply_exclude(derived: &mut Derived, moment: u32, value: Exclusion) -> Outcome
    requires sound { IsSound derived.old }
    requires room { HasRoom derived.old (works.Exclude value) }
    requires next { (o : Office) × IsNext derived.old o moment (works.Exclude value) }
    ensures reflects { (o : Office) → IsNext derived.old o moment (works.Exclude value) → Reflects
        derived.new (with_entry o (entry_of moment (works.Exclude value))) }
    ensures sound { IsSound derived.new }
    ensures outcome { (o : Office) → IsNext derived.old o moment (works.Exclude value) → result ≡
        outcome_of o moment (commands.Exclude value) }
    ensures made { derived.new.book.exclusions ≡ derived.old.book.exclusions ++ (value, true) ∷ [] }
{
    let entry = derived.entries;
    derived.sums.follow_exclusion(&derived.book, &value, true);
    derived.book.exclude(value);
    derived.entries = entry + 1;
    derived.present = moment;
    Outcome::Changed { entry: Some(entry) }
}

/// What becomes of the lifting of an exclusion.
fn lift_verdict(book: &SampleBook, entries: u32, id: Label) -> Judgement
    ensures { result ≡ lift_verdict_def book.now.exclusions entries id }
{
    match book.exclusion(id) {
        Some((_, true)) => accepted(entries),
        Some((_, false)) => Judgement::Same(Outcome::Changed { entry: None }),
        None => Judgement::Refused(Refusal::NotFound),
    }
}

/// What becomes of the lifting of an exclusion that comes, whatever the moment.
pub fn judge_lift(derived: &Derived, id: Label) -> Verdict<Work>
    ensures { (o : Office) (moment : ℕ) → Reflects derived.now o → IsJudged o moment (commands.Lift
        id) result }
{
    match lift_verdict(&derived.book, derived.entries, id) {
        Judgement::Accepted => Verdict::Ready(Work::Lift(id)),
        Judgement::Same(outcome) => Verdict::Same(outcome),
        Judgement::Refused(refusal) => Verdict::Refused(refusal),
    }
}

/// The exclusion of an id, which is live.
fn live_exclusion(book: &SampleBook, id: Label) -> Exclusion
    requires { IsLive book.now.exclusions id }
    ensures { exclusion_of book.now.exclusions id ≡ Some (result, true) }
{
    match book.exclusion(id) {
        Some((value, true)) => value,
        _ => unreachable!(),
    }
}

/// Lifts an exclusion, with no memory. With the last one that is live its SLO gives up its sums
/// where pooled ones are kept, so that no row is looked at for them.
pub fn apply_lift(derived: &mut Derived, moment: u32, id: Label) -> Outcome
    requires sound { IsSound derived.old }
    requires next { (o : Office) × IsNext derived.old o moment (works.Lift id) }
    ensures reflects { (o : Office) → IsNext derived.old o moment (works.Lift id) → Reflects
        derived.new (with_entry o (entry_of moment (works.Lift id))) }
    ensures sound { IsSound derived.new }
    ensures outcome { (o : Office) → IsNext derived.old o moment (works.Lift id) → result ≡
        outcome_of o moment (commands.Lift id) }
    ensures minutes { (value : Exclusion) (slo : List ℕ) (minute : ℕ)
        → exclusion_of derived.old.book.exclusions id ≡ Some (value, true)
        → is_excluded derived.old.book.exclusions slo minute
        ≡ (is_excluded derived.new.book.exclusions slo minute
        || excludes slo minute (value, true)) }
{
    let entry = derived.entries;
    let value = live_exclusion(&derived.book, id);
    derived.book.lift(id);
    derived.sums.pool_again(&derived.book, value.slo);
    derived.sums.follow_exclusion(&derived.book, &value, false);
    derived.entries = entry + 1;
    derived.present = moment;
    Outcome::Changed { entry: Some(entry) }
}
