//! The windows of an SLO's calendar that begin in a stretch of minutes, with their budgets.
ghost use Rattle.std.specs.Prelude.{◌≡◌, ◌<◌, ◌≤◌, ◌^◌, [], All, IfOk, IfSome, None, Some, drop};
ghost use Rattle.std.specs.Prelude.{length};
ghost use Rattle.std.specs.List.{AllByRecursion};
ghost use Rattle.zone_calendar.specs.Starts.{IsCalendarStep};
ghost use Rattle.object_laws.specs.Ranges.{IsWindow};
ghost use Rattle.record_form.specs.declared.Query.TheVariants as queries;
ghost use Rattle.office_history.specs.History.{Office};
ghost use Rattle.office_history.specs.Catalog.{catalog_in};
ghost use Rattle.office_history.specs.Objectives.{measures_named as measures_named_def};
ghost use Rattle.office_history.specs.Objectives.{slo_named as slo_named_def};
ghost use Rattle.office_history.specs.Answers.{Answers, AnswersWindows, budget_rows as rows_def};
ghost use Rattle.office_history.specs.Answers.{counted_until as counted_until_def, end_before};
ghost use Rattle.office_history.specs.Answers.{is_stretch as is_stretch_def, window_rows};
ghost use Rattle.office_history.specs.Answers.{windows_of as windows_of_def};
ghost use Rattle.office_history.specs.Windows.{IsStart, IsStartIn};
ghost use Rattle.office_history.specs.Zones.{zone_named};
ghost use Rattle.kept_sums.specs.Objectives.{IsObjective};
ghost use Rattle.catalog_measures.specs.Measures.{IsMeasure};
ghost use Rattle.office_derived.specs.Derived.{IsSound, Reflects};
ghost use Rattle.kept_lines.specs.Sums.{samples_of};
ghost use Rattle.history_answers.specs.Starts.{AreBegun, AreOpen};

use crate::budget_list::budget_rows;
use crate::calendar_starts::{first_start, starts_in};
use crate::window_start::is_utc;
use catalog_measures::{measures_named, slo_named};
use exact_fraction::Label;
use object_terms::{Calendar, Slo, TimeWindow};
use office_derived::{Derived, Zones};
use office_history::{MAX_WINDOWS, Measure};
use record_form::{Listed, Outcome, Refusal, WindowRow};
use slo_duration::Duration;
use slo_limits::{MAX_OBJECTIVES, RANGE_MINUTES};
use std::alloc::{AllocError, Global};
use zone_calendar::Zone;

/// Where windows begin in a stretch of minutes, in order, and where the next one behind it does.
#[derive(Drop)]
struct Begun {
    starts: Vec<u32>,
    next: Option<u32>,
}

/// The windows of a calendar in a zone that begin in [from, to).
fn begun_in_zone(
    alloc: Global,
    zone: &Zone,
    calendar: &Calendar,
    step: Duration,
    horizon: u32,
    from: u32,
    to: u32,
) -> Result<Begun, AllocError>
    requires step { IsCalendarStep step }
    requires horizon { horizon < 2 ^ 27 }
    requires order { from ≤ to }
    ensures { IfOk result (λ begun. AreBegun (IsStartIn (Some zone.now) calendar.now step horizon)
        from to begun.starts.items begun.next) }
{
    let next = first_start(zone, calendar, step, horizon, to);
    let starts = starts_in(alloc, zone, calendar, step, horizon, from, to)?;
    Ok(Begun { starts, next })
}

/// No windows.
fn none_begun(alloc: Global) -> Begun
    ensures starts { result.starts.items ≡ [] }
    ensures next { result.next ≡ None }
{
    Begun {
        starts: Vec::new(alloc),
        next: None,
    }
}

/// The windows of a calendar that begin in [from, to): none where there is no zone of its name.
fn begun_by(
    alloc: Global,
    zones: &Zones,
    calendar: &Calendar,
    step: Duration,
    horizon: u32,
    from: u32,
    to: u32,
) -> Result<Begun, AllocError>
    requires step { IsCalendarStep step }
    requires horizon { horizon < 2 ^ 27 }
    requires order { from ≤ to }
    ensures { IfOk result (λ begun. AreBegun
        (IsStartIn (zone_named zones.now.kept calendar.now.time_zone) calendar.now step horizon)
        from to begun.starts.items begun.next) }
{
    if is_utc(calendar.time_zone) {
        return begun_in_zone(alloc, &Zone::utc(), calendar, step, horizon, from, to);
    }
    match zones.zone_of(calendar.time_zone) {
        Some(zone) => begun_in_zone(alloc, zone, calendar, step, horizon, from, to),
        None => Ok(none_begun(alloc)),
    }
}

/// The windows that begin in [from, to): none where they are rolling.
fn begun_of(
    alloc: Global,
    zones: &Zones,
    window: &TimeWindow,
    horizon: u32,
    from: u32,
    to: u32,
) -> Result<Begun, AllocError>
    requires step { IfSome window.now.calendar (λ _. IsCalendarStep window.now.duration.span) }
    requires horizon { horizon < 2 ^ 27 }
    requires order { from ≤ to }
    ensures { IfOk result (λ begun. AreBegun (IsStart zones.now.kept window.now horizon) from to
        begun.starts.items begun.next) }
{
    match &window.calendar {
        Some(calendar) => begun_by(
            alloc,
            zones,
            calendar,
            window.duration.span,
            horizon,
            from,
            to,
        ),
        None => Ok(none_begun(alloc)),
    }
}

/// Up to where a window is counted: its end, or the moment where that is earlier or it has none.
fn counted_until(moment: u32, end: Option<u32>) -> u32
    ensures { result ≡ counted_until_def moment end }
{
    match end {
        Some(end) => end.min(moment),
        None => moment,
    }
}

/// Where the window ends that begins at the start before this place.
#[tactic(auto, using(crate::proofs::WindowLemmas::ends))]
fn end_at(starts: &[u32], place: usize, next: Option<u32>) -> Option<u32>
    ensures { result ≡ end_before (drop place starts.now) next }
{
    if place < starts.len() {
        Some(starts[place])
    } else {
        next
    }
}

/// The window that begins at a minute, counted up to the moment at most.
fn window_row(
    alloc: Global,
    derived: &Derived,
    measures: &[Measure],
    from: u32,
    to: Option<u32>,
    moment: u32,
) -> Result<WindowRow, AllocError>
    requires sound { IsSound derived.now }
    requires ranges { All IsMeasure measures.now }
    requires objectives { AllByRecursion (IsObjective derived.now.catalog) measures.now }
    requires few { length measures.now ≤ MAX_OBJECTIVES }
    requires order { from ≤ counted_until_def moment to }
    ensures { IfOk result (λ row. row ≡ record {
      from = from;
      to = to;
      budgets = rows_def
          (samples_of derived.now.book) from (counted_until_def moment to) 0 measures.now;
    }) }
{
    let until = counted_until(moment, to);
    let rows = budget_rows(alloc, derived, measures, from, until)?;
    Ok(WindowRow {
        budgets: Listed::from_vec(rows),
        from,
        to,
    })
}

/// The windows of these starts, the last of which ends at `next`.
fn rows_of(
    alloc: Global,
    derived: &Derived,
    measures: &[Measure],
    starts: &[u32],
    next: Option<u32>,
    moment: u32,
) -> Result<Vec<WindowRow>, AllocError>
    requires sound { IsSound derived.now }
    requires ranges { All IsMeasure measures.now }
    requires objectives { AllByRecursion (IsObjective derived.now.catalog) measures.now }
    requires few { length measures.now ≤ MAX_OBJECTIVES }
    requires begun { AreOpen moment starts.now next }
    ensures { IfOk result (λ rows. rows.items ≡ window_rows (λ from to. rows_def
        (samples_of derived.now.book) from (counted_until_def moment to) 0 measures.now)
        starts.now next) }
{
    let mut rows = Vec::new(alloc);
    for place in 0..starts.len() {
        let end = end_at(starts, place + 1, next);
        let row = window_row(alloc, derived, measures, starts[place], end, moment)?;
        rows.push(row)?;
    }
    Ok(rows)
}

fn windows_of(
    alloc: Global,
    derived: &Derived,
    moment: u32,
    name: Label,
    starts: &[u32],
    next: Option<u32>,
) -> Result<Outcome, AllocError>
    requires sound { IsSound derived.now }
    requires few { length (measures_named_def derived.now.catalog name) ≤ MAX_OBJECTIVES }
    requires begun { AreOpen moment starts.now next }
    ensures { (o : Office) → Reflects derived.now o → IfOk result (λ outcome. outcome
        ≡ windows_of_def o moment (measures_named_def (catalog_in o.history) name) starts.now
        next) }
{
    if MAX_WINDOWS < starts.len() {
        return Ok(Outcome::Refused(Refusal::Range));
    }
    let measures = measures_named(alloc, &derived.catalog, name)?;
    let rows = rows_of(alloc, derived, measures.as_slice(), starts, next, moment)?;
    Ok(Outcome::Windows {
        at: moment,
        entries: derived.entries,
        windows: Listed::from_vec(rows),
    })
}

/// Whether [from, to) lies between the origin and the moment.
fn is_stretch(derived: &Derived, moment: u32, from: u32, to: u32) -> bool
    ensures { result ≡ is_stretch_def derived.now.origin moment from to }
{
    derived.origin <= from && (from <= to && to <= moment)
}

#[tactic(auto, using(crate::proofs::BudgetLemmas::few_measures))]
fn windows_between(
    alloc: Global,
    derived: &Derived,
    moment: u32,
    name: Label,
    slo: &Slo,
    from: u32,
    to: u32,
) -> Result<Outcome, AllocError>
    requires sound { IsSound derived.now }
    requires there { slo_named_def derived.now.catalog name ≡ Some slo.now }
    requires few { length slo.now.objectives ≤ MAX_OBJECTIVES }
    requires window { IsWindow slo.now.time_window }
    ensures { (o : Office) → Reflects derived.now o
        → IfOk result (AnswersWindows o moment name from to (Some slo.now)) }
{
    if !is_stretch(derived, moment, from, to) {
        return Ok(Outcome::Refused(Refusal::Range));
    }
    let horizon = derived.origin + RANGE_MINUTES;
    let begun = begun_of(alloc, &derived.zones, &slo.time_window, horizon, from, to)?;
    windows_of(alloc, derived, moment, name, &begun.starts, begun.next)
}

/// The windows of an SLO that begin in [from, to).
pub(crate) fn window_list(
    alloc: Global,
    derived: &Derived,
    moment: u32,
    name: Label,
    from: u32,
    to: u32,
) -> Result<Outcome, AllocError>
    requires { IsSound derived.now }
    ensures { (o : Office) → Reflects derived.now o
        → IfOk result (Answers o moment (queries.Windows name from to)) }
{
    match slo_named(&derived.catalog, name) {
        Some(slo) => windows_between(alloc, derived, moment, name, slo, from, to),
        None => Ok(Outcome::Refused(Refusal::NotFound)),
    }
}
