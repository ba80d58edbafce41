//! Ticks.
ghost use Rattle.std.specs.Prelude.{◌≡◌, ◌≤◌, ◌<◌, ◌+◌, IfOk, OnOk, length, nat_lt};
ghost use Rattle.record_form.specs.declared.Command.TheVariants.{Tick};
ghost use Rattle.slo_limits.specs.declared.TheConstants as most;
ghost use Rattle.office_history.specs.Alerts.{states_at};
ghost use Rattle.office_history.specs.History.{Office, end_of, with_entry};
ghost use Rattle.office_history.specs.Notices.{changes as changes_def, waiting};
ghost use Rattle.office_history.specs.Outcomes.{outcome_of};
ghost use Rattle.office_history.specs.Verdicts.{tick_verdict};
ghost use Rattle.office_derived.specs.declared.Work.TheVariants as works;
ghost use Rattle.office_derived.specs.Derived.{HasRoom, IsJudged, IsNext, IsSound, Reflects, Stays};
ghost use Rattle.office_derived.specs.Derived.{entry_of};
ghost use Rattle.kept_lines.specs.Known.{AllKnow};
ghost use Rattle.kept_lines.specs.Lines.{HasLines};
ghost use Rattle.kept_lines.specs.Sums.{samples_of};
ghost use Rattle.notice_changes.specs.States.{AreByBinding};

use crate::changes::changes;
use crate::notices::tell;
use burn_core::State;
use catalog_terms::Binding;
use kept_lines::{KeptLines, states_over};
use notice_box::NoticeBox;
use office_derived::{Derived, Verdict, Work, accepted};
use office_history::Judgement;
use record_form::{LimitName, Outcome, Refusal};
use slo_limits::MAX_NOTICES;
use std::alloc::{AllocError, Global};

/// Bindings with their states.
type States = Vec<(Binding, State)>;

/// Whether so many notices more would be too many that wait.
fn passes_limit(waiting: u32, told: usize) -> bool
    requires { waiting ≤ most.MAX_NOTICES }
    ensures { result ≡ nat_lt most.MAX_NOTICES (waiting + told) }
{
    ((MAX_NOTICES - waiting) as usize) < told
}

/// What becomes of a tick that would tell so many changes.
fn tick_judgement(notices: &NoticeBox, entries: u32, told: &[(Binding, State)]) -> Judgement
    requires { waiting notices.now.made ≤ most.MAX_NOTICES }
    ensures { result ≡ tick_verdict notices.now.made entries (length told.now) }
{
    if passes_limit(notices.waiting(), told.len()) {
        return Judgement::Refused(Refusal::Limit {
            which: LimitName::Notices,
        });
    }
    accepted(entries)
}

/// The states at a moment, and those that are told.
fn states_and_changes(
    alloc: Global,
    derived: &Derived,
    lines: &mut KeptLines,
    moment: u32,
) -> Result<(States, States), AllocError>
    requires sound { IsSound derived.now }
    requires begun { derived.now.origin ≤ moment }
    requires in_range { moment < end_of derived.now.origin }
    requires lines { HasLines derived.now lines.old.kept }
    ensures states { IfOk result (λ found. found.0.items
        ≡ states_at derived.now.origin derived.now.catalog (samples_of derived.now.book) moment) }
    ensures told { AreByBinding derived.now.states.items → IfOk result (λ found. found.1.items
        ≡ changes_def derived.now.catalog derived.now.states.items found.0.items) }
    ensures lines { HasLines derived.now lines.new.kept }
    ensures know { AllKnow lines.old.kept lines.new.kept }
    ensures spare { lines.new.spare ≡ lines.old.spare }
{
    let states = states_over(alloc, derived, lines, moment)?;
    let told = changes(alloc, &derived.catalog, &derived.states, &states)?;
    Ok((states, told))
}

/// What becomes of a tick at a moment of the office's range. No line forgets a minute.
pub fn judge_tick(
    alloc: Global,
    derived: &Derived,
    lines: &mut KeptLines,
    moment: u32,
) -> Verdict<Work>
    requires sound { IsSound derived.now }
    requires begun { derived.now.origin ≤ moment }
    requires in_range { moment < end_of derived.now.origin }
    requires lines { HasLines derived.now lines.old.kept }
    ensures judged { (o : Office) → Reflects derived.now o → IsJudged o moment Tick result }
    ensures lines { HasLines derived.now lines.new.kept }
    ensures know { AllKnow lines.old.kept lines.new.kept }
    ensures spare { lines.new.spare ≡ lines.old.spare }
{
    match states_and_changes(alloc, derived, lines, moment) {
        Ok((states, told)) => {
            match tick_judgement(&derived.notices, derived.entries, &told) {
                Judgement::Accepted => Verdict::Ready(Work::Tick { states, told }),
                Judgement::Same(outcome) => Verdict::Same(outcome),
                Judgement::Refused(refusal) => Verdict::Refused(refusal),
            }
        }
        Err(_) => Verdict::NoMemory,
    }
}

/// Makes room for the notices of a tick, of which there are no more than may wait. After an error
/// all is as before.
pub fn room_for_tick(derived: &mut Derived, told: &[(Binding, State)]) -> Result<(), AllocError>
    requires few { length told.now ≤ most.MAX_NOTICES }
    ensures room { OnOk result (length told.now ≤ derived.new.notices.spare) }
    ensures stays { Stays derived.old derived.new }
{
    derived.notices.reserve(count(told))
}

fn count(told: &[(Binding, State)]) -> u32
    requires { length told.now ≤ most.MAX_NOTICES }
    ensures { result ≡ length told.now }
{
    told.len() as u32
}

/// Does a tick that was judged and has its room. Takes no memory.
pub fn apply_tick(derived: &mut Derived, moment: u32, states: States, told: States) -> Outcome
    requires sound { IsSound derived.old }
    requires room { HasRoom derived.old (works.Tick states told) }
    requires next { (o : Office) × IsNext derived.old o moment (works.Tick states told) }
    ensures reflects { (o : Office) → IsNext derived.old o moment (works.Tick states told)
        → Reflects derived.new (with_entry o (entry_of moment (works.Tick states told))) }
    ensures sound { IsSound derived.new }
    ensures outcome { (o : Office) → IsNext derived.old o moment (works.Tick states told)
        → result ≡ outcome_of o moment Tick }
{
    let entry = derived.entries;
    let notices = count(&told);
    tell(&mut derived.notices, moment, &told);
    derived.states = states;
    derived.entries = entry + 1;
    derived.present = moment;
    Outcome::Ticked { entry, notices }
}
