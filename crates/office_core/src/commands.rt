//! Commands: judged, given room, done.
ghost use Rattle.std.specs.Prelude.{◌≡◌, ◌≤◌, ◌<◌, OnOk};
ghost use Rattle.office_history.specs.History.{Office, with_entry, end_of};
ghost use Rattle.office_history.specs.Outcomes.{outcome_of};
ghost use Rattle.office_derived.specs.Derived.{HasRoom, IsJudged, IsNext, IsSound, Reflects, Stays};
ghost use Rattle.office_derived.specs.Derived.{command_of, entry_of};
ghost use Rattle.kept_lines.specs.Known.{AllKnow};
ghost use Rattle.kept_lines.specs.Lines.{HasLines};
ghost use Rattle.notice_changes.specs.Works.{TellsFew};
ghost use Rattle.office_core.specs.Forgetting.{ForgetsOnlyNear};
ghost use Rattle.office_core.specs.Machine.{HasLinesPlan};

use crate::lines::lift;
use catalog_changes::{
    apply_define, apply_put_zone, apply_remove, judge_define, judge_put_zone, judge_remove,
    room_for_plan, room_for_put_zone,
};
use kept_lines::{KeptLines, LinesPlan};
use notice_changes::{apply_take, apply_tick, judge_take, judge_tick, room_for_tick};
use office_derived::{Derived, Verdict, Work};
use record_form::{Command, Outcome};
use sample_changes::{
    apply_exclude, apply_samples, apply_upgrade, judge_exclude, judge_lift, judge_samples,
    judge_upgrade, room_for_exclude, room_for_samples,
};
use std::alloc::{AllocError, Global};

/// What becomes of a command at a moment. The lines may learn.
pub(crate) fn judge(
    alloc: Global,
    derived: &Derived,
    lines: &mut KeptLines,
    moment: u32,
    command: &Command,
) -> Verdict<Work>
    requires sound { IsSound derived.now }
    requires begun { derived.now.origin ≤ moment }
    requires in_range { moment < end_of derived.now.origin }
    requires lines { HasLines derived.now lines.old.kept }
    ensures judged { (o : Office) → Reflects derived.now o → IsJudged o moment command.now result }
    ensures lines { HasLines derived.now lines.new.kept }
    ensures know { AllKnow lines.old.kept lines.new.kept }
{
    match command {
        Command::Define(text) => judge_define(alloc, derived, moment, text),
        Command::Remove(kind, name) => judge_remove(alloc, derived, moment, *kind, *name),
        Command::PutZone(name, bytes) => judge_put_zone(alloc, derived, moment, *name, bytes),
        Command::Samples(rows) => judge_samples(alloc, derived, moment, rows),
        Command::Exclude(value) => judge_exclude(derived, value),
        Command::Lift(id) => judge_lift(derived, *id),
        Command::Tick => judge_tick(alloc, derived, lines, moment),
        Command::Take(number) => judge_take(derived, *number),
        Command::Upgrade => judge_upgrade(derived),
    }
}

/// Takes all memory that an accepted command needs.
pub(crate) fn make_room(alloc: Global, derived: &mut Derived, work: &Work) -> Result<(), AllocError>
    requires few { TellsFew work.now }
    requires sound { IsSound derived.old }
    ensures room { OnOk result (HasRoom derived.new work.now) }
    ensures stays { Stays derived.old derived.new }
{
    match work {
        Work::Define { plan, .. } => room_for_plan(derived, plan),
        Work::Remove { plan, .. } => room_for_plan(derived, plan),
        Work::PutZone { .. } => room_for_put_zone(derived),
        Work::Samples { rows, .. } => room_for_samples(derived, rows),
        Work::Exclude(value) => room_for_exclude(alloc, derived, value),
        Work::Tick { told, .. } => room_for_tick(derived, told),
        _ => Ok(()),
    }
}

/// Does an accepted command, with no memory. The lines of alerts forget what it changes, and no
/// more.
pub(crate) fn apply(
    derived: &mut Derived,
    lines: &mut KeptLines,
    moment: u32,
    work: Work,
    plan: Option<LinesPlan>,
) -> Outcome
    requires sound { IsSound derived.old }
    requires room { HasRoom derived.old work }
    requires next { (o : Office) × IsNext derived.old o moment work }
    requires lines { HasLines derived.old lines.old.kept }
    requires plan { HasLinesPlan derived.old lines.old work plan }
    ensures reflects { (o : Office) → IsNext derived.old o moment work
        → Reflects derived.new (with_entry o (entry_of moment work)) }
    ensures sound { IsSound derived.new }
    ensures outcome { (o : Office) → IsNext derived.old o moment work
        → result ≡ outcome_of o moment (command_of work) }
    ensures lines { HasLines derived.new lines.new.kept }
    ensures forgets { (o : Office) → IsNext derived.old o moment work
        → ForgetsOnlyNear o (entry_of moment work) lines.old.kept lines.new.kept }
{
    match work {
        Work::Define {
            text,
            catalog,
            applied,
            plan: sums,
        } => {
            let outcome = apply_define(derived, moment, text, catalog, applied, sums);
            if let Some(plan) = plan {
                lines.take(plan);
            }
            outcome
        }
        Work::Remove {
            kind,
            name,
            catalog,
            plan: sums,
        } => {
            let outcome = apply_remove(derived, moment, kind, name, catalog, sums);
            if let Some(plan) = plan {
                lines.take(plan);
            }
            outcome
        }
        Work::PutZone { name, bytes, zone } => apply_put_zone(derived, moment, name, bytes, zone),
        Work::Samples {
            rows,
            tally,
            verdicts,
        } => {
            lines.forget_rows(derived, rows.as_slice(), &verdicts);
            apply_samples(derived, moment, rows, tally, verdicts)
        }
        Work::Exclude(value) => {
            lines.forget_exclusion(derived, &value, true);
            apply_exclude(derived, moment, value)
        }
        Work::Lift(id) => lift(derived, lines, moment, id),
        Work::Tick { states, told } => apply_tick(derived, moment, states, told),
        Work::Take(number) => apply_take(derived, moment, number),
        Work::Upgrade => apply_upgrade(derived, moment),
    }
}
