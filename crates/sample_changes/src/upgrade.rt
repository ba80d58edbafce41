//! The upgrade of an office.
ghost use Rattle.std.specs.Prelude.{◌≡◌, ℕ};
ghost use Rattle.record_form.specs.declared.Command.TheVariants as commands;
ghost use Rattle.office_history.specs.History.{Office, with_entry};
ghost use Rattle.office_history.specs.Outcomes.{outcome_of};
ghost use Rattle.office_history.specs.Verdicts.{upgrade_verdict as upgrade_verdict_def};
ghost use Rattle.office_derived.specs.declared.Work.TheVariants as works;
ghost use Rattle.office_derived.specs.Derived.{IsJudged, IsNext, IsSound, Reflects, entry_of};

use office_derived::{Derived, Verdict, Work, accepted};
use office_history::Judgement;
use record_form::Outcome;

fn upgrade_verdict(upgraded: bool, entries: u32) -> Judgement
    ensures { result ≡ upgrade_verdict_def upgraded entries }
{
    if upgraded {
        Judgement::Same(Outcome::Changed { entry: None })
    } else {
        accepted(entries)
    }
}

/// What becomes of an upgrade that comes, whatever the moment.
pub fn judge_upgrade(derived: &Derived) -> Verdict<Work>
    ensures { (o : Office) (moment : ℕ) → Reflects derived.now o → IsJudged o moment
        commands.Upgrade result }
{
    match upgrade_verdict(derived.upgraded, derived.entries) {
        Judgement::Accepted => Verdict::Ready(Work::Upgrade),
        Judgement::Same(outcome) => Verdict::Same(outcome),
        Judgement::Refused(refusal) => Verdict::Refused(refusal),
    }
}

/// Makes an accepted upgrade, with no memory.
pub fn apply_upgrade(derived: &mut Derived, moment: u32) -> Outcome
    requires sound { IsSound derived.old }
    requires next { (o : Office) × IsNext derived.old o moment works.Upgrade }
    ensures reflects { (o : Office) → IsNext derived.old o moment works.Upgrade → Reflects
        derived.new (with_entry o (entry_of moment works.Upgrade)) }
    ensures sound { IsSound derived.new }
    ensures outcome { (o : Office) → IsNext derived.old o moment works.Upgrade → result ≡
        outcome_of o moment commands.Upgrade }
{
    let entry = derived.entries;
    derived.upgraded = true;
    derived.entries = entry + 1;
    derived.present = moment;
    Outcome::Changed { entry: Some(entry) }
}
