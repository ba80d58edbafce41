//! Takings of notices.
ghost use Rattle.std.specs.Prelude.{◌≡◌, ◌≤◌, ◌<◌, ◌+◌, ℕ, length};
ghost use Rattle.record_form.specs.declared.Command.TheVariants.{Take};
ghost use Rattle.notice_box.specs.Box.{count_waiting, after_taking};
ghost use Rattle.office_history.specs.History.{Office, with_entry};
ghost use Rattle.office_history.specs.Outcomes.{outcome_of};
ghost use Rattle.office_history.specs.Verdicts.{is_waiting as is_waiting_def, take_verdict};
ghost use Rattle.office_derived.specs.declared.Work.TheVariants as works;
ghost use Rattle.office_derived.specs.Derived.{IsJudged, IsNext, IsSound, Reflects, entry_of};

use notice_box::{NoticeBox, UnknownNotice};
use office_derived::{Derived, Verdict, Work, accepted};
use office_history::Judgement;
use record_form::{Outcome, Refusal};

/// Whether the notice of a number waits.
fn is_waiting(notices: &NoticeBox, number: u32) -> bool
    requires { 0 < number }
    ensures { result ≡ is_waiting_def notices.now.made number }
{
    notices.numbered();
    match notices.notice_at(number - 1) {
        Some((_, waits)) => waits,
        None => false,
    }
}

/// What becomes of the taking of a notice.
fn take_judgement(notices: &NoticeBox, entries: u32, number: u32) -> Judgement
    ensures { result ≡ take_verdict notices.now.made entries number }
{
    let made = notices.count();
    if number == 0 || made < number {
        return Judgement::Refused(Refusal::UnknownNotice { made, number });
    }
    if is_waiting(notices, number) {
        return accepted(entries);
    }
    Judgement::Same(Outcome::Changed { entry: None })
}

/// What becomes of the taking of the notice of a number, at any moment.
pub fn judge_take(derived: &Derived, number: u32) -> Verdict<Work>
    requires { IsSound derived.now }
    ensures { (o : Office) (moment : ℕ) → Reflects derived.now o
        → IsJudged o moment (Take number) result }
{
    match take_judgement(&derived.notices, derived.entries, number) {
        Judgement::Accepted => Verdict::Ready(Work::Take(number)),
        Judgement::Same(outcome) => Verdict::Same(outcome),
        Judgement::Refused(refusal) => Verdict::Refused(refusal),
    }
}

/// Takes a notice that was made.
fn take(notices: &mut NoticeBox, number: u32)
    requires some { 0 < number }
    requires made { number ≤ length notices.old.made }
    ensures made { notices.new.made ≡ after_taking notices.old.made number }
    ensures one { count_waiting notices.old.made ≤ count_waiting notices.new.made + 1 }
{
    match notices.take(number) {
        Ok(_) => {}
        Err(UnknownNotice) => unreachable!(),
    }
}

/// Does a taking that was judged. Takes no memory.
pub fn apply_take(derived: &mut Derived, moment: u32, number: u32) -> Outcome
    requires sound { IsSound derived.old }
    requires next { (o : Office) × IsNext derived.old o moment (works.Take number) }
    ensures reflects { (o : Office) → IsNext derived.old o moment (works.Take number)
        → Reflects derived.new (with_entry o (entry_of moment (works.Take number))) }
    ensures sound { IsSound derived.new }
    ensures outcome { (o : Office) → IsNext derived.old o moment (works.Take number)
        → result ≡ outcome_of o moment (Take number) }
{
    let entry = derived.entries;
    take(&mut derived.notices, number);
    derived.entries = entry + 1;
    derived.present = moment;
    Outcome::Changed { entry: Some(entry) }
}
