//! The machine over its history.
ghost use Rattle.std.specs.Prelude.{◌≡◌, ◌≤◌, ◌<◌, ◌+◌, ◌⊎◌, ℕ, Option};
ghost use Rattle.std.specs.Prelude.{[], Some, None, IfOk, OnOk, IfSome, length, nat_lt, option_map};
ghost use Rattle.std.specs.Prelude.{slice_get};
ghost use Rattle.std.specs.List.{AllByRecursion};
ghost use Rattle.slo_limits.specs.declared.TheConstants.{MAX_MINUTE};
ghost use Rattle.record_form.specs.declared.Command.{Command};
ghost use Rattle.record_form.specs.declared.Entry.{Entry};
ghost use Rattle.record_form.specs.declared.Outcome.TheVariants.{NoMemory};
ghost use Rattle.record_form.specs.Records.{record_of};
ghost use Rattle.record_form.specs.Ranges.{FitsRecord, IsEntryInRange, IsRecord};
ghost use Rattle.office_history.specs.Alerts.{watched as watched_def};
ghost use Rattle.office_history.specs.Answers.{Answers};
ghost use Rattle.office_history.specs.Catalog.{catalog_in};
ghost use Rattle.office_history.specs.History.{Office, current_in, end_of, exclusions_in};
ghost use Rattle.office_history.specs.History.{moment_of, present, with_entry};
ghost use Rattle.office_history.specs.Legal.{IsLegal};
ghost use Rattle.office_history.specs.Notices.{notices_in, waiting};
ghost use Rattle.office_history.specs.Objectives.{measure_at as measure_at_def};
ghost use Rattle.office_history.specs.Outcomes.{outcome_of};
ghost use Rattle.office_history.specs.Versions.{is_upgraded, version_of};
ghost use Rattle.office_history.specs.Zones.{zones_in};
ghost use Rattle.office_derived.specs.Derived.{HasRoom, IsSound, Stays, command_of, entry_of};
ghost use Rattle.history_answers.specs.Learning.{KnowsAnswered};
ghost use Rattle.history_answers.specs.States.{binding_state};
ghost use Rattle.kept_lines.specs.Known.{AllKnow};
ghost use Rattle.kept_lines.specs.Lines.{HasLines};
ghost use Rattle.notice_changes.specs.Works.{TellsFew};
ghost use Rattle.office_core.specs.Forgetting.{ForgetsOnlyNear};
ghost use Rattle.office_core.specs.Lent.{CountTheSame, LendsLine, LendsSums};
ghost use Rattle.office_core.specs.Machine.{HasLinesPlan, HasRevisions, IsAdded, IsPending};
ghost use Rattle.office_core.specs.Machine.{IsVerdict, MachineIsKept, office_of, pending_of};
ghost use Rattle.office_core.specs.SumsSeen.{sums_seen};
ghost use Rattle.office_core.specs.declared.machine.Pending.{Pending};

use crate::commands::{apply, judge, make_room};
use crate::lines::plan_of;
use alert_line::AlertLine;
use burn_core::State;
use catalog_measures::measure_at;
use catalog_terms::Binding;
use entry_records::EntryRecords;
use exact_fraction::Label;
use history_answers::{answer, state_of};
use kept_lines::{KeptLines, LinesPlan, objective_sums, watched};
use kept_sums::KeptSums;
use notice_box::NoticeBox;
use office_derived::{Derived, Verdict, Work, Zones};
use record_form::{Command, Outcome, Query, write_command};
use sample_book::SampleBook;
use slo_catalog::Catalog;
use slo_limits::RANGE_MINUTES;
use std::alloc::{AllocError, Global};
use std::marker::Model;
use window_sums::WindowSums;

/// An entry for which room was made.
#[derive(Drop)]
pub(crate) struct Pending {
    moment: u32,
    work: Work,
    plan: Option<LinesPlan>,
}

/// The record of an entry for which room was made.
#[derive(Drop)]
pub struct Prepared {
    bytes: Vec<u8>,
}

impl Model for Prepared {
    ghost use Rattle.std.specs.Prelude.{List, ℕ};

    ghost Value = { List ℕ };

    ghost view = { λ a. a.bytes.items };
}

impl Prepared {
    /// The record.
    pub fn bytes(&self) -> &[u8]
        ensures { result.now ≡ self.now }
    {
        &self.bytes
    }
}

/// The machine: a history of accepted entries, kept as their records, and what it comes to.
#[derive(Drop)]
pub struct Core {
    records: EntryRecords,
    derived: Derived,
    lines: KeptLines,
    pending: Option<Pending>,
}

impl Model for Core {
    ghost use Rattle.office_core.specs.Machine.{MachineIsKept, office_of, pending_of};
    ghost use Rattle.office_core.specs.Seen.{Machine};
    ghost use Rattle.office_core.specs.SumsSeen.{sums_seen};

    ghost Value = { Machine };

    ghost view = { λ a. record {
      office = office_of a.derived a.records.history;
      pending = pending_of a.pending;
      sums = sums_seen a.derived.catalog a.derived.sums;
      lines = a.lines.kept;
    } };

    ghost invariant = { λ a. MachineIsKept a.derived a.lines a.records.history a.records.spare
        a.records.places a.pending };
}

impl Core {
    /// A machine with no entries, whose history begins at a minute since 1970-01-01T00:00Z.
    pub fn new(alloc: Global, origin: u32) -> Result<Core, AllocError>
        requires { origin ≤ MAX_MINUTE }
        ensures office { IfOk result (λ core. core.office
            ≡ record { origin = origin; history = [] }) }
        ensures pending { IfOk result (λ core. core.pending ≡ None) }
    {
        let book = SampleBook::new(alloc)?;
        Ok(Core {
            records: EntryRecords::new(alloc),
            derived: Derived {
                origin,
                entries: 0,
                present: origin,
                catalog: Catalog::new(alloc),
                zones: Zones::new(alloc),
                book,
                sums: KeptSums::new(alloc),
                accepted: 0,
                upgraded: false,
                notices: NoticeBox::new(alloc),
                states: Vec::new(alloc),
            },
            lines: KeptLines::new(alloc),
            pending: None,
        })
    }

    /// No work: the history is legal, each of its entries has a record, and no minute of it lies
    /// past the last one. An entry that is pending has a record too.
    pub fn is_legal(&self)
        ensures legal { IsLegal self.now.office.origin self.now.office.history }
        ensures fit { AllByRecursion FitsRecord self.now.office.history }
        ensures pending { IfSome self.now.pending FitsRecord }
        ensures origin { self.now.office.origin ≤ MAX_MINUTE }
        ensures present { present self.now.office ≤ MAX_MINUTE }
    {
        self.records.fit();
    }

    /// The moment of a request that is read at a reading of the clock: not before the present.
    pub fn moment(&self, reading: u32) -> u32
        ensures { result ≡ moment_of self.now.office reading }
    {
        self.derived.present.max(reading)
    }

    /// Whether a moment lies below the end of the office's range.
    pub fn in_range(&self, moment: u32) -> bool
        ensures { result ≡ nat_lt moment (end_of self.now.office.origin) }
    {
        moment < self.derived.origin + RANGE_MINUTES
    }

    /// How many entries there are.
    pub fn length(&self) -> u32
        ensures { result ≡ length self.now.office.history }
    {
        self.derived.entries
    }

    /// The record of the entry at a place, from 0; none exactly where the history ends before it.
    pub fn record_at(&self, place: u32) -> Option<&[u8]>
        ensures { option_map (λ r. r.now) result
            ≡ option_map record_of (slice_get self.now.office.history place) }
    {
        self.records.at(place)
    }

    /// The minute at which the history begins.
    pub fn origin(&self) -> u32
        ensures { result ≡ self.now.office.origin }
    {
        self.derived.origin
    }

    /// The catalog.
    pub fn catalog(&self) -> &Catalog
        ensures { result.now ≡ catalog_in self.now.office.history }
    {
        &self.derived.catalog
    }

    /// How many current rows there are.
    pub fn cells(&self) -> u32
        ensures { result ≡ length (current_in self.now.office.history) }
    {
        self.derived.book.cells()
    }

    /// The zones that were put.
    pub fn zones(&self) -> &Zones
        ensures { result.now.kept ≡ zones_in self.now.office.history }
    {
        &self.derived.zones
    }

    /// The book of samples: the current rows, and the exclusions.
    pub fn book(&self) -> &SampleBook
        ensures rows { result.now.rows ≡ current_in self.now.office.history }
        ensures exclusions { result.now.exclusions ≡ exclusions_in self.now.office.history }
    {
        &self.derived.book
    }

    /// Whether the history has an upgrade.
    pub fn is_upgraded(&self) -> bool
        ensures { result ≡ is_upgraded self.now.office.history }
    {
        self.derived.upgraded
    }

    /// The version of the history: 2 where it has an upgrade, and else 1.
    pub fn version(&self) -> u8
        ensures { result ≡ version_of (is_upgraded self.now.office.history) }
    {
        if self.derived.upgraded { 2 } else { 1 }
    }

    /// How many notices wait.
    pub fn waiting(&self) -> u32
        ensures { result ≡ waiting (notices_in self.now.office) }
    {
        self.derived.notices.waiting()
    }

    /// Judges a command, and takes all memory that it needs where it is accepted. The entry is
    /// pending then; after every other answer nothing is. The sums stay as they are, but for their
    /// room, and no line forgets a minute.
    pub fn prepare(&mut self, alloc: Global, moment: u32, command: &Command) -> Verdict<Prepared>
        requires later { present self.old.office ≤ moment }
        requires in_range { moment < end_of self.old.office.origin }
        requires readable { moment ≤ MAX_MINUTE }
        requires revisions { HasRevisions command.now }
        ensures office { self.new.office ≡ self.old.office }
        ensures verdict { IsVerdict self.old.office
            (record { moment = moment; command = command.now }) result self.new.pending }
        ensures sums { CountTheSame self.old.sums self.new.sums }
        ensures know { AllKnow self.old.lines self.new.lines }
    {
        let (verdict, pending) = judge_and_make_room(
            alloc,
            &mut self.records,
            &mut self.derived,
            &mut self.lines,
            moment,
            command,
        );
        self.pending = pending;
        verdict
    }

    /// Adds the entry for which room was made, with no memory. It can't be refused. Of an alert
    /// that is watched before and after, the line forgets only minutes near slices that the entry
    /// touches.
    pub fn commit(&mut self, value: Prepared) -> Outcome
        requires { (e : Entry) × IsPending self.old e × (value ≡ record_of e) }
        ensures office { (e : Entry) → IsPending self.old e
            → self.new.office ≡ with_entry self.old.office e }
        ensures pending { self.new.pending ≡ None }
        ensures outcome { (e : Entry) → IsPending self.old e
            → result ≡ outcome_of self.old.office e.moment e.command }
        ensures forgets { (e : Entry) → IsPending self.old e
            → ForgetsOnlyNear self.old.office e self.old.lines self.new.lines }
    {
        let Some(Pending { moment, work, plan }) = self.pending.take() else {
            unreachable!()
        };
        self.records.push(value.bytes());
        apply(&mut self.derived, &mut self.lines, moment, work, plan)
    }

    /// Judges a command by the record of its entry, and adds the entry where it is accepted: what
    /// `prepare` and `commit` come to, with no record made anew. Nothing is pending then.
    pub fn take_in(
        &mut self,
        alloc: Global,
        moment: u32,
        command: &Command,
        piece: &[u8],
    ) -> Verdict<()>
        requires later { present self.old.office ≤ moment }
        requires in_range { moment < end_of self.old.office.origin }
        requires piece { IsRecord piece.now
            (record { moment = moment; command = command.now }) }
        ensures added { IsAdded self.old.office
            (record { moment = moment; command = command.now }) result self.new.office }
        ensures pending { self.new.pending ≡ None }
    {
        forget_pending(&mut self.pending);
        judge_and_add(
            alloc,
            &mut self.records,
            &mut self.derived,
            &mut self.lines,
            moment,
            command,
            piece,
        )
    }

    /// Answers a query at a moment. The history, what is pending and the sums stay, and no line
    /// forgets a minute. The minutes of a timeline that is given are known then.
    pub fn answer(&mut self, alloc: Global, moment: u32, query: &Query) -> Outcome
        requires later { present self.old.office ≤ moment }
        requires in_range { moment < end_of self.old.office.origin }
        ensures office { self.new.office ≡ self.old.office }
        ensures pending { self.new.pending ≡ self.old.pending }
        ensures sums { self.new.sums ≡ self.old.sums }
        ensures know { AllKnow self.old.lines self.new.lines }
        ensures answer { Answers self.old.office moment query.now result ⊎ (result ≡ NoMemory) }
        ensures learnt { KnowsAnswered (catalog_in self.old.office.history) self.new.lines query.now
            result }
    {
        answer(
            alloc,
            &self.derived,
            &mut self.lines,
            &self.records,
            moment,
            query,
        )
    }

    /// The state of a binding at a minute; none exactly where there is no such binding. The
    /// history, what is pending and the sums stay, and no line forgets a minute.
    ///
    /// # Errors
    ///
    /// None: what is kept needs no memory for it.
    pub fn state_of(
        &mut self,
        alloc: Global,
        slo: Label,
        objective: u32,
        policy: Label,
        at: u32,
    ) -> Result<Option<State>, AllocError>
        requires begun { self.old.office.origin ≤ at }
        requires in_range { at < end_of self.old.office.origin }
        ensures office { self.new.office ≡ self.old.office }
        ensures pending { self.new.pending ≡ self.old.pending }
        ensures sums { self.new.sums ≡ self.old.sums }
        ensures know { AllKnow self.old.lines self.new.lines }
        ensures state { IfOk result (λ state. state
            ≡ binding_state self.old.office
            (record { slo = slo; objective = objective; policy = policy }) at) }
    {
        Ok(state_of(&self.derived, &mut self.lines, slo, objective, policy, at))
    }

    /// The sums that are kept of the objective of this number of an SLO, from 0: none exactly where
    /// there is no such SLO or number. They are of the objective's method, and each slice has the
    /// counts of its minutes over the whole history. Takes no memory.
    pub fn sums_of(&self, slo: Label, objective: u32) -> Option<&WindowSums>
        ensures sums { IfSome result (λ sums. LendsSums self.now
            (measure_at_def (catalog_in self.now.office.history) slo objective) sums.now) }
        ensures none { result ≡ None
            → measure_at_def (catalog_in self.now.office.history) slo objective ≡ None }
    {
        match measure_at(&self.derived.catalog, slo, objective) {
            Some(measure) => Some(objective_sums(&self.derived, &measure)),
            None => None,
        }
    }

    /// The line that is kept for a binding: none exactly where there is no such binding. It is of
    /// the policy's rule and the objective's target, begins at the origin, and agrees with the
    /// sums of its objective. Takes no memory.
    pub fn line_of(&self, slo: Label, objective: u32, policy: Label) -> Option<&AlertLine>
        ensures line { IfSome result (λ line. LendsLine self.now
            (watched_def (catalog_in self.now.office.history)
            (record { slo = slo; objective = objective; policy = policy })) line.now) }
        ensures none { result ≡ None → watched_def (catalog_in self.now.office.history)
            (record { slo = slo; objective = objective; policy = policy }) ≡ None }
    {
        let binding = Binding {
            slo,
            objective,
            policy,
        };
        let watch = watched(&self.derived.catalog, &binding)?;
        Some(self.lines.line_of(&self.derived, &watch))
    }
}

/// What becomes of a command, and the entry for which room was made.
fn judge_and_make_room(
    alloc: Global,
    records: &mut EntryRecords,
    derived: &mut Derived,
    lines: &mut KeptLines,
    moment: u32,
    command: &Command,
) -> (Verdict<Prepared>, Option<Pending>)
    requires kept { (spare : ℕ) × (places : ℕ) × (pending : Option Pending)
        × MachineIsKept derived.old lines.old records.old.history spare places pending }
    requires later { present (office_of derived.old records.old.history) ≤ moment }
    requires in_range { moment < end_of derived.old.origin }
    requires readable { moment ≤ MAX_MINUTE }
    requires revisions { HasRevisions command.now }
    ensures kept { MachineIsKept derived.new lines.new records.new.history records.new.spare
        records.new.places result.1 }
    ensures office { office_of derived.new records.new.history
        ≡ office_of derived.old records.old.history }
    ensures verdict { IsVerdict (office_of derived.old records.old.history)
        (record { moment = moment; command = command.now }) result.0 (pending_of result.1) }
    ensures sums { CountTheSame (sums_seen derived.old.catalog derived.old.sums)
        (sums_seen derived.new.catalog derived.new.sums) }
    ensures know { AllKnow lines.old.kept lines.new.kept }
{
    notice_changes::laws::an_accepted_tick_tells_few();
    match judge(alloc, derived, lines, moment, command) {
        Verdict::Same(outcome) => (Verdict::Same(outcome), None),
        Verdict::Refused(refusal) => (Verdict::Refused(refusal), None),
        Verdict::NoMemory => (Verdict::NoMemory, None),
        Verdict::Ready(work) => {
            match make_ready(alloc, records, derived, lines, moment, command, &work) {
                Ok((bytes, plan)) => (
                    Verdict::Ready(Prepared { bytes }),
                    Some(Pending { moment, work, plan }),
                ),
                Err(_) => (Verdict::NoMemory, None),
            }
        }
    }
}

/// Makes room for an entry, and gives its record and what it makes of the lines.
fn make_ready(
    alloc: Global,
    records: &mut EntryRecords,
    derived: &mut Derived,
    lines: &mut KeptLines,
    moment: u32,
    command: &Command,
    work: &Work,
) -> Result<(Vec<u8>, Option<LinesPlan>), AllocError>
    requires command { command_of work.now ≡ command.now }
    requires few { TellsFew work.now }
    requires sound { IsSound derived.old }
    requires range { IsEntryInRange (record { moment = moment; command = command.now }) }
    requires lines { HasLines derived.old lines.old.kept }
    ensures stays { Stays derived.old derived.new }
    ensures records { records.new.history ≡ records.old.history }
    ensures room { OnOk result (HasRoom derived.new work.now) }
    ensures bytes { IfOk result (λ made. made.0.items ≡ record_of (entry_of moment work.now)) }
    ensures fits { OnOk result (FitsRecord (entry_of moment work.now)) }
    ensures spare { IfOk result (λ made. length made.0.items ≤ records.new.spare) }
    ensures places { OnOk result (1 ≤ records.new.places) }
    ensures plan { IfOk result (λ made. HasLinesPlan derived.old lines.new work.now made.1) }
    ensures lines { lines.new.kept ≡ lines.old.kept }
{
    let bytes = write_command(alloc, moment, command)?.into_vec();
    let plan = make_room_for(alloc, records, derived, lines, bytes.len(), work)?;
    Ok((bytes, plan))
}

/// Makes room for an entry whose record has so many bytes, and gives what it makes of the lines.
fn make_room_for(
    alloc: Global,
    records: &mut EntryRecords,
    derived: &mut Derived,
    lines: &mut KeptLines,
    bytes: usize,
    work: &Work,
) -> Result<Option<LinesPlan>, AllocError>
    requires few { TellsFew work.now }
    requires sound { IsSound derived.old }
    requires lines { HasLines derived.old lines.old.kept }
    ensures stays { Stays derived.old derived.new }
    ensures records { records.new.history ≡ records.old.history }
    ensures room { OnOk result (HasRoom derived.new work.now) }
    ensures spare { OnOk result (bytes ≤ records.new.spare) }
    ensures places { OnOk result (1 ≤ records.new.places) }
    ensures plan { IfOk result (λ plan. HasLinesPlan derived.old lines.new work.now plan) }
    ensures lines { lines.new.kept ≡ lines.old.kept }
{
    let plan = plan_of(alloc, derived, lines, work)?;
    make_room(alloc, derived, work)?;
    records.reserve(bytes)?;
    Ok(plan)
}

/// No entry is pending any more.
fn forget_pending(pending: &mut Option<Pending>)
    ensures { pending.new ≡ None }
{
    if pending.is_some() {
        *pending = None;
    }
}

/// What becomes of a command, whose entry is added by its record where it is accepted.
fn judge_and_add(
    alloc: Global,
    records: &mut EntryRecords,
    derived: &mut Derived,
    lines: &mut KeptLines,
    moment: u32,
    command: &Command,
    piece: &[u8],
) -> Verdict<()>
    requires kept { (spare : ℕ) × (places : ℕ)
        × MachineIsKept derived.old lines.old records.old.history spare places None }
    requires later { present (office_of derived.old records.old.history) ≤ moment }
    requires in_range { moment < end_of derived.old.origin }
    requires piece { IsRecord piece.now (record { moment = moment; command = command.now }) }
    ensures kept { MachineIsKept derived.new lines.new records.new.history records.new.spare
        records.new.places None }
    ensures added { IsAdded (office_of derived.old records.old.history)
        (record { moment = moment; command = command.now }) result
        (office_of derived.new records.new.history) }
{
    notice_changes::laws::an_accepted_tick_tells_few();
    match judge(alloc, derived, lines, moment, command) {
        Verdict::Same(outcome) => Verdict::Same(outcome),
        Verdict::Refused(refusal) => Verdict::Refused(refusal),
        Verdict::NoMemory => Verdict::NoMemory,
        Verdict::Ready(work) => {
            match make_room_for(alloc, records, derived, lines, piece.len(), &work) {
                Ok(plan) => {
                    records.push(piece);
                    let outcome = apply(derived, lines, moment, work, plan);
                    drop(outcome);
                    Verdict::Ready(())
                }
                Err(_) => Verdict::NoMemory,
            }
        }
    }
}
