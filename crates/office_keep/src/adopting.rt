//! Entries of another office, adopted with their own moments.
ghost use Rattle.std.specs.Prelude.{◌≡◌, IfOk, IfSome, None, Ok};
ghost use Rattle.office_outside.specs.Disk.{LeavesOnly};
ghost use Rattle.record_form.specs.Ranges.{FitsRecord};
ghost use Rattle.office_history.specs.Legal.{MayFollow};
ghost use Rattle.office_keep.specs.Adopting.{Adopts, IsBlamedFor, IsPrepared, LeavesAdopting};
ghost use Rattle.office_keep.specs.Adopting.{adopted_by, adopted_without};
ghost use Rattle.office_keep.specs.Steps.{OfficeIsKept, entry_in, office_on};

use crate::laws;
use crate::steps::keep;
use office_core::{Core, Prepared};
use office_derived::Verdict;
use office_outside::Disk;
use record_form::{Entry, Outcome};
use slo_journal::Journal;
use std::alloc::{AllocError, Global};

/// What the adopting of an entry comes to.
#[derive(Clone, Copy, Debug, Drop, PartialEq, Eq)]
pub enum Adopted {
    /// The entry stands at this position of the history.
    Taken(u32),
    /// The entry may not follow the history.
    Illegal,
    /// The journal has no room for the entry.
    JournalFull,
    /// The disk failed: its count of faults rose in the call. The entry is left out, or in doubt.
    DiskFault,
    /// Memory was refused.
    NoMemory,
}

/// Judges an entry at its moment, and makes room for it where it may follow; none exactly where it
/// may not.
fn judge_entry(
    alloc: Global,
    core: &mut Core,
    entry: &Entry,
) -> Result<Option<Prepared>, AllocError>
    requires { FitsRecord entry.now }
    ensures office { core.new.office ≡ core.old.office }
    ensures prepared { IfOk result (λ judged. IfSome judged
        (IsPrepared core.old.office entry.now core.new.pending)) }
    ensures illegal { result ≡ Ok None → MayFollow core.old.office entry.now → ⊥ }
{
    laws::one_judgement();
    if core.moment(entry.moment) != entry.moment || !core.in_range(entry.moment) {
        return Ok(None);
    }
    match core.prepare(alloc, entry.moment, &entry.command) {
        Verdict::Ready(value) => Ok(Some(value)),
        Verdict::Same(outcome) => {
            drop(outcome);
            Ok(None)
        }
        Verdict::Refused(refusal) => {
            drop(refusal);
            Ok(None)
        }
        Verdict::NoMemory => Err(AllocError),
    }
}

/// What the writing of an entry comes to that added none.
fn adopted_without(outcome: &Outcome) -> Adopted
    ensures { result ≡ adopted_without outcome.now }
{
    match outcome {
        Outcome::JournalFull { .. } => Adopted::JournalFull,
        Outcome::NoMemory => Adopted::NoMemory,
        Outcome::Defined { .. }
        | Outcome::Sampled { .. }
        | Outcome::Changed { .. }
        | Outcome::Ticked { .. }
        | Outcome::ObjectList { .. }
        | Outcome::ObjectText(_)
        | Outcome::Budgets { .. }
        | Outcome::Burn { .. }
        | Outcome::Timeline { .. }
        | Outcome::Notices { .. }
        | Outcome::Feed(_)
        | Outcome::Row { .. }
        | Outcome::Exclusions { .. }
        | Outcome::Zones { .. }
        | Outcome::Status(_)
        | Outcome::Sums { .. }
        | Outcome::Windows { .. }
        | Outcome::Refused(_)
        | Outcome::ClockRange { .. }
        | Outcome::DiskFault => Adopted::DiskFault,
    }
}

/// What the writing of an entry comes to.
fn adopted_by(outcome: &Outcome, place: Option<u32>) -> Adopted
    ensures { result ≡ adopted_by outcome.now place }
{
    match place {
        Some(place) => Adopted::Taken(place),
        None => adopted_without(outcome),
    }
}

/// Adopts an entry where nothing is in doubt.
pub(crate) fn adopt<D: Disk + Drop>(
    alloc: Global,
    core: &mut Core,
    journal: &mut Journal<D>,
    doubt: &mut Option<Prepared>,
    entry: &Entry,
) -> Adopted
    requires kept { OfficeIsKept D.senses core.old doubt.old journal.old }
    requires none { entry_in doubt.old core.old.pending ≡ None }
    requires fits { FitsRecord entry.now }
    ensures kept { OfficeIsKept D.senses core.new doubt.new journal.new }
    ensures ended { Adopts (office_on core.old doubt.old journal.old) entry.now result
        (office_on core.new doubt.new journal.new) }
    ensures any_moment { LeavesOnly D.senses journal.old.disk journal.new.disk
        (LeavesAdopting core.old.office entry.now) }
    ensures cause { IsBlamedFor (D.senses.faults journal.old.disk)
        (D.senses.faults journal.new.disk) result }
{
    match judge_entry(alloc, core, entry) {
        Ok(Some(value)) => {
            let (outcome, place) = keep(alloc, core, journal, doubt, value);
            let adopted = adopted_by(&outcome, place);
            drop(outcome);
            adopted
        }
        Ok(None) => Adopted::Illegal,
        Err(AllocError) => Adopted::NoMemory,
    }
}
