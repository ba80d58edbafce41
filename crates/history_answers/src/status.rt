//! How full the office is.
ghost use Rattle.std.specs.Prelude.{◌≡◌};
ghost use Rattle.record_form.specs.declared.Query.TheVariants as queries;
ghost use Rattle.office_history.specs.History.{Office, tail_of as tail_of_def};
ghost use Rattle.office_history.specs.Answers.{Answers};
ghost use Rattle.office_history.specs.Legal.{IsLegal};
ghost use Rattle.office_history.specs.Status.{used_of};
ghost use Rattle.office_derived.specs.Derived.{Reflects};
ghost use Rattle.history_answers.specs.Fullness.{fullness, last_if};

use entry_records::EntryRecords;
use object_terms::Kind;
use objective_days::count_days;
use office_derived::{Derived, cell_limit, row_limit};
use record_form::{OfficeStatus, Outcome, Used, laws};
use slo_limits::{
    MAX_BINDINGS, MAX_DAYS, MAX_EXCLUSIONS, MAX_JOURNAL_BYTES, MAX_NOTICES, MAX_OBJECTS, MAX_SLIS,
    MAX_SLOS, MAX_ZONES,
};

/// So many of so many.
fn used(count: u64, limit: u64) -> Used
    ensures { result ≡ used_of count limit }
{
    Used { count, limit }
}

/// The moment of the last entry: the present, where there is an entry.
fn last_moment(entries: u32, present: u32) -> Option<u32>
    ensures { result ≡ last_if entries present }
{
    if entries == 0 { None } else { Some(present) }
}

/// How full the office is, by what is kept beside its history.
fn status_of(derived: &Derived, moment: u32, tail: u64) -> OfficeStatus
    ensures { result ≡ fullness derived.now moment tail }
{
    let catalog = &derived.catalog;
    OfficeStatus {
        accepted: used(
            u64::from(derived.accepted),
            u64::from(row_limit(derived.upgraded)),
        ),
        at: moment,
        bindings: used(catalog.count_of_bindings(), MAX_BINDINGS as u64),
        bytes: used(tail, MAX_JOURNAL_BYTES as u64),
        cells: used(
            u64::from(derived.book.cells()),
            u64::from(cell_limit(derived.upgraded)),
        ),
        days: used(count_days(catalog, &derived.book), u64::from(MAX_DAYS)),
        entries: derived.entries,
        exclusions: used(u64::from(derived.book.exclusions()), MAX_EXCLUSIONS as u64),
        last: last_moment(derived.entries, derived.present),
        notices: used(u64::from(derived.notices.waiting()), u64::from(MAX_NOTICES)),
        objects: used(catalog.members().len() as u64, MAX_OBJECTS as u64),
        origin: derived.origin,
        slis: used(catalog.count_of(Kind::Sli) as u64, MAX_SLIS as u64),
        slos: used(catalog.count_of(Kind::Slo) as u64, MAX_SLOS as u64),
        version: if derived.upgraded { 2 } else { 1 },
        zones: used(derived.zones.count(), MAX_ZONES as u64),
    }
}

/// Where the last gate of a journal of these entries stands: behind its header, and behind a gate,
/// a length and a record for each of them.
fn tail_of(records: &EntryRecords) -> u64
    ensures { result ≡ tail_of_def records.now.history }
{
    laws::records_add_up();
    13 + 5 * u64::from(records.len()) + records.size()
}

/// How full the office is at a moment. The records are those of its history. No row is looked at.
pub(crate) fn status(derived: &Derived, records: &EntryRecords, moment: u32) -> Outcome
    ensures { (o : Office) → Reflects derived.now o → records.now.history ≡ o.history
        → IsLegal o.origin o.history → Answers o moment queries.Status result }
{
    let tail = tail_of(records);
    let status = status_of(derived, moment, tail);
    Outcome::Status(status)
}
