//! The entries from a position on, as a feed.
ghost use Rattle.std.specs.Prelude.{◌≡◌, IfOk};
ghost use Rattle.record_form.specs.declared.Query.TheVariants as queries;
ghost use Rattle.office_history.specs.History.{Office};
ghost use Rattle.office_history.specs.Answers.{Answers};
ghost use Rattle.office_derived.specs.Derived.{Reflects};

use entry_records::EntryRecords;
use office_derived::Derived;
use record_form::{Outcome, Refusal};
use std::alloc::{AllocError, Global};

/// The feed of the entries from a position on, which isn't behind the end of the history.
pub(crate) fn entries(
    alloc: Global,
    derived: &Derived,
    records: &EntryRecords,
    from: u32,
) -> Result<Outcome, AllocError>
    ensures { (o : Office) → Reflects derived.now o → records.now.history ≡ o.history
        → IfOk result (Answers o 0 (queries.Entries from)) }
{
    if records.len() < from {
        return Ok(Outcome::Refused(Refusal::Range));
    }
    match records.feed(alloc, derived.origin, from) {
        Ok(feed) => Ok(Outcome::Feed(feed)),
        Err(error) => Err(error),
    }
}
