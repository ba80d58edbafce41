//! The zones that were put.
ghost use Rattle.std.specs.Prelude.{IfOk};
ghost use Rattle.record_form.specs.declared.Query.TheVariants as queries;
ghost use Rattle.office_history.specs.History.{Office};
ghost use Rattle.office_history.specs.Answers.{Answers};
ghost use Rattle.office_derived.specs.Derived.{Reflects};

use office_derived::{Derived, names_in_order};
use record_form::{Listed, Outcome};
use std::alloc::{AllocError, Global};

/// The names of the zones that were put, by their bytes.
pub(crate) fn zone_list(alloc: Global, derived: &Derived) -> Result<Outcome, AllocError>
    ensures { (o : Office) → Reflects derived.now o → IfOk result (Answers o 0 queries.Zones) }
{
    let names = names_in_order(alloc, &derived.zones)?;
    Ok(Outcome::Zones {
        entries: derived.entries,
        zones: Listed::from_vec(names),
    })
}
