//! The limit of days.
ghost use Rattle.std.specs.Prelude.{◌≡◌, nat_lt, IfOk};
ghost use Rattle.slo_limits.specs.declared.TheConstants.{MAX_DAYS};
ghost use Rattle.office_history.specs.Batches.{objective_days};
ghost use Rattle.office_derived.specs.Derived.{IsSound};

use objective_days::passes_days_limit;
use office_derived::Derived;
use slo_catalog::Catalog;
use std::alloc::{AllocError, Global};

/// Whether there would be more pairs of an objective and a day with a row of its indicator than the
/// office keeps, were this the catalog.
pub(crate) fn passes_days(
    alloc: Global,
    derived: &Derived,
    catalog: &Catalog,
) -> Result<bool, AllocError>
    requires { IsSound derived.now }
    ensures { IfOk result
        (λ passes. passes ≡ nat_lt MAX_DAYS (objective_days catalog.now derived.now.book.rows)) }
{
    derived.book.rows_are_current();
    passes_days_limit(alloc, catalog, &derived.book, &[])
}
