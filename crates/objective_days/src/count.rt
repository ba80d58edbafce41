//! How many pairs of an objective and a day there are.
ghost use Rattle.std.specs.Prelude.{◌≡◌, ◌^◌, ◌<◌, ◌≤◌, length};
ghost use Rattle.slo_limits.specs.declared.TheConstants.{MAX_OBJECTS};
ghost use Rattle.object_terms.specs.Slo.{slo_in as slo_in_def};
ghost use Rattle.office_history.specs.Batches.{days_of_slo, objective_days};

use object_terms::Object;
use sample_book::SampleBook;
use slo_catalog::{Catalog, Member, slo_in};

/// How many pairs there are of an objective of the object and a day of its rows.
fn days_of_object(book: &SampleBook, object: &Object) -> u64
    ensures exact { result ≡ days_of_slo book.now.rows (slo_in_def object.now.body) }
    ensures few { result < 2 ^ 35 }
{
    match slo_in(&object.body) {
        Some(slo) => {
            let days = book.days_of(slo.indicator);
            slo.objectives.count() as u64 * u64::from(days)
        }
        None => 0,
    }
}

/// How many pairs there are of an objective of the members and a day of its rows.
fn days_of_members(book: &SampleBook, members: &[Member]) -> u64
    requires few { length members.now ≤ MAX_OBJECTS }
    ensures { result ≡ objective_days members.now book.now.rows }
{
    let mut total = 0;
    for member in members {
        total += days_of_object(book, member.object());
    }
    total
}

/// How many pairs there are of an objective and a day that has a current row of its indicator. The
/// book counts the days of an indicator: each object is looked at once, and no row.
pub fn count_days(catalog: &Catalog, book: &SampleBook) -> u64
    ensures { result ≡ objective_days catalog.now book.now.rows }
{
    catalog.is_whole();
    days_of_members(book, catalog.members())
}
