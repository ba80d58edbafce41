//! The limit of the pairs of an objective and a day.
ghost use Rattle.std.specs.Prelude.{◌≡◌, ◌+◌, ◌*◌, ◌^◌, ◌<◌, ◌≤◌, ◌++◌, List, IfOk, nat_lt};
ghost use Rattle.sample_book.specs.Rows.{current_rows};
ghost use Rattle.sample_book.specs.declared.Row.{Row};
ghost use Rattle.slo_limits.specs.declared.TheConstants.{MAX_DAYS as most};
ghost use Rattle.object_terms.specs.Slo.{slo_in as slo_in_def};
ghost use Rattle.office_history.specs.Batches.{days_of as days_of_def, days_of_slo, objective_days};
ghost use Rattle.objective_days.specs.Days.{BringDays};

use crate::days::new_days;
use cell_index::CellIndex;
use exact_fraction::Label;
use object_terms::Object;
use sample_book::{Row, SampleBook};
use slo_catalog::{Catalog, Member, slo_in};
use slo_limits::MAX_DAYS;
use std::alloc::{AllocError, Global};

/// How many days have a row of the indicator, with those that more rows bring.
fn days_of(book: &SampleBook, new: &CellIndex, sli: Label) -> u64
    ensures exact { (more : List Row) → BringDays book.now.rows more new.now
        → result ≡ days_of_def (current_rows (book.now.rows ++ more)) sli }
    ensures few { result < 2 ^ 33 }
{
    book.rows_are_current();
    let there = book.days_of(sli);
    let brought = new.days_of(sli);
    u64::from(there) + u64::from(brought)
}

/// How many pairs there are of an objective of the object and a day of its rows.
fn days_of_object(book: &SampleBook, new: &CellIndex, object: &Object) -> u128
    ensures exact { (more : List Row) → BringDays book.now.rows more new.now
        → result ≡ days_of_slo (current_rows (book.now.rows ++ more))
        (slo_in_def object.now.body) }
    ensures few { result ≤ 2 ^ 97 }
{
    match slo_in(&object.body) {
        Some(slo) => {
            let days = days_of(book, new, slo.indicator);
            slo.objectives.as_slice().len() as u128 * u128::from(days)
        }
        None => 0,
    }
}

/// Whether the pairs of all members together are more than the limit.
fn days_pass(members: &[Member], book: &SampleBook, new: &CellIndex) -> bool
    ensures { (more : List Row) → BringDays book.now.rows more new.now → result ≡ nat_lt most
        (objective_days members.now (current_rows (book.now.rows ++ more))) }
{
    let mut total: u128 = 0;
    for member in members {
        total += days_of_object(book, new, member.object());
        if u128::from(MAX_DAYS) < total {
            return true;
        }
    }
    false
}

/// Whether there are more pairs of an objective and a day that has a current row of its indicator
/// than the limit allows, once these rows came too. The days that are there are counted by the
/// book: what is looked at are the rows that come, and each object once.
pub fn passes_days_limit(
    alloc: Global,
    catalog: &Catalog,
    book: &SampleBook,
    more: &[Row],
) -> Result<bool, AllocError>
    ensures { IfOk result (λ passes. passes ≡ nat_lt most (objective_days catalog.now (current_rows
        (book.now.rows ++ more.now)))) }
{
    let new = new_days(alloc, book, more)?;
    Ok(days_pass(catalog.members(), book, &new))
}
