//! The exclusions that were made.
ghost use Rattle.std.specs.Prelude.{◌≡◌, IfOk};
ghost use Rattle.record_form.specs.declared.Query.TheVariants as queries;
ghost use Rattle.office_history.specs.History.{Office};
ghost use Rattle.office_history.specs.Answers.{Answers};
ghost use Rattle.office_derived.specs.Derived.{Reflects};

use office_derived::Derived;
use record_form::{ExclusionRows, Listed, Outcome};
use sample_book::SampleBook;
use std::alloc::{AllocError, Global};

/// The exclusions of a book, each with whether it is live.
fn exclusions_of(alloc: Global, book: &SampleBook) -> Result<ExclusionRows, AllocError>
    ensures { IfOk result (λ listed. listed ≡ book.now.exclusions) }
{
    let mut listed = Listed::new(alloc);
    for place in 0..book.exclusions() {
        match book.exclusion_at(place) {
            Some(kept) => listed.push(kept)?,
            None => return Ok(listed),
        }
    }
    Ok(listed)
}

/// All exclusions, in the order in which they were made.
pub(crate) fn exclusion_list(alloc: Global, derived: &Derived) -> Result<Outcome, AllocError>
    ensures { (o : Office) → Reflects derived.now o → IfOk result (Answers o 0 queries.Exclusions) }
{
    Ok(Outcome::Exclusions {
        entries: derived.entries,
        exclusions: exclusions_of(alloc, &derived.book)?,
    })
}
