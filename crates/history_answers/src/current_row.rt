//! The current row of a cell.
ghost use Rattle.record_form.specs.declared.Query.TheVariants as queries;
ghost use Rattle.office_history.specs.History.{Office};
ghost use Rattle.office_history.specs.Answers.{Answers};
ghost use Rattle.office_derived.specs.Derived.{Reflects};

use cell_index::Cell;
use exact_fraction::Label;
use object_terms::Kind;
use office_derived::Derived;
use record_form::{Outcome, Refusal};

/// The current row of an indicator of the catalog, a source and a minute. Takes no memory.
pub(crate) fn current_row(derived: &Derived, sli: Label, source: Label, minute: u32) -> Outcome
    ensures { (o : Office) → Reflects derived.now o
        → Answers o 0 (queries.Row sli source minute) result }
{
    match derived.catalog.find(Kind::Sli, sli) {
        Some(_) => {
            let cell = Cell {
                sli,
                source,
                minute,
            };
            Outcome::Row {
                entries: derived.entries,
                row: derived.book.row_of_cell(&cell),
            }
        }
        None => Outcome::Refused(Refusal::NotFound),
    }
}
