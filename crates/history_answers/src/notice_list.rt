//! The notices that wait.
ghost use Rattle.std.specs.Prelude.{IfOk};
ghost use Rattle.record_form.specs.declared.Query.TheVariants as queries;
ghost use Rattle.office_history.specs.History.{Office};
ghost use Rattle.office_history.specs.Answers.{Answers};
ghost use Rattle.office_derived.specs.Derived.{Reflects};

use office_derived::Derived;
use record_form::{Listed, Outcome};
use slo_limits::MAX_NOTICES_IN_ANSWER;
use std::alloc::{AllocError, Global};

/// The first of the notices that wait.
pub(crate) fn notice_list(alloc: Global, derived: &Derived) -> Result<Outcome, AllocError>
    ensures { (o : Office) → Reflects derived.now o → IfOk result (Answers o 0 queries.Notices) }
{
    let notices = derived.notices.first_waiting(alloc, MAX_NOTICES_IN_ANSWER)?;
    Ok(Outcome::Notices {
        entries: derived.entries,
        notices: Listed::from_vec(notices),
    })
}
