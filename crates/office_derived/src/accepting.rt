//! What becomes of a command that breaks no rule of its own.
ghost use Rattle.std.specs.Prelude.{◌≡◌};
ghost use Rattle.office_history.specs.Verdicts.{accepted as accepted_def};

use office_history::Judgement;
use record_form::{LimitName, Refusal};
use slo_limits::MAX_ENTRIES;

/// Accepted, unless the history has so many entries that there is no room for one more.
pub fn accepted(entries: u32) -> Judgement
    ensures { result ≡ accepted_def entries }
{
    if entries < MAX_ENTRIES {
        Judgement::Accepted
    } else {
        Judgement::Refused(Refusal::Limit {
            which: LimitName::Entries,
        })
    }
}
