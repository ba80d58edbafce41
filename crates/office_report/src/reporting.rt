//! The report at a minute.
ghost use Rattle.std.specs.Prelude.{◌≡◌, ◌≤◌, ◌<◌, IfOk};
ghost use Rattle.office_history.specs.History.{end_of};
ghost use Rattle.office_report.specs.Report.{IsReport};

use crate::budgets::{lines_of, slo_names};
use crate::lines::report_text;
use crate::states::states_at;
use exact_fraction::Bytes;
use office_core::Core;
use std::alloc::{AllocError, Global};

/// The report of an office at a minute of its range, in minutes since 1970-01-01T00:00Z. The
/// history and what is pending stay.
///
/// # Errors
///
/// Memory ran out.
pub fn report(alloc: Global, core: &mut Core, at: u32) -> Result<Bytes, AllocError>
    requires begun { core.old.office.origin ≤ at }
    requires in_range { at < end_of core.old.office.origin }
    ensures office { core.new.office ≡ core.old.office }
    ensures pending { core.new.pending ≡ core.old.pending }
    ensures report { IfOk result (IsReport core.old.office at) }
{
    let names = slo_names(alloc, core.catalog())?;
    let states = states_at(alloc, core, at)?;
    let lines = lines_of(alloc, core, at, &states, &names)?;
    report_text(
        alloc,
        at,
        core.length(),
        &lines,
        names.len(),
        core.waiting(),
    )
}
