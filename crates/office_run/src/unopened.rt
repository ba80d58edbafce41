//! A journal that couldn't be opened: how it ends the commands that open one.
ghost use Rattle.std.specs.Prelude.{◌≡◌, IfOk, string_bytes};
ghost use Rattle.office_keep.specs.declared.KeepFault.TheVariants.{Damaged};
ghost use Rattle.office_run.specs.Runs.{EndsSaying};
ghost use Rattle.office_run.specs.Unopened.{SettledUnopened, already_there_line};
ghost use Rattle.office_run.specs.Unopened.{damaged_line as damaged_line_def};

use crate::ending::{BAD_FILE, DISK_FAULT, NO_MEMORY};
use crate::faults_sink::{tell_as, tell_status};
use office_keep::KeepFault;
use office_outside::Sink;
use std::alloc::{AllocError, Global};

/// The line for a file that is damaged at a place.
fn damaged_line(alloc: Global, at: u64) -> Result<String, AllocError>
    ensures { IfOk result (λ line. string_bytes line ≡ damaged_line_def at) }
{
    format!(in alloc; "slo_office: file damaged at {at}\n")
}

/// The status of a file that is damaged at a place, whose line the faults sink is told.
fn settle_damaged<E: Sink>(alloc: Global, at: u64, faults: &mut E) -> u8
    ensures { SettledUnopened (Damaged at) result (E.held faults.old) (E.held faults.new)
        (E.faults faults.old) (E.faults faults.new) }
{
    match damaged_line(alloc, at) {
        Ok(line) => tell_as(faults, line.as_str(), BAD_FILE),
        Err(_) => tell_status(faults, NO_MEMORY),
    }
}

/// The status of a file in which a journal stands already, whose line the faults sink is told.
pub fn settle_already_there<E: Sink>(faults: &mut E) -> u8
    ensures { EndsSaying BAD_FILE already_there_line result (E.held faults.old)
        (E.held faults.new) (E.faults faults.old) (E.faults faults.new) }
{
    tell_as(faults, "slo_office: file already there\n", BAD_FILE)
}

/// The status of a journal that wasn't made or opened, whose line the faults sink is told.
pub fn settle_unopened<E: Sink>(alloc: Global, why: KeepFault, faults: &mut E) -> u8
    ensures { SettledUnopened why result (E.held faults.old) (E.held faults.new)
        (E.faults faults.old) (E.faults faults.new) }
{
    match why {
        KeepFault::AlreadyThere => settle_already_there(faults),
        KeepFault::NotAJournal => tell_as(faults, "slo_office: file not a journal\n", BAD_FILE),
        KeepFault::Damaged { at } => settle_damaged(alloc, at, faults),
        KeepFault::DiskFault => tell_status(faults, DISK_FAULT),
        KeepFault::NoMemory => tell_status(faults, NO_MEMORY),
    }
}
