//! The opening of a journal's file.
ghost use Rattle.std.specs.Prelude.{◌≡◌, ◌≤◌, List, ℕ, Some, IfOk, IfErr};
ghost use Rattle.office_outside.specs.Disk.{IsQuiet};
ghost use Rattle.office_outside.specs.Faults.{RoseBy};
ghost use Rattle.slo_journal.specs.Front.{HasNoHeader};
ghost use Rattle.slo_journal.specs.Scanning.{HasBegun};
ghost use Rattle.slo_journal.specs.declared.fault.OpenFault.TheVariants.{DiskFault, NotAJournal};

use crate::header::{Front, look_at_front};
use crate::{OpenFault, Scan};
use office_outside::{Disk, Failed};
use std::alloc::Global;

/// Why a file wasn't opened. The disk is handed back.
#[derive(Drop)]
pub struct OpenFailed<D: Disk + Drop> {
    pub fault: OpenFault,
    pub disk: D,
}

/// Begins to read a journal's file, at its first record. It writes nothing and takes no memory.
pub fn open<D: Disk + Drop>(alloc: Global, disk: D) -> Result<Scan<D>, OpenFailed<D>>
    ensures begun { IfOk result (λ scan. HasBegun D.senses disk scan) }
    ensures quiet { IfOk result (λ scan. IsQuiet D.senses disk scan.disk) }
    ensures later { IfOk result (λ scan. D.senses.faults disk ≤ D.senses.faults scan.disk) }
    ensures not_a_journal { IfErr result (λ e. e.fault ≡ NotAJournal → (file : List ℕ)
        → D.senses.content disk ≡ Some file → HasNoHeader file) }
    ensures cause { IfErr result (λ e. e.fault ≡ DiskFault → RoseBy D.senses.faults disk e.disk) }
    ensures quiet_err { IfErr result (λ e. IsQuiet D.senses disk e.disk) }
    ensures later_err { IfErr result (λ e. D.senses.faults disk ≤ D.senses.faults e.disk) }
{
    let mut disk = disk;
    match look_at_front(&mut disk) {
        Err(Failed) => Err(OpenFailed {
            fault: OpenFault::DiskFault,
            disk,
        }),
        Ok(Front::Header(origin)) => Ok(Scan::at_first(alloc, disk, origin)),
        Ok(Front::Shut) => Err(OpenFailed {
            fault: OpenFault::NotAJournal,
            disk,
        }),
        Ok(Front::Bare) => Err(OpenFailed {
            fault: OpenFault::NotAJournal,
            disk,
        }),
    }
}
