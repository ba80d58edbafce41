//! Why no office was made or opened.
ghost use Rattle.std.specs.Prelude.{◌≡◌, ◌⊎◌};
ghost use Rattle.slo_journal.specs.declared.fault.CreateFault;
ghost use Rattle.slo_journal.specs.declared.fault.OpenFault;
ghost use Rattle.office_keep.specs.declared.fault.KeepFault.TheVariants.{AlreadyThere, DiskFault};
ghost use Rattle.office_keep.specs.declared.fault.KeepFault.TheVariants.{NoMemory, NotAJournal};

use office_outside::Disk;
use slo_journal::{CreateFault, OpenFault};

/// Why no office was made or opened.
#[derive(Clone, Copy, Debug, Drop, PartialEq, Eq)]
pub enum KeepFault {
    /// The disk failed: its count of faults rose in the call.
    DiskFault,
    /// A journal's header stands in the file that was to become one.
    AlreadyThere,
    /// No header stands in the file.
    NotAJournal,
    /// The record whose gate stands at this place isn't whole, is no entry's, or its entry can't
    /// follow those before it; or the file has no gate there.
    Damaged { at: u64 },
    /// Memory was refused.
    NoMemory,
}

/// Why no office was made or opened. The disk is handed back.
#[derive(Drop)]
pub struct KeepFailed<D: Disk + Drop> {
    pub fault: KeepFault,
    pub disk: D,
}

/// The fault of a journal that wasn't made.
pub(crate) fn fault_of_create(fault: CreateFault) -> KeepFault
    ensures disk { result ≡ DiskFault → fault ≡ CreateFault.DiskFault }
    ensures there { result ≡ AlreadyThere → fault ≡ CreateFault.AlreadyThere }
    ensures memory { result ≡ NoMemory → ⊥ }
    ensures other { (result ≡ DiskFault) ⊎ (result ≡ AlreadyThere) }
{
    match fault {
        CreateFault::DiskFault => KeepFault::DiskFault,
        CreateFault::AlreadyThere => KeepFault::AlreadyThere,
    }
}

/// The fault of a journal that wasn't opened.
pub(crate) fn fault_of_open(fault: OpenFault) -> KeepFault
    ensures disk { result ≡ DiskFault → fault ≡ OpenFault.DiskFault }
    ensures header { result ≡ NotAJournal → fault ≡ OpenFault.NotAJournal }
    ensures other { (result ≡ DiskFault) ⊎ (result ≡ NotAJournal) }
{
    match fault {
        OpenFault::DiskFault => KeepFault::DiskFault,
        OpenFault::NotAJournal => KeepFault::NotAJournal,
    }
}
