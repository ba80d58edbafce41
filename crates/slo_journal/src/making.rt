//! The making of a journal.
ghost use Rattle.std.specs.Prelude.{◌≡◌, ◌⊎◌, ◌≤◌, [], List, ℕ, Some, take, OnOk, IfOk, IfErr};
ghost use Rattle.office_outside.specs.Disk.{All, Always, IsQuiet};
ghost use Rattle.office_outside.specs.Faults.{HasCauseBy, RoseBy};
ghost use Rattle.slo_journal.specs.File.{Closed, Stands};
ghost use Rattle.slo_journal.specs.Front.{IsHeader, HasNoHeader, IsFree, Laid, AnyGate, Raised};
ghost use Rattle.slo_journal.specs.Front.{header_of, NoneOrWhole, IsMaking};
ghost use Rattle.slo_journal.specs.Keeping.{Keeps};
ghost use Rattle.slo_journal.specs.declared.fault.CreateFault.TheVariants.{DiskFault, AlreadyThere};

use crate::header::{Front, header_of, look_at_front};
use crate::{CreateFault, Journal};
use office_outside::{Disk, Failed};
use slo_limits::MAX_MINUTE;

/// Why no journal was made. The disk is handed back.
#[derive(Drop)]
pub struct CreateFailed<D: Disk + Drop> {
    pub fault: CreateFault,
    pub disk: D,
}

/// Makes a journal without records, whose origin is at most the greatest minute of the clock. A
/// file without a header is overwritten at its first 14 bytes; a header is never touched. It takes
/// no memory.
pub fn create<D: Disk + Drop>(disk: D, origin: u32) -> Result<Journal<D>, CreateFailed<D>>
    requires origin { origin ≤ MAX_MINUTE }
    ensures made { IfOk result (λ journal. Keeps D.senses origin [] journal) }
    ensures none_before { IfOk result (λ _. (file : List ℕ) → D.senses.content disk ≡ Some file
        → HasNoHeader file) }
    ensures moments { IfOk result (λ journal. IsMaking D.senses origin disk journal.disk) }
    ensures already_there { IfErr result (λ e. e.fault ≡ AlreadyThere → (file : List ℕ)
        → D.senses.content disk ≡ Some file → (o : ℕ) × IsHeader o (take 13 file)) }
    ensures untouched { IfErr result (λ e. e.fault ≡ AlreadyThere → IsQuiet D.senses disk e.disk) }
    ensures fault { IfErr result (λ e. e.fault ≡ DiskFault → IsQuiet D.senses disk e.disk
        ⊎ IsMaking D.senses origin disk e.disk) }
    ensures cause { IfErr result (λ e. e.fault ≡ DiskFault → RoseBy D.senses.faults disk e.disk) }
    ensures later { IfOk result (λ journal. D.senses.faults disk ≤ D.senses.faults journal.disk) }
    ensures later_err { IfErr result (λ e. D.senses.faults disk ≤ D.senses.faults e.disk) }
{
    let mut disk = disk;
    let Ok(front) = look_at_front(&mut disk) else {
        return Err(CreateFailed {
            fault: CreateFault::DiskFault,
            disk,
        });
    };
    if let Front::Header(_) = front {
        return Err(CreateFailed {
            fault: CreateFault::AlreadyThere,
            disk,
        });
    }
    let Ok(()) = make(&mut disk, &front, origin) else {
        return Err(CreateFailed {
            fault: CreateFault::DiskFault,
            disk,
        });
    };
    Ok(Journal::new(disk))
}

/// Makes a journal without records of a file that has no header.
fn make<D: Disk>(disk: &mut D, front: &Front, origin: u32) -> Result<(), Failed>
    requires origin { origin ≤ MAX_MINUTE }
    ensures any_moment { All (IsFree front.now) (D.senses.images disk.old)
        → Always D.senses disk.old disk.new (NoneOrWhole origin) }
    ensures stands { OnOk result (All (IsFree front.now) (D.senses.images disk.old)
        → All (Stands origin []) (D.senses.images disk.new)) }
    ensures cause { HasCauseBy D.senses.faults disk.old disk.new result }
{
    let Ok(()) = close_gate(disk, front) else {
        return Err(Failed);
    };
    let Ok(()) = found(disk, origin, &header_of(origin)) else {
        return Err(Failed);
    };
    Ok(())
}

/// Closes the header's gate and syncs, where it isn't closed. Where it is, an old header may stand
/// behind it, which a write cut short could open.
fn close_gate<D: Disk>(disk: &mut D, front: &Front) -> Result<(), Failed>
    ensures none { All (IsFree front.now) (D.senses.images disk.old)
        → Always D.senses disk.old disk.new HasNoHeader }
    ensures closed { OnOk result (All (IsFree front.now) (D.senses.images disk.old)
        → All Closed (D.senses.images disk.new)) }
    ensures cause { HasCauseBy D.senses.faults disk.old disk.new result }
{
    if *front == Front::Shut {
        return Ok(());
    }
    disk.write_at(0, &[0])?;
    disk.sync()
}

/// Makes a journal without records of a file whose first byte is a closed gate.
fn found<D: Disk>(disk: &mut D, origin: u32, header: &[u8]) -> Result<(), Failed>
    requires origin { origin ≤ MAX_MINUTE }
    requires header { header.now ≡ header_of origin }
    ensures any_moment { All Closed (D.senses.images disk.old)
        → Always D.senses disk.old disk.new (NoneOrWhole origin) }
    ensures stands { OnOk result (All Closed (D.senses.images disk.old)
        → All (Stands origin []) (D.senses.images disk.new)) }
    ensures cause { HasCauseBy D.senses.faults disk.old disk.new result }
{
    let Ok(()) = lay(disk, header) else {
        return Err(Failed);
    };
    let Ok(()) = raise(disk) else {
        return Err(Failed);
    };
    Ok(())
}

/// Writes the header behind its closed gate, and syncs.
fn lay<D: Disk>(disk: &mut D, header: &[u8]) -> Result<(), Failed>
    ensures closed { All Closed (D.senses.images disk.old)
        → Always D.senses disk.old disk.new Closed }
    ensures laid { OnOk result (All Closed (D.senses.images disk.old)
        → All (Laid header.now) (D.senses.images disk.new)) }
    ensures cause { HasCauseBy D.senses.faults disk.old disk.new result }
{
    disk.write_at(1, header)?;
    disk.sync()
}

/// Opens the header's gate, and syncs.
fn raise<D: Disk>(disk: &mut D) -> Result<(), Failed>
    ensures either { (h : List ℕ) → All (AnyGate h) (D.senses.images disk.old)
        → Always D.senses disk.old disk.new (AnyGate h) }
    ensures raised { OnOk result ((h : List ℕ) → All (AnyGate h) (D.senses.images disk.old)
        → All (Raised h) (D.senses.images disk.new)) }
    ensures cause { HasCauseBy D.senses.faults disk.old disk.new result }
{
    disk.write_at(0, &[1])?;
    disk.sync()
}
