//! The making of a journal.
ghost use Rattle.std.specs.Prelude.{◌≡◌, ◌⊎◌, ◌≤◌, IfOk, IfErr, string_bytes};
ghost use Rattle.slo_limits.specs.declared.TheConstants.{MAX_MINUTE};
ghost use Rattle.office_outside.specs.Faults.{RoseBy};
ghost use Rattle.office_outside.specs.Told.{Gained, GainedPrefix};
ghost use Rattle.office_keep.specs.declared.KeepFault.TheVariants.{AlreadyThere};
ghost use Rattle.office_keep.specs.declared.KeepFault.TheVariants.{DiskFault};
ghost use Rattle.office_keep.specs.declared.KeepFault.TheVariants.{NoMemory};
ghost use Rattle.slo_journal.specs.Front.{IsMaking};
ghost use Rattle.journal_commands.specs.Making.{IsMade, IsThere, Makes, QuietOrMaking};
ghost use Rattle.journal_commands.specs.Making.{journal_world};
ghost use Rattle.journal_commands.specs.Making.{origin_line as origin_line_def};

use crate::writing::write_out;
use office_keep::{KeepFailed, KeepFault, Office};
use office_outside::{Clock, Disk, Failed, Sink};
use std::alloc::{AllocError, Global};

/// How the making of a journal ends.
#[derive(Clone, Copy, Debug, PartialEq, Eq)]
pub enum InitEnd {
    /// The journal was made, and its origin was told.
    Done,
    /// The origin that was asked for is above the clock's reading: the disk wasn't touched.
    OriginAboveClock,
    /// A journal's header stands in the file.
    AlreadyThere,
    /// The disk's count of faults rose.
    DiskFault,
    /// The journal was made; the output's count of faults rose while its origin was told.
    WriteFault,
    /// Memory was refused: the disk wasn't touched.
    NoMemory,
}

/// The line that tells an origin.
fn origin_line(alloc: Global, origin: u32) -> Result<String, AllocError>
    ensures { IfOk result (λ text. string_bytes text ≡ origin_line_def origin) }
{
    format!(in alloc; "origin {origin}\n")
}

/// How it ends where the office isn't made.
fn end_of_fault(fault: KeepFault) -> InitEnd
    requires { (fault ≡ DiskFault) ⊎ ((fault ≡ AlreadyThere) ⊎ (fault ≡ NoMemory)) }
    ensures disk { fault ≡ DiskFault → result ≡ InitEnd.DiskFault }
    ensures there { fault ≡ AlreadyThere → result ≡ InitEnd.AlreadyThere }
    ensures memory { fault ≡ NoMemory → result ≡ InitEnd.NoMemory }
{
    match fault {
        KeepFault::DiskFault => InitEnd::DiskFault,
        KeepFault::AlreadyThere => InitEnd::AlreadyThere,
        _ => InitEnd::NoMemory,
    }
}

/// Makes the journal, and hands the disk back.
fn make_on<D: Disk + Drop>(alloc: Global, disk: D, origin: u32) -> Result<D, KeepFailed<D>>
    requires origin { origin ≤ MAX_MINUTE }
    ensures made { IfOk result (λ new. IsMade D.senses origin disk new) }
    ensures moments { IfOk result (λ new. IsMaking D.senses origin disk new) }
    ensures there { IfErr result (λ e. e.fault ≡ AlreadyThere → IsThere D.senses disk e.disk) }
    ensures fault { IfErr result (λ e. e.fault ≡ DiskFault →
        QuietOrMaking D.senses origin disk e.disk) }
    ensures no_memory { IfErr result (λ e. e.fault ≡ NoMemory → e.disk ≡ disk) }
    ensures others { IfErr result (λ e. (e.fault ≡ DiskFault)
        ⊎ ((e.fault ≡ AlreadyThere) ⊎ (e.fault ≡ NoMemory))) }
    ensures cause { IfErr result (λ e. e.fault ≡ DiskFault → RoseBy D.senses.faults disk e.disk) }
    ensures later { IfOk result (λ new. D.senses.faults disk ≤ D.senses.faults new) }
    ensures later_err { IfErr result (λ e. D.senses.faults disk ≤ D.senses.faults e.disk) }
{
    match Office::create(alloc, disk, origin) {
        Ok(office) => {
            office.disk_stands();
            Ok(office.into_disk())
        }
        Err(failed) => Err(failed),
    }
}

/// Tells the origin of a journal that was made.
fn tell_origin<K: Sink>(output: &mut K, line: &str) -> InitEnd
    ensures done { result ≡ InitEnd.Done → Gained line.now (K.held output.old) (K.held output.new) }
    ensures part { result ≡ InitEnd.WriteFault →
        GainedPrefix line.now (K.held output.old) (K.held output.new) }
    ensures cause { result ≡ InitEnd.WriteFault → RoseBy K.faults output.old output.new }
    ensures other { (result ≡ InitEnd.Done) ⊎ (result ≡ InitEnd.WriteFault) }
    ensures later { K.faults output.old ≤ K.faults output.new }
{
    match write_out(output, line.as_bytes()) {
        Ok(()) => InitEnd::Done,
        Err(Failed) => InitEnd::WriteFault,
    }
}

/// Makes a journal without entries on a disk, and tells its origin on the output. The origin is the
/// minute that is asked for, since 1970-01-01T00:00Z, or the clock's reading. The clock is read
/// once, before the disk is touched, and an origin above its reading is refused.
pub fn make_journal<D: Disk + Drop, C: Clock, K: Sink>(
    alloc: Global,
    origin: Option<u32>,
    disk: D,
    clock: &mut C,
    output: &mut K,
) -> (InitEnd, D)
    ensures makes { Makes D.senses origin result.0
        (journal_world disk (C.to_come clock.old) (K.held output.old))
        (journal_world result.1 (C.to_come clock.new) (K.held output.new)) }
    ensures disk { result.0 ≡ InitEnd.DiskFault → RoseBy D.senses.faults disk result.1 }
    ensures write { result.0 ≡ InitEnd.WriteFault → RoseBy K.faults output.old output.new }
    ensures later { D.senses.faults disk ≤ D.senses.faults result.1 }
    ensures later_output { K.faults output.old ≤ K.faults output.new }
{
    let reading = clock.minute();
    let origin = origin.unwrap_or(reading);
    if reading < origin {
        return (InitEnd::OriginAboveClock, disk);
    }
    let Ok(line) = origin_line(alloc, origin) else {
        return (InitEnd::NoMemory, disk);
    };
    match make_on(alloc, disk, origin) {
        Ok(made) => (tell_origin(output, line.as_str()), made),
        Err(failed) => (end_of_fault(failed.fault), failed.disk),
    }
}
