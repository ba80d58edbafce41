//! The export of a part of an office over a journal's file.
ghost use Rattle.std.specs.Prelude.{◌≡◌, ◌≤◌, Err};
ghost use Rattle.office_outside.specs.Faults.{RoseBy};
ghost use Rattle.office_export.specs.Export.{Exports};
ghost use Rattle.journal_commands.specs.Exporting.{ExportsFrom};

use office_core::Core;
use office_export::{ExportFault, export};
use office_keep::{KeepFault, Office, let_go};
use office_outside::{Disk, Sink};
use std::alloc::Global;

/// How the export of a part over a journal ends.
#[derive(Drop)]
pub enum ExportEnd {
    /// The journal was opened, and the export over it ended so.
    Opened(Result<(), ExportFault>),
    /// The journal wasn't opened.
    Unopened(KeepFault),
}

/// Exports a part of a machine's office.
fn export_core<K: Sink>(
    alloc: Global,
    core: &Core,
    part: u32,
    output: &mut K,
) -> Result<(), ExportFault>
    requires { 1 ≤ part }
    ensures exports { Exports core.now.office part result (K.held output.old)
        (K.held output.new) }
    ensures write { result ≡ Err ExportFault.WriteFault → RoseBy K.faults output.old output.new }
    ensures later { K.faults output.old ≤ K.faults output.new }
{
    core.is_legal();
    let (zones, catalog, book) = (core.zones(), core.catalog(), core.book());
    export(
        alloc,
        core.is_upgraded(),
        zones,
        catalog,
        book,
        part,
        output,
    )
}

/// The same, and passes on what was written.
fn export_over<K: Sink>(
    alloc: Global,
    core: &Core,
    part: u32,
    output: &mut K,
) -> Result<(), ExportFault>
    requires { 1 ≤ part }
    ensures exports { Exports core.now.office part result (K.held output.old)
        (K.held output.new) }
    ensures write { result ≡ Err ExportFault.WriteFault → RoseBy K.faults output.old output.new }
    ensures later { K.faults output.old ≤ K.faults output.new }
{
    match export_core(alloc, core, part, output) {
        Ok(()) => match output.flush() {
            Ok(()) => Ok(()),
            Err(_) => Err(ExportFault::WriteFault),
        },
        Err(fault) => Err(fault),
    }
}

/// Opens the journal on a disk, exports a part of its office, and hands the disk back. Parts are
/// counted from 1.
pub fn export_journal<D: Disk + Drop, K: Sink>(
    alloc: Global,
    part: u32,
    disk: D,
    output: &mut K,
) -> (ExportEnd, D)
    requires { 1 ≤ part }
    ensures exports { ExportsFrom D.senses part result.0 (K.held output.old) (K.held output.new)
        disk result.1 }
    ensures disk { result.0 ≡ ExportEnd.Unopened KeepFault.DiskFault →
        RoseBy D.senses.faults disk result.1 }
    ensures write { result.0 ≡ ExportEnd.Opened (Err ExportFault.WriteFault) →
        RoseBy K.faults output.old output.new }
    ensures later { D.senses.faults disk ≤ D.senses.faults result.1 }
    ensures later_output { K.faults output.old ≤ K.faults output.new }
{
    match Office::open(alloc, disk) {
        Ok(office) => {
            office.disk_stands();
            let (core, disk) = office.give_back();
            let end = export_over(alloc, &core, part, output);
            let_go(core);
            (ExportEnd::Opened(end), disk)
        }
        Err(failed) => (ExportEnd::Unopened(failed.fault), failed.disk),
    }
}
