//! The export of a part.
ghost use Rattle.std.specs.Prelude.{◌≡◌, ◌≤◌, Bool, Err, OnErr, OnOk};
ghost use Rattle.std.specs.List.{flat_map};
ghost use Rattle.office_outside.specs.Faults.{RoseBy};
ghost use Rattle.office_outside.specs.Told.{Gained, GainedPrefix};
ghost use Rattle.office_history.specs.History.{Office};
ghost use Rattle.office_history.specs.Legal.{IsLegal};
ghost use Rattle.export_terms.specs.Parts.{part_of};
ghost use Rattle.office_export.specs.Export.{Exports};
ghost use Rattle.office_export.specs.Steps.{content, content_of, text_at};

use crate::listing::steps_of;
use crate::requests::make_request;
use crate::sizes::first_too_large;
use crate::step::Step;
use exact_fraction::Label;
use object_terms::Kind;
use office_derived::Zones;
use office_outside::Sink;
use request_texts::write_both;
use sample_book::SampleBook;
use slo_catalog::Catalog;
use std::alloc::Global;

/// So many requests are a part: a session answers as many.
const REQUESTS_OF_A_PART: usize = 1_000;

/// Why a part isn't written, or not all of it.
#[derive(Clone, Copy, Debug, PartialEq, Eq)]
pub enum ExportFault {
    /// The canonical writing of an object has more bytes than a request that defines it may have.
    ObjectTooLarge { kind: Kind, name: Label },
    /// The sink's count of faults rose.
    WriteFault,
    /// Memory was refused.
    NoMemory,
}

/// Why a request isn't written.
#[derive(Clone, Copy)]
enum StepError {
    Write,
    Memory,
}

/// The thousand of this number, counted from 1.
fn part_of(steps: &[Step], part: u32) -> &[Step]
    requires { 1 ≤ part }
    ensures { result.now ≡ part_of part steps.now }
{
    let first = REQUESTS_OF_A_PART * (part as usize - 1);
    let rest = &steps[first.min(steps.len())..];
    &rest[..rest.len().min(REQUESTS_OF_A_PART)]
}

/// Writes the request of a step.
fn write_step<K: Sink>(
    zones: &Zones,
    catalog: &Catalog,
    book: &SampleBook,
    step: Step,
    body: &mut Vec<u8>,
    output: &mut K,
) -> Result<(), StepError>
    ensures gained { (upgraded : Bool) → OnOk result (Gained (text_at (content upgraded
        zones.now.kept catalog.now book.now.rows book.now.exclusions) step)
        (K.held output.old) (K.held output.new)) }
    ensures part { (upgraded : Bool) → OnErr result (GainedPrefix (text_at (content upgraded
        zones.now.kept catalog.now book.now.rows book.now.exclusions) step)
        (K.held output.old) (K.held output.new)) }
    ensures write { result ≡ Err StepError.Write → RoseBy K.faults output.old output.new }
    ensures later { K.faults output.old ≤ K.faults output.new }
{
    match make_request(zones, catalog, book, step, body) {
        Ok(Some(head)) => match write_both(head.as_bytes(), body, output) {
            Ok(()) => Ok(()),
            Err(_) => Err(StepError::Write),
        },
        Ok(None) => Ok(()),
        Err(_) => Err(StepError::Memory),
    }
}

/// Writes the requests of steps, one behind another.
fn write_steps<K: Sink>(
    alloc: Global,
    zones: &Zones,
    catalog: &Catalog,
    book: &SampleBook,
    steps: &[Step],
    output: &mut K,
) -> Result<(), StepError>
    ensures gained { (upgraded : Bool) → OnOk result (Gained (flat_map (text_at (content upgraded
        zones.now.kept catalog.now book.now.rows book.now.exclusions)) steps.now)
        (K.held output.old) (K.held output.new)) }
    ensures part { (upgraded : Bool) → OnErr result (GainedPrefix (flat_map (text_at (content
        upgraded zones.now.kept catalog.now book.now.rows book.now.exclusions)) steps.now)
        (K.held output.old) (K.held output.new)) }
    ensures write { result ≡ Err StepError.Write → RoseBy K.faults output.old output.new }
    ensures later { K.faults output.old ≤ K.faults output.new }
{
    let mut body = Vec::new(alloc);
    for step in steps {
        match write_step(zones, catalog, book, *step, &mut body, output) {
            Ok(()) => {}
            Err(stop) => return Err(stop),
        }
    }
    Ok(())
}

/// Writes the requests that make an office anew, from number `1000 * (part - 1) + 1` to number
/// `1000 * part`, those that there are. The office is any with a legal history of which all this is
/// so: whether it is upgraded, its zones, its catalog, and its book.
///
/// # Errors
///
/// An object is too large, and nothing is written; or the sink failed or memory was refused, and a
/// prefix of the part is written.
pub fn export<K: Sink>(
    alloc: Global,
    upgraded: bool,
    zones: &Zones,
    catalog: &Catalog,
    book: &SampleBook,
    part: u32,
    output: &mut K,
) -> Result<(), ExportFault>
    requires { 1 ≤ part }
    ensures exports { (o : Office) → IsLegal o.origin o.history → content_of o ≡ content upgraded
        zones.now.kept catalog.now book.now.rows book.now.exclusions
        → Exports o part result (K.held output.old) (K.held output.new) }
    ensures write { result ≡ Err ExportFault.WriteFault → RoseBy K.faults output.old output.new }
    ensures later { K.faults output.old ≤ K.faults output.new }
{
    match first_too_large(alloc, catalog) {
        Ok(None) => {}
        Ok(Some((kind, name))) => return Err(ExportFault::ObjectTooLarge { kind, name }),
        Err(_) => return Err(ExportFault::NoMemory),
    }
    let Ok(steps) = steps_of(alloc, upgraded, zones, catalog, book) else {
        return Err(ExportFault::NoMemory);
    };
    match write_steps(alloc, zones, catalog, book, part_of(&steps, part), output) {
        Ok(()) => Ok(()),
        Err(StepError::Write) => Err(ExportFault::WriteFault),
        Err(StepError::Memory) => Err(ExportFault::NoMemory),
    }
}
