//! Definitions.
ghost use Rattle.std.specs.Prelude.{◌≡◌, ◌<◌, ◌^◌, ℕ, Ok, Err, IfOk, List};
ghost use Rattle.std.specs.List.{All};
ghost use Rattle.object_terms.specs.declared.Object.{Object};
ghost use Rattle.object_terms.specs.Document.{IsOfDocument};
ghost use Rattle.catalog_terms.specs.Define.{is_unchanged};
ghost use Rattle.definition_verdict.specs.Made.{IsDefinition};
ghost use Rattle.office_history.specs.Definitions.{IsRefused, defined_over, known, within_limits};

use crate::catalog_refusal::catalog_refusal;
use crate::documents::{DocumentsError, TextError, documents_in, objects_in};
use crate::readings::first_read_anew;
use crate::starts::one_begins_too_often;
use crate::zones::first_unknown_zone;
use catalog_terms::DefineError;
use exact_fraction::ZoneName;
use object_terms::Objects;
use record_form::{LimitName, Refusal};
use sample_book::SampleBook;
use slo_catalog::{Catalog, Proposal, propose};
use std::alloc::Global;

/// What a text defines.
#[derive(Drop)]
pub struct Definition {
    /// The catalog with the text's objects.
    pub catalog: Catalog,
    /// The count of documents, one for each that has a node.
    pub documents: usize,
    /// The count of the text's objects, inline ones among them.
    pub objects: usize,
    /// Whether the catalog stays as it is.
    pub same: bool,
}

/// Why a text isn't defined.
#[derive(Drop)]
pub enum VerdictError {
    /// It is refused.
    Refused(Refusal),
    /// Memory ran out.
    NoMemory,
}

/// The members that are proposed, unless they pass a limit.
fn admitted(alloc: Global, proposal: Proposal, horizon: u32) -> Result<Catalog, VerdictError>
    requires { horizon < 2 ^ 27 }
    ensures ok { IfOk result (λ catalog. within_limits horizon proposal.0 ≡ Ok catalog) }
    ensures refused { (refusal : Refusal) → result ≡ Err (VerdictError.Refused refusal) →
        within_limits horizon proposal.0 ≡ Err refusal }
{
    let catalog = match proposal.admitted(alloc) {
        Ok(catalog) => catalog,
        Err(DefineError::Fault(fault)) => {
            return Err(VerdictError::Refused(catalog_refusal(fault)));
        }
        Err(DefineError::NoMemory) => return Err(VerdictError::NoMemory),
    };
    if one_begins_too_often(horizon, catalog.members()) {
        return Err(VerdictError::Refused(Refusal::Limit {
            which: LimitName::Starts,
        }));
    }
    Ok(catalog)
}

/// What objects of documents define, unless they are refused: the catalog with them, and whether it
/// stays as it is.
fn judge_objects(
    alloc: Global,
    catalog: &Catalog,
    zones: &[ZoneName],
    book: &SampleBook,
    horizon: u32,
    objects: Objects,
) -> Result<(Catalog, bool), VerdictError>
    requires horizon { horizon < 2 ^ 27 }
    requires documents { All IsOfDocument objects }
    ensures ok { IfOk result
        (λ made. defined_over (known catalog.now zones.now book.now.rows horizon) objects ≡ Ok
        made.0) }
    ensures same { IfOk result (λ made. made.1 ≡ is_unchanged catalog.now objects) }
    ensures refused { (refusal : Refusal) → result ≡ Err (VerdictError.Refused refusal) →
        defined_over (known catalog.now zones.now book.now.rows horizon) objects ≡ Err refusal }
{
    // The objects go into what is proposed: what else is asked of them is asked before, and counts
    // behind the faults of the catalog.
    let unknown = first_unknown_zone(zones, objects.as_slice());
    let read_anew = first_read_anew(catalog, book, objects.as_slice());
    let proposal = match propose(alloc, catalog, objects) {
        Ok(proposal) => proposal,
        Err(DefineError::Fault(fault)) => {
            return Err(VerdictError::Refused(catalog_refusal(fault)));
        }
        Err(DefineError::NoMemory) => return Err(VerdictError::NoMemory),
    };
    if let Some(name) = unknown {
        return Err(VerdictError::Refused(Refusal::UnknownZone { name }));
    }
    if let Some(row) = read_anew {
        return Err(VerdictError::Refused(Refusal::HasSamples {
            minute: row.minute,
            name: row.sli,
            source: row.source,
        }));
    }
    let same = proposal.leaves();
    match admitted(alloc, proposal, horizon) {
        Ok(after) => Ok((after, same)),
        Err(error) => Err(error),
    }
}

/// What a text defines in an office that keeps this catalog, these zones beside `UTC` and these
/// samples, and whose calendars begin at most `MAX_STARTS` times up to a horizon, a minute since
/// 1970-01-01T00:00Z.
///
/// # Errors
///
/// The first refusal, in this order: the text stands for no documents, a document for no objects;
/// an object has a built-in policy's name, stands twice with different content, refers to nothing,
/// or needs an operator; a zone isn't known; an SLI with samples would get another reading; a limit
/// of objects, bytes, SLIs, SLOs, bindings or starts is passed. Or memory ran out.
pub fn judge_definition(
    alloc: Global,
    catalog: &Catalog,
    zones: &[ZoneName],
    book: &SampleBook,
    horizon: u32,
    text: &[u8],
) -> Result<Definition, VerdictError>
    requires { horizon < 2 ^ 27 }
    ensures defined { IfOk result
        (λ made. IsDefinition (known catalog.now zones.now book.now.rows horizon) text.now made) }
    ensures refused { (refusal : Refusal) → result ≡ Err (VerdictError.Refused refusal) →
        IsRefused (known catalog.now zones.now book.now.rows horizon) text.now refusal }
{
    let nodes = match documents_in(alloc, text) {
        Ok(nodes) => nodes,
        Err(TextError::Fault { line, word }) => {
            return Err(VerdictError::Refused(Refusal::Yaml { line, which: word }));
        }
        Err(TextError::NoMemory) => return Err(VerdictError::NoMemory),
    };
    let objects = match objects_in(alloc, &nodes) {
        Ok(objects) => objects,
        Err(DocumentsError::Refused(refusal)) => return Err(VerdictError::Refused(refusal)),
        Err(DocumentsError::NoMemory) => return Err(VerdictError::NoMemory),
    };
    // The catalog has the objects: the nodes that they were read from are let go before.
    let documents = nodes.len();
    drop(nodes);
    let count = objects.as_slice().len();
    match judge_objects(alloc, catalog, zones, book, horizon, objects) {
        Ok((after, same)) => Ok(Definition {
            catalog: after,
            documents,
            objects: count,
            same,
        }),
        Err(error) => Err(error),
    }
}
