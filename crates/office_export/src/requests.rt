//! A request of an export: its head, and its body in a place that is used again.
ghost use Rattle.std.specs.Prelude.{◌≡◌, [], Bool, IfOk};
ghost use Rattle.office_export.specs.Requests.{exclusion_at, lifting_at, object_at, rows_at};
ghost use Rattle.office_export.specs.Requests.{text_by, zone_at};
ghost use Rattle.office_export.specs.Steps.{content, text_at};

use crate::bodies::{push_exclusion, push_rows};
use crate::step::Step;
use exact_fraction::ZoneName;
use object_writing::write_object;
use office_derived::Zones;
use request_texts::{Line, head, named_head};
use sample_book::SampleBook;
use slo_catalog::Catalog;
use std::alloc::AllocError;

/// The request that puts a zone.
fn zone_request(
    zones: &Zones,
    name: ZoneName,
    body: &mut Vec<u8>,
) -> Result<Option<Line>, AllocError>
    requires { body.old.items ≡ [] }
    ensures { IfOk result (λ head. text_by head body.new.items ≡ zone_at zones.now.kept name) }
{
    match zones.bytes_of(name) {
        Some(bytes) => {
            body.extend_from_slice(bytes)?;
            Ok(Some(named_head("PUT /zones/", name.as_str(), body.len() as u64)))
        }
        None => Ok(None),
    }
}

/// The request that defines an object.
fn object_request(
    catalog: &Catalog,
    place: usize,
    body: &mut Vec<u8>,
) -> Result<Option<Line>, AllocError>
    requires { body.old.items ≡ [] }
    ensures { IfOk result (λ head. text_by head body.new.items ≡ object_at catalog.now place) }
{
    match catalog.members().get(place) {
        Some(member) => {
            write_object(body, member.object())?;
            Ok(Some(head("POST /objects", body.len() as u64)))
        }
        None => Ok(None),
    }
}

/// The request that sends rows.
fn rows_request(
    book: &SampleBook,
    first: u32,
    body: &mut Vec<u8>,
) -> Result<Option<Line>, AllocError>
    requires { body.old.items ≡ [] }
    ensures { IfOk result (λ head. text_by head body.new.items ≡ rows_at book.now.rows first) }
{
    push_rows(body, book, first)?;
    Ok(Some(head("POST /samples", body.len() as u64)))
}

/// The request that puts an exclusion.
fn exclusion_request(
    book: &SampleBook,
    place: u32,
    body: &mut Vec<u8>,
) -> Result<Option<Line>, AllocError>
    requires { body.old.items ≡ [] }
    ensures { IfOk result (λ head. text_by head body.new.items
        ≡ exclusion_at book.now.exclusions place) }
{
    match book.exclusion_at(place) {
        Some((exclusion, _)) => {
            push_exclusion(body, &exclusion)?;
            let name = exclusion.id;
            Ok(Some(named_head("PUT /exclusions/", name.as_str(), body.len() as u64)))
        }
        None => Ok(None),
    }
}

/// The request that lifts an exclusion.
fn lifting_request(book: &SampleBook, place: u32, body: &Vec<u8>) -> Option<Line>
    requires { body.now.items ≡ [] }
    ensures { text_by result body.now.items ≡ lifting_at book.now.exclusions place }
{
    match book.exclusion_at(place) {
        Some((exclusion, _)) => {
            let name = exclusion.id;
            let length = body.len() as u64;
            Some(named_head("DELETE /exclusions/", name.as_str(), length))
        }
        None => None,
    }
}

/// The request of a step: its head, where there is one, and its body in the place of the old one.
pub(crate) fn make_request(
    zones: &Zones,
    catalog: &Catalog,
    book: &SampleBook,
    step: Step,
    body: &mut Vec<u8>,
) -> Result<Option<Line>, AllocError>
    ensures { (upgraded : Bool) → IfOk result (λ head. text_by head body.new.items
        ≡ text_at (content upgraded zones.now.kept catalog.now book.now.rows
        book.now.exclusions) step) }
{
    body.clear();
    match step {
        Step::Upgrade => Ok(Some(head("POST /upgrade", 0))),
        Step::Zone(name) => zone_request(zones, name, body),
        Step::Object(place) => object_request(catalog, place, body),
        Step::Rows(first) => rows_request(book, first, body),
        Step::Put(place) => exclusion_request(book, place, body),
        Step::Lift(place) => Ok(lifting_request(book, place, body)),
    }
}
