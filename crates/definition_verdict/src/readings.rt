//! Whose reading a text would change.
ghost use Rattle.std.specs.Prelude.{◌≡◌};
ghost use Rattle.catalog_terms.specs.NeedsOp.{sli_named as sli_named_def};
ghost use Rattle.object_terms.specs.Sli.{sli_in as sli_in_def};
ghost use Rattle.std.specs.Option.{option_copied};
ghost use Rattle.office_history.specs.Readings.{first_read_anew as first_read_anew_def};
ghost use Rattle.office_history.specs.Readings.{is_other_reading as is_other_reading_def};
ghost use Rattle.office_history.specs.Readings.{row_read_anew as row_read_anew_def};
ghost use Rattle.office_history.specs.Readings.{same_reading as same_reading_def};

use exact_fraction::Label;
use object_terms::{Kind, Object, Sli};
use office_history::reading_of;
use sample_book::{Row, SampleBook};
use slice_method::Reading;
use slo_catalog::{Catalog, sli_in};

/// Whether two readings are one.
fn same_reading(a: Reading, b: Reading) -> bool
    ensures { result ≡ same_reading_def a b }
{
    match (a, b) {
        (Reading::Good, Reading::Good) => true,
        (Reading::Bad, Reading::Bad) => true,
        (Reading::Threshold, Reading::Threshold) => true,
        (Reading::RawSuccess, Reading::RawSuccess) => true,
        (Reading::RawFailure, Reading::RawFailure) => true,
        _ => false,
    }
}

/// The indicator of that name.
fn sli_named(catalog: &Catalog, name: Label) -> Option<&Sli>
    ensures { option_copied result ≡ sli_named_def catalog.now name }
{
    sli_in(&catalog.find(Kind::Sli, name)?.body)
}

/// Whether the member of that name is there and read otherwise.
fn is_other_reading(catalog: &Catalog, name: Label, reading: Reading) -> bool
    ensures { result ≡ is_other_reading_def reading (sli_named_def catalog.now name) }
{
    match sli_named(catalog, name) {
        Some(member) => !same_reading(reading, reading_of(&member.metric)),
        None => false,
    }
}

/// The first row of an indicator that would be read otherwise than its member.
fn row_read_anew(catalog: &Catalog, book: &SampleBook, object: &Object) -> Option<Row>
    ensures { result ≡ row_read_anew_def catalog.now book.now.rows object.now.name
        (sli_in_def object.now.body) }
{
    let sli = sli_in(&object.body)?;
    if is_other_reading(catalog, object.name, reading_of(&sli.metric)) {
        book.first_row(object.name)
    } else {
        None
    }
}

/// The first row of the first indicator of the objects that would be read otherwise than its
/// member.
pub(crate) fn first_read_anew(
    catalog: &Catalog,
    book: &SampleBook,
    objects: &[Object],
) -> Option<Row>
    ensures { result ≡ first_read_anew_def catalog.now book.now.rows objects.now }
{
    for object in objects {
        if let Some(row) = row_read_anew(catalog, book, object) {
            return Some(row);
        }
    }
    None
}
