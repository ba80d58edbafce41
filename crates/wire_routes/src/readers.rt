//! The places of paths, by their routes.
ghost use Rattle.std.specs.Prelude.{◌≡◌};
ghost use Rattle.wire_routes.specs.Readers.{alerts_at, alerts_in, budgets_at, burns_at};
ghost use Rattle.wire_routes.specs.Readers.{exclusion_at, fixed_at, object_at, place_by, row_at};
ghost use Rattle.wire_routes.specs.Readers.{row_in, sums_at, take_at, windows_at, zone_at};

use crate::cuts::{after_word, cut_at, read_number32};
use crate::place::{Place, Route};
use exact_fraction::{Label, read_label, read_zone_name};
use object_terms::Kind;

fn fixed_at(path: &[u8], spelled: &[u8], place: Place) -> Option<Place>
    ensures { result ≡ fixed_at spelled.now place path.now }
{
    if path == spelled { Some(place) } else { None }
}

fn object_at(path: &[u8]) -> Option<Place>
    ensures { result ≡ object_at path.now }
{
    let rest = after_word(path, b"/objects/")?;
    let (kind, name) = cut_at(rest, b'/')?;
    let kind = Kind::of_word(kind)?;
    let name = read_label(name)?;
    Some(Place::Object { kind, name })
}

fn zone_at(path: &[u8]) -> Option<Place>
    ensures { result ≡ zone_at path.now }
{
    let rest = after_word(path, b"/zones/")?;
    let name = read_zone_name(rest)?;
    Some(Place::Zone { name })
}

fn exclusion_at(path: &[u8]) -> Option<Place>
    ensures { result ≡ exclusion_at path.now }
{
    let rest = after_word(path, b"/exclusions/")?;
    let id = read_label(rest)?;
    Some(Place::Exclusion { id })
}

fn take_at(path: &[u8]) -> Option<Place>
    ensures { result ≡ take_at path.now }
{
    let rest = after_word(path, b"/notices/")?;
    let (digits, last) = cut_at(rest, b'/')?;
    if last != b"take".as_slice() {
        return None;
    }
    let number = read_number32(digits)?;
    Some(Place::Take { number })
}

fn budgets_at(path: &[u8]) -> Option<Place>
    ensures { result ≡ budgets_at path.now }
{
    let rest = after_word(path, b"/budgets/")?;
    let slo = read_label(rest)?;
    Some(Place::Budgets { slo })
}

fn burns_at(path: &[u8]) -> Option<Place>
    ensures { result ≡ burns_at path.now }
{
    let rest = after_word(path, b"/burns/")?;
    let (slo, digits) = cut_at(rest, b'/')?;
    let slo = read_label(slo)?;
    let objective = read_number32(digits)?;
    Some(Place::Burns { slo, objective })
}

fn alerts_in(slo: &[u8], rest: &[u8]) -> Option<Place>
    ensures { result ≡ alerts_in slo.now rest.now }
{
    let (digits, policy) = cut_at(rest, b'/')?;
    let slo = read_label(slo)?;
    let objective = read_number32(digits)?;
    let policy = read_label(policy)?;
    Some(Place::Alerts {
        slo,
        objective,
        policy,
    })
}

fn alerts_at(path: &[u8]) -> Option<Place>
    ensures { result ≡ alerts_at path.now }
{
    let rest = after_word(path, b"/alerts/")?;
    let (slo, rest) = cut_at(rest, b'/')?;
    alerts_in(slo, rest)
}

fn row_in(sli: &[u8], rest: &[u8]) -> Option<Place>
    ensures { result ≡ row_in sli.now rest.now }
{
    let (source, digits) = cut_at(rest, b'/')?;
    let sli = read_label(sli)?;
    let source = read_label(source)?;
    let minute = read_number32(digits)?;
    Some(Place::Row {
        sli,
        source,
        minute,
    })
}

fn row_at(path: &[u8]) -> Option<Place>
    ensures { result ≡ row_at path.now }
{
    let rest = after_word(path, b"/samples/")?;
    let (sli, rest) = cut_at(rest, b'/')?;
    row_in(sli, rest)
}

fn sums_at(path: &[u8]) -> Option<Place>
    ensures { result ≡ sums_at path.now }
{
    let rest = after_word(path, b"/sums/")?;
    let (slo, digits) = cut_at(rest, b'/')?;
    let slo = read_label(slo)?;
    let objective = read_number32(digits)?;
    Some(Place::Sums { slo, objective })
}

fn windows_at(path: &[u8]) -> Option<Place>
    ensures { result ≡ windows_at path.now }
{
    let rest = after_word(path, b"/windows/")?;
    let slo = read_label(rest)?;
    Some(Place::Windows { slo })
}

/// The place of that route that a path names.
pub(crate) fn place_by(route: Route, path: &[u8]) -> Option<Place>
    ensures { result ≡ place_by route path.now }
{
    match route {
        Route::Objects => fixed_at(path, b"/objects", Place::Objects),
        Route::Object => object_at(path),
        Route::Zone => zone_at(path),
        Route::Samples => fixed_at(path, b"/samples", Place::Samples),
        Route::Exclusion => exclusion_at(path),
        Route::Tick => fixed_at(path, b"/tick", Place::Tick),
        Route::Notices => fixed_at(path, b"/notices", Place::Notices),
        Route::Take => take_at(path),
        Route::Upgrade => fixed_at(path, b"/upgrade", Place::Upgrade),
        Route::Budgets => budgets_at(path),
        Route::Burns => burns_at(path),
        Route::Alerts => alerts_at(path),
        Route::Entries => fixed_at(path, b"/entries", Place::Entries),
        Route::Row => row_at(path),
        Route::Exclusions => fixed_at(path, b"/exclusions", Place::Exclusions),
        Route::Zones => fixed_at(path, b"/zones", Place::Zones),
        Route::Status => fixed_at(path, b"/status", Place::Status),
        Route::Sums => sums_at(path),
        Route::Windows => windows_at(path),
    }
}
