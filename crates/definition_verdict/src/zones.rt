//! The zones that the calendars of objects name.
ghost use Rattle.std.specs.Prelude.{◌≡◌};
ghost use Rattle.object_terms.specs.Slo.{slo_in as slo_in_def};
ghost use Rattle.office_history.specs.KnownZones.{first_unknown_zone as first_unknown_zone_def};
ghost use Rattle.office_history.specs.KnownZones.{is_among as is_among_def};
ghost use Rattle.office_history.specs.KnownZones.{is_known_zone as is_known_zone_def};
ghost use Rattle.office_history.specs.KnownZones.{unknown_zone_in};

use exact_fraction::ZoneName;
use object_terms::Object;
use slo_catalog::slo_in;

/// Whether a zone is one of these.
fn is_among(zones: &[ZoneName], name: ZoneName) -> bool
    ensures { result ≡ is_among_def zones.now name }
{
    for zone in zones {
        if name.as_bytes() == zone.as_bytes() {
            return true;
        }
    }
    false
}

/// Whether a zone is known: one of these, or `UTC`.
fn is_known_zone(zones: &[ZoneName], name: ZoneName) -> bool
    ensures { result ≡ is_known_zone_def zones.now name }
{
    name.as_bytes() == b"UTC".as_slice() || is_among(zones, name)
}

/// The zone of an SLO's calendar, where it isn't known.
fn unknown_zone(zones: &[ZoneName], object: &Object) -> Option<ZoneName>
    ensures { result ≡ unknown_zone_in zones.now (slo_in_def object.now.body) }
{
    let slo = slo_in(&object.body)?;
    let Some(calendar) = &slo.time_window.calendar else {
        return None;
    };
    if is_known_zone(zones, calendar.time_zone) {
        None
    } else {
        Some(calendar.time_zone)
    }
}

/// The first zone of the objects that isn't known.
pub(crate) fn first_unknown_zone(zones: &[ZoneName], objects: &[Object]) -> Option<ZoneName>
    ensures { result ≡ first_unknown_zone_def zones.now objects.now }
{
    for object in objects {
        if let Some(name) = unknown_zone(zones, object) {
            return Some(name);
        }
    }
    None
}
