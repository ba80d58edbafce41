//! How often the windows of calendars begin.
ghost use Rattle.std.specs.Prelude.{◌≡◌, ◌<◌, ◌^◌};
ghost use Rattle.object_terms.specs.Document.{IsOfDocument};
ghost use Rattle.office_history.specs.Starts.{begins_too_often as begins_too_often_def};
ghost use Rattle.office_history.specs.Starts.{one_begins_too_often as one_begins_too_often_def};

use object_laws::laws;
use object_terms::Object;
use slo_catalog::{Member, slo_in};
use zone_calendar::has_too_many_starts;

/// Whether the windows of an SLO's calendar begin more often than a list of starts may have. They
/// follow each other by a step of calendars, as in each document.
fn begins_too_often(horizon: u32, object: &Object) -> bool
    requires document { IsOfDocument object.now }
    requires horizon { horizon < 2 ^ 27 }
    ensures { result ≡ begins_too_often_def horizon object.now }
{
    laws::windows_are_in_range();
    let Some(slo) = slo_in(&object.body) else {
        return false;
    };
    let window = &slo.time_window;
    let Some(calendar) = &window.calendar else {
        return false;
    };
    has_too_many_starts(&calendar.start_time, window.duration.span, horizon)
}

/// Whether the windows of an SLO among the members begin too often.
pub(crate) fn one_begins_too_often(horizon: u32, members: &[Member]) -> bool
    requires { horizon < 2 ^ 27 }
    ensures { result ≡ one_begins_too_often_def horizon members.now }
{
    for member in members {
        if begins_too_often(horizon, member.object()) {
            return true;
        }
    }
    false
}
