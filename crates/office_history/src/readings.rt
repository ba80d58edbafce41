//! How the amounts of an indicator's rows are read.
ghost use Rattle.std.specs.Prelude.{◌≡◌};
ghost use Rattle.office_history.specs.Readings.{reading_of as reading_of_def};

use object_terms::{Events, Metric, Ratio, RawType};
use slice_method::Reading;

/// How the amounts of an indicator's rows are read (OpenSLO v1, `ratioMetric` and
/// `thresholdMetric`).
pub fn reading_of(metric: &Metric) -> Reading
    ensures { result ≡ reading_of_def metric.now }
{
    let Metric::Ratio(metric) = metric else {
        return Reading::Threshold;
    };
    match &metric.ratio {
        Ratio::Raw { raw_type, .. } => match raw_type {
            RawType::Success => Reading::RawSuccess,
            RawType::Failure => Reading::RawFailure,
        },
        Ratio::Counts { events, .. } => match events {
            Events::Good(_) => Reading::Good,
            Events::Bad(_) => Reading::Bad,
        },
    }
}
