//! Indicators.

use crate::free_part::FreePart;
use exact_fraction::{Label, Text};

/// A service level indicator.
#[derive(Debug, Drop)]
pub struct Sli {
    pub description: Option<Text>,
    pub metric: Metric,
}

/// What an indicator measures.
#[derive(Debug, Drop)]
pub enum Metric {
    /// `thresholdMetric`: values that an objective compares with its own.
    Threshold(MetricSource),
    /// `ratioMetric`: counts of events.
    Ratio(RatioMetric),
}

/// A query of a data source, kept and never run.
#[derive(Debug, Drop)]
pub struct MetricSource {
    /// The name of a DataSource.
    pub metric_source_ref: Option<Label>,
    /// The field `type`.
    pub type_text: Option<Text>,
    pub spec: Option<FreePart>,
}

/// A ratio of events.
#[derive(Debug, Drop)]
pub struct RatioMetric {
    pub counter: Option<bool>,
    pub ratio: Ratio,
}

/// How a ratio is told.
#[derive(Debug, Drop)]
pub enum Ratio {
    /// `raw` with `rawType`: the ratio itself.
    Raw {
        raw: MetricSource,
        raw_type: RawType,
    },
    /// `total`, and the events of one sort.
    Counts {
        total: MetricSource,
        events: Events,
    },
}

/// What a raw ratio is a ratio of.
#[derive(Clone, Copy, Debug, PartialEq, Eq)]
pub enum RawType {
    Success,
    Failure,
}

/// The events that are counted beside the total.
#[derive(Debug, Drop)]
pub enum Events {
    /// `good`.
    Good(MetricSource),
    /// `bad`.
    Bad(MetricSource),
}
