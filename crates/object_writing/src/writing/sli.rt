//! Indicators, as they are written.
ghost use Rattle.std.specs.Prelude.{◌≡◌, IfOk, OnOk, cond};
ghost use Rattle.yaml_terms.specs.SpellingView.{spelling_view};
ghost use Rattle.object_terms.specs.Form.{map_with, own};
ghost use Rattle.object_terms.specs.Sli.{metric_source, source, is_good, events_written};
ghost use Rattle.object_terms.specs.Sli.{ratio_metric, is_threshold, metric_written, sli, sli_body};
ghost use Rattle.object_writing.specs.Adding.{Adds};

use crate::writing::field_lines::{
    optional_boolean, optional_description, optional_free, optional_name, optional_text,
    required_word,
};
use crate::writing::fields::{map_of, put};
use crate::writing::words::raw_type_word;
use object_terms::keys::{
    BAD, COUNTER, DESCRIPTION, GOOD, METRIC_SOURCE, METRIC_SOURCE_REF, RATIO_METRIC, RAW, RAW_TYPE,
    SPEC, THRESHOLD_METRIC, TOTAL, TYPE,
};
use object_terms::{Body, Events, Metric, MetricSource, Ratio, RatioMetric, Sli};
use std::alloc::{AllocError, Global};
use yaml_terms::{FieldKey, Spelling};

/// The map of a metric source.
#[tactic(auto, unfolding(object_terms::specs::Sli::metric_source))]
fn metric_source_map(alloc: Global, value: &MetricSource) -> Result<Spelling, AllocError>
    ensures { IfOk result (λ s. spelling_view s ≡ (map_with metric_source).write value.now) }
{
    let mut fields = Vec::new(alloc);
    optional_name(&mut fields, METRIC_SOURCE_REF, &value.metric_source_ref)?;
    optional_text(&mut fields, TYPE, &value.type_text)?;
    optional_free(&mut fields, SPEC, &value.spec)?;
    Ok(map_of(fields))
}

/// A map of `metricSource`.
#[tactic(auto, unfolding(object_terms::specs::Sli::source_map))]
fn source_map(alloc: Global, value: &MetricSource) -> Result<Spelling, AllocError>
    ensures { IfOk result (λ s. spelling_view s ≡ source.write value.now) }
{
    let mut fields = Vec::new(alloc);
    let metric_source = metric_source_map(alloc, value)?;
    put(&mut fields, METRIC_SOURCE, metric_source)?;
    Ok(map_of(fields))
}

/// A field whose value is a map of `metricSource`.
fn put_source(
    fields: &mut Vec<(FieldKey, Spelling)>,
    key: &str,
    value: &MetricSource,
) -> Result<(), AllocError>
    ensures { OnOk result (Adds fields.old.items fields.new.items
        (own key.now (source.write value.now))) }
{
    let source = source_map(*fields.allocator(), value)?;
    put(fields, key, source)
}

/// The events that are counted beside the total.
fn put_events(fields: &mut Vec<(FieldKey, Spelling)>, value: &Events) -> Result<(), AllocError>
    ensures { OnOk result (Adds fields.old.items fields.new.items
        (λ behind. cond (is_good value.now) (own GOOD.now (events_written value.now) behind)
        (own BAD.now (events_written value.now) behind))) }
{
    match value {
        Events::Good(source) => put_source(fields, GOOD, source),
        Events::Bad(source) => put_source(fields, BAD, source),
    }
}

/// The map of a ratio.
#[tactic(auto, unfolding(object_terms::specs::Sli::ratio_metric, object_terms::specs::Sli::raw_ratio, object_terms::specs::Sli::counted_ratio))]
fn ratio_map(alloc: Global, value: &RatioMetric) -> Result<Spelling, AllocError>
    ensures { IfOk result (λ s. spelling_view s ≡ (map_with ratio_metric).write value.now) }
{
    let mut fields = Vec::new(alloc);
    optional_boolean(&mut fields, COUNTER, value.counter)?;
    match &value.ratio {
        Ratio::Raw { raw, raw_type } => {
            put_source(&mut fields, RAW, raw)?;
            required_word(&mut fields, RAW_TYPE, raw_type_word(*raw_type))?;
        }
        Ratio::Counts { total, events } => {
            put_source(&mut fields, TOTAL, total)?;
            put_events(&mut fields, events)?;
        }
    }
    Ok(map_of(fields))
}

/// What an indicator measures.
fn put_metric(fields: &mut Vec<(FieldKey, Spelling)>, value: &Metric) -> Result<(), AllocError>
    ensures { OnOk result (Adds fields.old.items fields.new.items
        (λ behind. cond (is_threshold value.now)
        (own THRESHOLD_METRIC.now (metric_written value.now) behind)
        (own RATIO_METRIC.now (metric_written value.now) behind))) }
{
    match value {
        Metric::Threshold(source) => put_source(fields, THRESHOLD_METRIC, source),
        Metric::Ratio(ratio) => {
            let ratio = ratio_map(*fields.allocator(), ratio)?;
            put(fields, RATIO_METRIC, ratio)
        }
    }
}

/// The map of an indicator.
#[tactic(auto, unfolding(object_terms::specs::Sli::sli))]
fn sli_map(alloc: Global, value: &Sli) -> Result<Spelling, AllocError>
    ensures { IfOk result (λ s. spelling_view s ≡ (map_with sli).write value.now) }
{
    let mut fields = Vec::new(alloc);
    optional_description(&mut fields, DESCRIPTION, &value.description)?;
    put_metric(&mut fields, &value.metric)?;
    Ok(map_of(fields))
}

/// The `spec` of an indicator.
pub(crate) fn sli_spec(alloc: Global, body: &Body) -> Result<Spelling, AllocError>
    ensures { IfOk result (λ s. spelling_view s ≡ sli_body.write body.now) }
{
    match body {
        Body::Sli(sli) => sli_map(alloc, sli),
        _ => Ok(map_of(Vec::new(alloc))),
    }
}
