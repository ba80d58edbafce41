//! Indicators, as they are read.
ghost use Rattle.std.specs.Prelude.{◌≡◌};
ghost use Rattle.yaml_terms.specs.Spelling.{word};
ghost use Rattle.object_terms.specs.Form.{map_with, variant, answer_by};
ghost use Rattle.object_fields.specs.Reading.{Reads, entries_view};
ghost use Rattle.object_terms.specs.Sli.{metric_source, source, raw_type_word, raw_type_value};
ghost use Rattle.object_terms.specs.Sli.{events_written, ratio_metric, raw_ratio, counted_ratio};
ghost use Rattle.object_terms.specs.Sli.{metric_written, sli, sli_body, known_with_raw};
ghost use Rattle.object_terms.specs.declared.sli.Events.TheVariants.{Good, Bad};
ghost use Rattle.object_terms.specs.declared.sli.Metric.TheVariants as metrics;
ghost use Rattle.object_terms.specs.declared.fault.Rule.TheVariants as rules;

use object_fields::{
    BooleanForm, DescriptionForm, Free, NameForm, ReadForm, ReadText, TextForm, close_with,
    fail_at, map_entries, one_of, optional, optional_alone, required,
};
use object_terms::keys::{
    BAD, COUNTER, DESCRIPTION, GOOD, METRIC_SOURCE, METRIC_SOURCE_REF, RATIO_METRIC, RAW, RAW_TYPE,
    SPEC, THRESHOLD_METRIC, TOTAL, TYPE,
};
use object_terms::{
    Body, Events, Metric, MetricSource, Objects, Ratio, RatioMetric, RawType, ReadError, Rule, Sli,
    is_word,
};
use std::alloc::{AllocError, Global};
use yaml_terms::{Node, ScalarText};

/// What a raw ratio is a ratio of, if the text is its word.
#[tactic(auto, unfolding(object_terms::specs::Sli::raw_type_value))]
fn read_raw_type(text: &[u8]) -> Result<RawType, Rule>
    ensures { result ≡ raw_type_value text.now }
{
    if is_word(text, "success") {
        Ok(RawType::Success)
    } else if is_word(text, "failure") {
        Ok(RawType::Failure)
    } else {
        Err(Rule::BadWord)
    }
}

/// What a raw ratio is a ratio of.
pub(crate) struct RawTypeForm;

impl ReadText for RawTypeForm {
    type Value = RawType;

    ghost other = { λ _. rules.BadWord };

    ghost value = { λ _. raw_type_value };

    ghost spelled = { λ _ t. word (raw_type_word t) };

    fn rule(&self) -> Rule {
        Rule::BadWord
    }

    fn parse(&self, _alloc: Global, text: &[u8]) -> Result<Result<RawType, Rule>, AllocError> {
        Ok(read_raw_type(text))
    }
}

/// `metricSource`.
struct MetricSourceForm;

impl ReadForm for MetricSourceForm {
    type Value = MetricSource;

    ghost form = { λ _. map_with metric_source };

    #[tactic(auto, unfolding(object_terms::specs::Sli::metric_source))]
    fn read(&self, found: &mut Objects, key: &str, node: &Node) -> Result<MetricSource, ReadError> {
        let Some(fields) = map_entries(node) else {
            return fail_at(found, key, Rule::NotMap);
        };
        let metric_source_ref = optional(found, fields, METRIC_SOURCE_REF, &NameForm)?;
        let type_text = optional(found, fields, TYPE, &TextForm)?;
        let spec = match optional(found, fields, SPEC, &Free) {
            Ok(spec) => spec,
            Err(error) => {
                drop(type_text);
                return Err(error);
            }
        };
        let source = MetricSource {
            metric_source_ref,
            type_text,
            spec,
        };
        close_with(found, fields, &[METRIC_SOURCE_REF, TYPE, SPEC], source)
    }
}

/// A map of `metricSource`.
struct SourceForm;

impl ReadForm for SourceForm {
    type Value = MetricSource;

    ghost form = { λ _. source };

    #[tactic(auto, unfolding(object_terms::specs::Sli::source_map))]
    fn read(&self, found: &mut Objects, key: &str, node: &Node) -> Result<MetricSource, ReadError> {
        let Some(fields) = map_entries(node) else {
            return fail_at(found, key, Rule::NotMap);
        };
        let source = required(found, fields, METRIC_SOURCE, &MetricSourceForm)?;
        close_with(found, fields, &[METRIC_SOURCE], source)
    }
}

/// `good`.
struct GoodForm;

impl ReadForm for GoodForm {
    type Value = Events;

    ghost form = { λ _. variant source Good events_written };

    fn read(&self, found: &mut Objects, key: &str, node: &Node) -> Result<Events, ReadError> {
        match SourceForm.read(found, key, node) {
            Ok(source) => Ok(Events::Good(source)),
            Err(error) => Err(error),
        }
    }
}

/// `bad`.
struct BadForm;

impl ReadForm for BadForm {
    type Value = Events;

    ghost form = { λ _. variant source Bad events_written };

    fn read(&self, found: &mut Objects, key: &str, node: &Node) -> Result<Events, ReadError> {
        match SourceForm.read(found, key, node) {
            Ok(source) => Ok(Events::Bad(source)),
            Err(error) => Err(error),
        }
    }
}

/// What follows on `counter` and `raw` where `raw` stands.
#[tactic(auto, unfolding(object_terms::specs::Sli::raw_ratio))]
fn raw_ratio_of(
    found: &mut Objects,
    fields: &[(ScalarText, Node)],
    counter: Option<bool>,
    raw: MetricSource,
) -> Result<RatioMetric, ReadError>
    ensures { Reads found.old found.new result
        (answer_by (raw_ratio counter raw) known_with_raw (entries_view fields.now)) }
{
    let raw_type = match required(found, fields, RAW_TYPE, &RawTypeForm) {
        Ok(raw_type) => raw_type,
        Err(error) => {
            drop(raw);
            return Err(error);
        }
    };
    let metric = RatioMetric {
        counter,
        ratio: Ratio::Raw { raw, raw_type },
    };
    close_with(found, fields, &[COUNTER, RAW, RAW_TYPE], metric)
}

/// What follows on `counter` where `raw` doesn't stand.
#[tactic(auto, unfolding(object_terms::specs::Sli::counted_ratio))]
fn counted_ratio_of(
    found: &mut Objects,
    fields: &[(ScalarText, Node)],
    counter: Option<bool>,
) -> Result<RatioMetric, ReadError>
    ensures { Reads found.old found.new result
        (answer_by (counted_ratio counter) known_with_raw (entries_view fields.now)) }
{
    let total = required(found, fields, TOTAL, &SourceForm)?;
    let events = match one_of(found, fields, GOOD, &GoodForm, BAD, &BadForm) {
        Ok(events) => events,
        Err(error) => {
            drop(total);
            return Err(error);
        }
    };
    let metric = RatioMetric {
        counter,
        ratio: Ratio::Counts { total, events },
    };
    close_with(found, fields, &[COUNTER, RAW, TOTAL, GOOD, BAD], metric)
}

/// `ratioMetric`.
struct RatioForm;

impl ReadForm for RatioForm {
    type Value = RatioMetric;

    ghost form = { λ _. map_with ratio_metric };

    #[tactic(auto, unfolding(object_terms::specs::Sli::ratio_metric))]
    fn read(&self, found: &mut Objects, key: &str, node: &Node) -> Result<RatioMetric, ReadError> {
        let Some(fields) = map_entries(node) else {
            return fail_at(found, key, Rule::NotMap);
        };
        let counter = optional(found, fields, COUNTER, &BooleanForm)?;
        match optional_alone(found, fields, RAW, &[TOTAL, GOOD, BAD], &SourceForm)? {
            Some(raw) => raw_ratio_of(found, fields, counter, raw),
            None => counted_ratio_of(found, fields, counter),
        }
    }
}

/// `thresholdMetric`, as what an indicator measures.
struct ThresholdMetricForm;

impl ReadForm for ThresholdMetricForm {
    type Value = Metric;

    ghost form = { λ _. variant source metrics.Threshold metric_written };

    fn read(&self, found: &mut Objects, key: &str, node: &Node) -> Result<Metric, ReadError> {
        match SourceForm.read(found, key, node) {
            Ok(source) => Ok(Metric::Threshold(source)),
            Err(error) => Err(error),
        }
    }
}

/// `ratioMetric`, as what an indicator measures.
struct RatioMetricForm;

impl ReadForm for RatioMetricForm {
    type Value = Metric;

    ghost form = { λ _. variant (map_with ratio_metric) metrics.Ratio metric_written };

    fn read(&self, found: &mut Objects, key: &str, node: &Node) -> Result<Metric, ReadError> {
        match RatioForm.read(found, key, node) {
            Ok(ratio) => Ok(Metric::Ratio(ratio)),
            Err(error) => Err(error),
        }
    }
}

/// The `spec` of an indicator.
struct SliForm;

impl ReadForm for SliForm {
    type Value = Sli;

    ghost form = { λ _. map_with sli };

    #[tactic(auto, unfolding(object_terms::specs::Sli::sli))]
    fn read(&self, found: &mut Objects, key: &str, node: &Node) -> Result<Sli, ReadError> {
        let Some(fields) = map_entries(node) else {
            return fail_at(found, key, Rule::NotMap);
        };
        let description = optional(found, fields, DESCRIPTION, &DescriptionForm)?;
        let metric = match one_of(
            found,
            fields,
            THRESHOLD_METRIC,
            &ThresholdMetricForm,
            RATIO_METRIC,
            &RatioMetricForm,
        ) {
            Ok(metric) => metric,
            Err(error) => {
                drop(description);
                return Err(error);
            }
        };
        let sli = Sli {
            description,
            metric,
        };
        close_with(
            found,
            fields,
            &[DESCRIPTION, THRESHOLD_METRIC, RATIO_METRIC],
            sli,
        )
    }
}

/// The body of an indicator.
pub(crate) struct SliBody;

impl ReadForm for SliBody {
    type Value = Body;

    ghost form = { λ _. sli_body };

    fn read(&self, found: &mut Objects, key: &str, node: &Node) -> Result<Body, ReadError> {
        match SliForm.read(found, key, node) {
            Ok(sli) => Ok(Body::Sli(sli)),
            Err(error) => Err(error),
        }
    }
}
