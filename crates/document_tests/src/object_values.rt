//! What the fields of objects stand for: those that may be omitted, fixed words, booleans and the
//! ends of ranges.

use crate::tables::{Reading, expect_table};

/// Each optional field of the seven kinds: present, omitted and null.
const OPTIONAL: &str = r#"@head
####
kind: DataSource
spec:
  type: Prometheus
  description: x
  connectionDetails: []
=> DataSource(DataSource { description: Some(Text { string: "x" }), type_text: Text { string:
"Prometheus" }, connection_details: Some(FreePart { node: List([]) }) })
====
kind: DataSource
spec:
  type: Prometheus
=> DataSource(DataSource { description: None, type_text: Text { string: "Prometheus" },
connection_details: None })
====
kind: DataSource
spec:
  type: Prometheus
  description: ~
  connectionDetails:
=> DataSource(DataSource { description: None, type_text: Text { string: "Prometheus" },
connection_details: None })
====
kind: Service
spec:
  description: The public shop.
=> Service(Service { description: Some(Text { string: "The public shop." }) })
====
kind: Service
spec: {}
=> Service(Service { description: None })
====
kind: Service
spec:
  description: null
=> Service(Service { description: None })
====
@head
kind: SLI
spec:
  thresholdMetric:
####
    metricSource: {}
  description: x
=> Sli(Sli { description: Some(Text { string: "x" }), metric: Threshold(MetricSource {
metric_source_ref: None, type_text: None, spec: None }) })
====
    metricSource: {}
=> Sli(Sli { description: None, metric: Threshold(MetricSource { metric_source_ref: None,
type_text: None, spec: None }) })
====
    metricSource: {}
  description: Null
  ratioMetric: ~
=> Sli(Sli { description: None, metric: Threshold(MetricSource { metric_source_ref: None,
type_text: None, spec: None }) })
====
    metricSource:
      metricSourceRef: prometheus
      type: Prometheus
      spec: {}
=> Threshold(MetricSource { metric_source_ref: Some(Label(prometheus)), type_text: Some(Text {
string: "Prometheus" }), spec: Some(FreePart { node: Map([]) }) })
====
    metricSource:
      {}
=> Threshold(MetricSource { metric_source_ref: None, type_text: None, spec: None })
====
    metricSource:
      metricSourceRef: NULL
      type: null
      spec: ~
=> Threshold(MetricSource { metric_source_ref: None, type_text: None, spec: None })
====
@head
kind: SLI
spec:
  ratioMetric:
    total:
      metricSource: {}
    bad:
####
      metricSource: {}
    counter: false
=> Ratio(RatioMetric { counter: Some(false), ratio: Counts { total: MetricSource {
metric_source_ref: None, type_text: None, spec: None }, events: Bad(MetricSource {
metric_source_ref: None, type_text: None, spec: None }) } })
====
      metricSource: {}
=> Ratio(RatioMetric { counter: None, ratio: Counts { total: MetricSource { metric_source_ref:
None, type_text: None, spec: None }, events: Bad(MetricSource { metric_source_ref: None,
type_text: None, spec: None }) } })
====
      metricSource: {}
    counter: ~
    raw: ~
    rawType: ~
    good: ~
=> Ratio(RatioMetric { counter: None, ratio: Counts { total: MetricSource { metric_source_ref:
None, type_text: None, spec: None }, events: Bad(MetricSource { metric_source_ref: None,
type_text: None, spec: None }) } })
====
@head
####
kind: AlertPolicy
spec:
  description: x
  alertWhenNoData: true
  alertWhenResolved: false
  alertWhenBreaching: true
  conditions: []
  notificationTargets: []
=> AlertPolicy(AlertPolicy { description: Some(Text { string: "x" }), alert_when_no_data:
Some(true), alert_when_resolved: Some(false), alert_when_breaching: Some(true), conditions:
Some(Names { items: [] }), notification_targets: Some(Names { items: [] }) })
====
kind: AlertPolicy
spec: {}
=> AlertPolicy(AlertPolicy { description: None, alert_when_no_data: None, alert_when_resolved:
None, alert_when_breaching: None, conditions: None, notification_targets: None })
====
kind: AlertPolicy
spec:
  description:
  alertWhenNoData: ~
  alertWhenResolved: null
  alertWhenBreaching: Null
  conditions: NULL
  notificationTargets:
=> AlertPolicy(AlertPolicy { description: None, alert_when_no_data: None, alert_when_resolved:
None, alert_when_breaching: None, conditions: None, notification_targets: None })
====
kind: AlertCondition
spec:
  severity: page
  condition:
    threshold: 2
    lookbackWindow: 1h
    kind: burnrate
    op: gte
    alertAfter: 5m
  description: x
=> AlertCondition(AlertCondition { description: Some(Text { string: "x" }), severity: Text {
string: "page" }, condition: Condition { kind: Some(Burnrate), op: Some(Gte), threshold:
Threshold { rate: Decimal { billionths: 2000000000 } }, lookback_window: Lookback { span:
Duration { count: 1, unit: Hour } }, alert_after: Some(AlertAfter { span: Duration { count: 5,
unit: Minute } }) } })
====
kind: AlertCondition
spec:
  severity: page
  condition:
    threshold: 2
    lookbackWindow: 1h
=> AlertCondition(AlertCondition { description: None, severity: Text { string: "page" },
condition: Condition { kind: None, op: None, threshold: Threshold { rate: Decimal {
billionths: 2000000000 } }, lookback_window: Lookback { span: Duration { count: 1, unit: Hour
} }, alert_after: None } })
====
kind: AlertCondition
spec:
  severity: page
  condition:
    threshold: 2
    lookbackWindow: 1h
    kind: ~
    op: ~
    alertAfter: ~
  description: ~
=> AlertCondition(AlertCondition { description: None, severity: Text { string: "page" },
condition: Condition { kind: None, op: None, threshold: Threshold { rate: Decimal {
billionths: 2000000000 } }, lookback_window: Lookback { span: Duration { count: 1, unit: Hour
} }, alert_after: None } })
====
kind: AlertNotificationTarget
spec:
  target: pager
  description: x
=> AlertNotificationTarget(AlertNotificationTarget { description: Some(Text { string: "x" }),
target: Text { string: "pager" } })
====
kind: AlertNotificationTarget
spec:
  target: pager
=> AlertNotificationTarget(AlertNotificationTarget { description: None, target: Text { string:
"pager" } })
====
kind: AlertNotificationTarget
spec:
  target: pager
  description:
=> AlertNotificationTarget(AlertNotificationTarget { description: None, target: Text { string:
"pager" } })
====
@head
kind: SLO
spec:
  service: shop
  indicatorRef: good
  timeWindow:
  - duration: 4w
    isRolling: true
  budgetingMethod: Occurrences
  objectives:
####
  - target: 0.9
    displayName: Fast
    op: lt
    value: 1.5
    timeSliceTarget: 0.95
    timeSliceWindow: 5
  description: x
  alertPolicies: []
=> Slo(Slo { description: Some(Text { string: "x" }), service: Label(shop), indicator:
Label(good), time_window: TimeWindow { duration: WindowLength { span: Duration { count: 4,
unit: Week } }, is_rolling: Some(true), calendar: None }, budgeting_method: Occurrences,
objectives: Objectives { items: [Objective { display_name: Some(Text { string: "Fast" }), op:
Some(Lt), value: Some(Decimal { billionths: 1500000000 }), target: Target { ratio: Decimal {
billionths: 900000000 } }, time_slice_target: Some(SliceTarget { ratio: Decimal { billionths:
950000000 } }), time_slice_window: Some(SliceWidth { minutes: 5 }) }] }, alert_policies:
Some(Names { items: [] }) })
====
  - target: 0.9
=> Slo(Slo { description: None, service: Label(shop), indicator: Label(good), time_window:
TimeWindow { duration: WindowLength { span: Duration { count: 4, unit: Week } }, is_rolling:
Some(true), calendar: None }, budgeting_method: Occurrences, objectives: Objectives { items:
[Objective { display_name: None, op: None, value: None, target: Target { ratio: Decimal {
billionths: 900000000 } }, time_slice_target: None, time_slice_window: None }] },
alert_policies: None })
====
  - target: 0.9
    displayName: ~
    op: ~
    value: ~
    targetPercent: ~
    timeSliceTarget: ~
    timeSliceWindow: ~
  description: ~
  indicator: ~
  alertPolicies: ~
=> Slo(Slo { description: None, service: Label(shop), indicator: Label(good), time_window:
TimeWindow { duration: WindowLength { span: Duration { count: 4, unit: Week } }, is_rolling:
Some(true), calendar: None }, budgeting_method: Occurrences, objectives: Objectives { items:
[Objective { display_name: None, op: None, value: None, target: Target { ratio: Decimal {
billionths: 900000000 } }, time_slice_target: None, time_slice_window: None }] },
alert_policies: None })
====
@head
kind: SLO
spec:
  service: shop
  indicatorRef: good
  budgetingMethod: Occurrences
  objectives:
  - target: 0.9
  timeWindow:
  - duration: 1Q
    calendar:
      startTime: 2020-01-21 12:30:00
####
      timeZone: America/New_York
    isRolling: false
=> is_rolling: Some(false), calendar: Some(Calendar {
====
      timeZone: America/New_York
=> is_rolling: None, calendar: Some(Calendar {
====
      timeZone: America/New_York
    isRolling: ~
=> is_rolling: None, calendar: Some(Calendar {
====
@head
kind: AlertPolicy
spec:
  notificationTargets:
  - metadata:
      name: desk
    spec:
####
      target: ticket
    apiVersion: openslo/v1
    kind: AlertNotificationTarget
=> kind: AlertNotificationTarget, name: Label(desk)
====
      target: ticket
=> kind: AlertNotificationTarget, name: Label(desk)
====
      target: ticket
    apiVersion: ~
    kind: ~
    targetRef: ~
=> kind: AlertNotificationTarget, name: Label(desk)
"#;

#[test]
fn a_null_field_is_as_omitted(rt: HostRuntime) {
    expect_table(&rt, rt.alloc(), &Reading::Fields, OPTIONAL);
}

/// What stands in the metadata.
const METADATA: &str = r#"apiVersion: openslo/v1
kind: Service
spec: {}
metadata:
####
  name: shop
  displayName: Shop front
  labels: {}
  annotations: {}
=> display_name: Some(Text { string: "Shop front" }), labels: Some(FreePart { node: Map([]) }),
annotations: Some(FreePart { node: Map([]) }),
====
  name: shop
=> display_name: None, labels: None, annotations: None,
====
  name: shop
  displayName: ~
  labels:
  annotations: null
  owner: ~
=> display_name: None, labels: None, annotations: None,
"#;

#[test]
fn null_metadata_are_as_omitted(rt: HostRuntime) {
    expect_table(&rt, rt.alloc(), &Reading::Fields, METADATA);
}

/// Each fixed word, each form of a boolean, each unit of a duration, numbers in quotes, and the
/// ends of ranges.
const VALUES: &str = r#"@head
####
kind: AlertPolicy
spec:
  alertWhenNoData: true
  alertWhenResolved: True
  alertWhenBreaching: TRUE
=> alert_when_no_data: Some(true), alert_when_resolved: Some(true), alert_when_breaching:
Some(true)
====
kind: AlertPolicy
spec:
  alertWhenNoData: false
  alertWhenResolved: False
  alertWhenBreaching: FALSE
=> alert_when_no_data: Some(false), alert_when_resolved: Some(false), alert_when_breaching:
Some(false)
====
kind: AlertPolicy
spec:
  alertWhenNoData: 'true'
  alertWhenResolved: "False"
=> alert_when_no_data: Some(true), alert_when_resolved: Some(false), alert_when_breaching: None
====
kind: AlertCondition
spec:
  severity: 1
  condition:
    op: lte
    threshold: 0
    lookbackWindow: 1m
    alertAfter: 0m
=> op: Some(Lte), threshold: Threshold { rate: Decimal { billionths: 0 } }, lookback_window:
Lookback { span: Duration { count: 1, unit: Minute } }, alert_after: Some(AlertAfter { span:
Duration { count: 0, unit: Minute } })
====
kind: AlertCondition
spec:
  severity: ''
  condition:
    op: gte
    threshold: 10000
    lookbackWindow: 43200m
    alertAfter: 720h
=> op: Some(Gte), threshold: Threshold { rate: Decimal { billionths: 10000000000000 } },
lookback_window: Lookback { span: Duration { count: 43200, unit: Minute } }, alert_after:
Some(AlertAfter { span: Duration { count: 720, unit: Hour } })
====
kind: AlertCondition
spec:
  severity: page
  condition:
    op: lt
    threshold: '14.4'
    lookbackWindow: 30d
    alertAfter: 4w
=> op: Some(Lt), threshold: Threshold { rate: Decimal { billionths: 14400000000 } },
lookback_window: Lookback { span: Duration { count: 30, unit: Day } }, alert_after:
Some(AlertAfter { span: Duration { count: 4, unit: Week } })
====
kind: AlertCondition
spec:
  severity: page
  condition:
    kind: burnrate
    op: gt
    threshold: 0.000000001
    lookbackWindow: 1M
=> kind: Some(Burnrate), op: Some(Gt), threshold: Threshold { rate: Decimal { billionths: 1 }
}, lookback_window: Lookback { span: Duration { count: 1, unit: Month } }
====
kind: SLI
spec:
  ratioMetric:
    raw:
      metricSource: {}
    rawType: success
=> ratio: Raw { raw: MetricSource { metric_source_ref: None, type_text: None, spec: None },
raw_type: Success }
====
kind: SLI
spec:
  ratioMetric:
    raw:
      metricSource: {}
    rawType: failure
=> ratio: Raw { raw: MetricSource { metric_source_ref: None, type_text: None, spec: None },
raw_type: Failure }
====
kind: SLI
spec:
  ratioMetric:
    good:
      metricSource:
        type: g
    total:
      metricSource:
        type: t
=> ratio: Counts { total: MetricSource { metric_source_ref: None, type_text: Some(Text {
string: "t" }), spec: None }, events: Good(MetricSource { metric_source_ref: None,
type_text: Some(Text { string: "g" }), spec: None }) }
====
kind: SLO
spec:
  service: a
  indicatorRef: b
  budgetingMethod: Occurrences
  objectives:
  - target: 0.999999999
  timeWindow:
  - duration: 366d
    isRolling: true
=> time_window: TimeWindow { duration: WindowLength { span: Duration { count: 366, unit: Day }
}, is_rolling: Some(true), calendar: None }, budgeting_method: Occurrences, objectives:
Objectives { items: [Objective { display_name: None, op: None, value: None, target: Target {
ratio: Decimal { billionths: 999999999 } }
====
kind: SLO
spec:
  service: a
  indicatorRef: b
  budgetingMethod: Timeslices
  objectives:
  - target: 0
    timeSliceTarget: 1
    timeSliceWindow: 60
  timeWindow:
  - duration: 1m
    isRolling: 'true'
=> budgeting_method: Timeslices, objectives: Objectives { items: [Objective { display_name:
None, op: None, value: None, target: Target { ratio: Decimal { billionths: 0 } },
time_slice_target: Some(SliceTarget { ratio: Decimal { billionths: 1000000000 } }),
time_slice_window: Some(SliceWidth { minutes: 60 }) }] }
====
kind: SLO
spec:
  service: a
  indicatorRef: b
  budgetingMethod: RatioTimeslices
  objectives:
  - targetPercent: 0
    timeSliceWindow: 1h
    value: 1000000000
  timeWindow:
  - duration: 1Y
    isRolling: true
=> budgeting_method: RatioTimeslices, objectives: Objectives { items: [Objective {
display_name: None, op: None, value: Some(Decimal { billionths: 1000000000000000000 }),
target: Target { ratio: Decimal { billionths: 0 } }, time_slice_target: None,
time_slice_window: Some(SliceWidth { minutes: 60 }) }] }
====
@head
kind: SLO
spec:
  service: a
  indicatorRef: b
  budgetingMethod: Occurrences
  objectives:
  - target: 0
  timeWindow:
####
  - duration: 1d
    calendar:
      startTime: 1999-12-31 23:59:59
      timeZone: UTC
=> WindowLength { span: Duration { count: 1, unit: Day } }, is_rolling: None, calendar:
Some(Calendar { start_time: Civil { year: 1999, month: 12, day: 31, hour: 23, minute: 59,
second: 59 }, time_zone: ZoneName(UTC) })
====
  - duration: 52w
    calendar:
      startTime: 2024-02-29 00:00:00
      timeZone: Etc/GMT+12
=> WindowLength { span: Duration { count: 52, unit: Week } }, is_rolling: None, calendar:
Some(Calendar { start_time: Civil { year: 2024, month: 2, day: 29, hour: 0, minute: 0, second:
0 }, time_zone: ZoneName(Etc/GMT+12) })
====
  - duration: 12M
    calendar:
      startTime: 2024-01-01 00:00:00
      timeZone: UTC
=> WindowLength { span: Duration { count: 12, unit: Month } }, is_rolling: None, calendar:
Some(
====
  - duration: 4Q
    calendar:
      startTime: 2024-01-01 00:00:00
      timeZone: UTC
=> WindowLength { span: Duration { count: 4, unit: Quarter } }, is_rolling: None, calendar:
Some(
====
  - duration: 1Y
    calendar:
      startTime: 2024-01-01 00:00:00
      timeZone: UTC
=> WindowLength { span: Duration { count: 1, unit: Year } }, is_rolling: None, calendar: Some(
====
@head
kind: SLO
spec:
  service: '0'
  indicatorRef: b-2
  budgetingMethod: Occurrences
  objectives:
  - target: '0.5'
  timeWindow:
  - duration: 1w
    isRolling: TRUE
  alertPolicies:
  - a
####
  - alertPolicyRef: b
=> service: Label(0), indicator: Label(b-2), time_window: TimeWindow { duration: WindowLength
{ span: Duration { count: 1, unit: Week } }, is_rolling: Some(true), calendar: None },
budgeting_method: Occurrences, objectives: Objectives { items: [Objective { display_name:
None, op: None, value: None, target: Target { ratio: Decimal { billionths: 500000000 } },
time_slice_target: None, time_slice_window: None }] }, alert_policies: Some(Names { items:
[Label(a), Label(b)] })
"#;

#[test]
fn values_are_what_their_words_say(rt: HostRuntime) {
    expect_table(&rt, rt.alloc(), &Reading::Fields, VALUES);
}
