//! The keys of the maps of documents, as OpenSLO v1 has them.

/// Of documents, and of objects that stand inline.
pub const API_VERSION: &str = "apiVersion";

/// Of documents, of objects that stand inline, and of conditions.
pub const KIND: &str = "kind";

/// Of documents, and of objects that stand inline.
pub const METADATA: &str = "metadata";

/// Of documents, of objects that stand inline, and of metric sources.
pub const SPEC: &str = "spec";

/// Of metadata.
pub const NAME: &str = "name";

/// Of metadata, and of objectives.
pub const DISPLAY_NAME: &str = "displayName";

/// Of metadata: a map as it was written.
pub const LABELS: &str = "labels";

/// Of metadata: a map as it was written.
pub const ANNOTATIONS: &str = "annotations";

/// Of all kinds of objects.
pub const DESCRIPTION: &str = "description";

/// Of data sources, and of metric sources.
pub const TYPE: &str = "type";

/// Of data sources: a part of free form.
pub const CONNECTION_DETAILS: &str = "connectionDetails";

/// Of indicators, and of what they count: the map of a query.
pub const METRIC_SOURCE: &str = "metricSource";

/// Of metric sources: the name of a data source.
pub const METRIC_SOURCE_REF: &str = "metricSourceRef";

/// Of indicators over values.
pub const THRESHOLD_METRIC: &str = "thresholdMetric";

/// Of indicators over counts of events.
pub const RATIO_METRIC: &str = "ratioMetric";

/// Of ratios: whether counts only rise.
pub const COUNTER: &str = "counter";

/// Of ratios that are told themselves.
pub const RAW: &str = "raw";

/// Of ratios that are told themselves: of what they are a ratio.
pub const RAW_TYPE: &str = "rawType";

/// Of ratios that are counted: all events.
pub const TOTAL: &str = "total";

/// Of ratios that are counted: the good events.
pub const GOOD: &str = "good";

/// Of ratios that are counted: the bad events.
pub const BAD: &str = "bad";

/// Of SLOs: the name of a service.
pub const SERVICE: &str = "service";

/// Of SLOs: an indicator that stands inline.
pub const INDICATOR: &str = "indicator";

/// Of SLOs: the name of an indicator.
pub const INDICATOR_REF: &str = "indicatorRef";

/// Of SLOs: a list of one window.
pub const TIME_WINDOW: &str = "timeWindow";

/// Of SLOs.
pub const BUDGETING_METHOD: &str = "budgetingMethod";

/// Of SLOs.
pub const OBJECTIVES: &str = "objectives";

/// Of SLOs.
pub const ALERT_POLICIES: &str = "alertPolicies";

/// Of items of `alertPolicies`: the name of a policy.
pub const ALERT_POLICY_REF: &str = "alertPolicyRef";

/// Of windows.
pub const DURATION: &str = "duration";

/// Of windows.
pub const IS_ROLLING: &str = "isRolling";

/// Of windows that aren't rolling.
pub const CALENDAR: &str = "calendar";

/// Of calendars.
pub const START_TIME: &str = "startTime";

/// Of calendars.
pub const TIME_ZONE: &str = "timeZone";

/// Of conditions, and of objectives.
pub const OP: &str = "op";

/// Of objectives over values.
pub const VALUE: &str = "value";

/// Of objectives, and of targets of notifications.
pub const TARGET: &str = "target";

/// Of objectives, in the place of `target`.
pub const TARGET_PERCENT: &str = "targetPercent";

/// Of objectives over slices.
pub const TIME_SLICE_TARGET: &str = "timeSliceTarget";

/// Of objectives over slices.
pub const TIME_SLICE_WINDOW: &str = "timeSliceWindow";

/// Of policies.
pub const ALERT_WHEN_NO_DATA: &str = "alertWhenNoData";

/// Of policies.
pub const ALERT_WHEN_RESOLVED: &str = "alertWhenResolved";

/// Of policies.
pub const ALERT_WHEN_BREACHING: &str = "alertWhenBreaching";

/// Of policies: a list of one condition at most.
pub const CONDITIONS: &str = "conditions";

/// Of items of `conditions`: the name of a condition.
pub const CONDITION_REF: &str = "conditionRef";

/// Of policies.
pub const NOTIFICATION_TARGETS: &str = "notificationTargets";

/// Of items of `notificationTargets`: the name of a target.
pub const TARGET_REF: &str = "targetRef";

/// Of alert conditions.
pub const SEVERITY: &str = "severity";

/// Of alert conditions: the map of what has to hold.
pub const CONDITION: &str = "condition";

/// Of what has to hold: a burn rate.
pub const THRESHOLD: &str = "threshold";

/// Of what has to hold.
pub const LOOKBACK_WINDOW: &str = "lookbackWindow";

/// Of what has to hold.
pub const ALERT_AFTER: &str = "alertAfter";
