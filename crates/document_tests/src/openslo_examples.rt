//! The texts of the folder `examples/openslo`, and what their documents stand for.

use crate::tables::{Reading, expect_table};

/// The texts of the examples without their comments, each with a line for each object or fault, and
/// behind it changes, each with the lines then.
const EXAMPLES: &str = "apiVersion: openslo/v1
kind: DataSource
metadata:
  name: my-datasource
  displayName: My Datasource
spec:
  type: CloudWatch
  connectionDetails:
    accessKeyID: accessKey
    secretAccessKey: secretAccessKey
####
=> DataSource my-datasource
====
--   type: CloudWatch
-> 
=> type Missing
====
apiVersion: openslo/v1
kind: Service
metadata:
  name: my-rad-service
  displayName: My Rad Service
spec:
  description: This is a great description of an even better service.
####
=> Service my-rad-service
====
apiVersion: openslo/v1
kind: SLI
metadata:
  name: ok-requests
  displayName: Requests answered with 200
spec:
  ratioMetric:
    counter: true
    good:
      metricSource:
        metricSourceRef: datadog-datasource
        type: Datadog
        spec:
          query: sum:trace.http.request.hits.by_http_status{http.status_code:200}.as_count()
    total:
      metricSource:
        metricSourceRef: datadog-datasource
        type: Datadog
        spec:
          query: sum:trace.http.request.hits.by_http_status{*}.as_count()
---
apiVersion: openslo/v1
kind: SLI
metadata:
  name: stored-ratio
spec:
  ratioMetric:
    rawType: success
    raw:
      metricSource:
        type: Prometheus
        spec:
          query: job:request_success:ratio
---
apiVersion: openslo/v1
kind: SLI
metadata:
  name: delay
spec:
  thresholdMetric:
    metricSource:
      type: Redshift
      spec:
        region: eu-central-1
        clusterId: metrics-cluster
        databaseName: metrics-db
        query: SELECT value, timestamp FROM metrics WHERE timestamp BETWEEN :date_from AND :date_to
####
=> Sli ok-requests
Sli stored-ratio
Sli delay
====
-- rawType: success
-> rawType: success
    good: {}
=> Sli ok-requests
raw Both
Sli delay
====
-- metricSourceRef: datadog-datasource
-> metricSourceRef: Datadog
=> metricSourceRef BadName
Sli stored-ratio
Sli delay
====
apiVersion: openslo/v1
kind: SLO
metadata:
  name: TestSLO
  displayName: Test SLO
spec:
  description: This is a great description
  service: TestService
  indicatorRef: ThisIsAnIndicator
  timeWindow:
    - duration: 1w
      isRolling: false
      calendar:
        startTime: 2022-01-01 12:00:00
        timeZone: America/New_York
  budgetingMethod: Timeslices
  objectives:
    - displayName: Foo Total Errors
      target: 0.98
      timeSliceTarget: 0.95
      timeSliceWindow: 1m
####
=> name BadName
====
-- TestSLO
-> test-slo
=> service BadName
====
apiVersion: openslo/v1
kind: SLO
metadata:
  name: rolling
spec:
  service: my-rad-service
  indicatorRef: ok-requests
  timeWindow:
    - duration: 4w
      isRolling: true
  budgetingMethod: Occurrences
  objectives:
    - displayName: Good requests
      targetPercent: 99.5
    - target: 0.9
---
apiVersion: openslo/v1
kind: SLO
metadata:
  name: monthly
spec:
  service: my-rad-service
  indicatorRef: delay
  timeWindow:
    - duration: 1M
      calendar:
        startTime: 2020-01-21 12:30:00
        timeZone: America/New_York
  budgetingMethod: Timeslices
  objectives:
    - displayName: Fast
      op: lte
      value: 0.2
      target: 0.99
      timeSliceTarget: 0.95
      timeSliceWindow: 5m
####
=> Slo rolling
Slo monthly
====
-- isRolling: true
-> isRolling: true
      calendar: {}
=> calendar Both
Slo monthly
====
-- duration: 1M
-> duration: 24h
=> Slo rolling
duration OutOfRange
====
-- timeSliceWindow: 5m
-> timeSliceWindow: 7m
=> Slo rolling
timeSliceWindow OutOfRange
====
apiVersion: openslo/v1
kind: SLO
metadata:
  name: composite
spec:
  service: my-rad-service
  timeWindow:
    - duration: 28d
      isRolling: true
  budgetingMethod: Occurrences
  objectives:
    - displayName: Checkout
      indicatorRef: checkout
      target: 0.98
      compositeWeight: 1
    - displayName: Search
      indicatorRef: search
      target: 0.99
      compositeWeight: 2
####
=> indicator Neither
====
--   timeWindow:
->   indicatorRef: checkout
  timeWindow:
=> indicatorRef UnknownField
====
apiVersion: openslo/v1
kind: AlertPolicy
metadata:
  name: AlertPolicy
  displayName: Alert Policy
spec:
  description: Alert policy for cpu usage breaches, notifies on-call devops via email
  alertWhenBreaching: true
  alertWhenResolved: false
  conditions:
    - conditionRef: cpu-usage-breach
  notificationTargets:
    - targetRef: OnCallDevopsMailNotification
####
=> name BadName
====
-- name: AlertPolicy
-> name: cpu-alerts
=> targetRef BadName
====
-- name: AlertPolicy
  displayName: Alert Policy
spec:
  description: Alert policy for cpu usage breaches, notifies on-call devops via email
  alertWhenBreaching: true
  alertWhenResolved: false
  conditions:
-> name: cpu-alerts
spec:
  conditions:
    - conditionRef: other
=> conditions ListLength
====
apiVersion: openslo/v1
kind: AlertCondition
metadata:
  name: cpu-usage-breach
  displayName: CPU usage breach
spec:
  description: If the CPU usage is too high for given period then it should alert
  severity: page
  condition:
    kind: burnrate
    op: lte
    threshold: 2
    lookbackWindow: 1h
    alertAfter: 5m
####
=> AlertCondition cpu-usage-breach
====
-- threshold: 2
-> threshold: 10000.5
=> threshold OutOfRange
====
-- lookbackWindow: 1h
-> lookbackWindow: 0h
=> lookbackWindow OutOfRange
====
-- lookbackWindow: 1h
-> lookbackWindow: 31d
=> lookbackWindow OutOfRange
====
apiVersion: openslo/v1
kind: AlertNotificationTarget
metadata:
  name: OnCallDevopsMailNotification
spec:
  description: Notifies by a mail message to the on-call devops mailing group
  target: email
####
=> name BadName
";

/// The example whose objects stand inside of its SLO, in the same form.
const INLINE_EXAMPLE: &str = "apiVersion: openslo/v1
kind: SLO
metadata:
  name: inline
spec:
  service: my-rad-service
  indicator:
    metadata:
      name: good
      displayName: Good
    spec:
      ratioMetric:
        counter: true
        good:
          metricSource:
            type: Prometheus
            spec:
              query: sum(localhost_server_requests{\
code=~\"2xx|3xx\",host=\"*\",instance=\"127.0.0.1:9090\"})
        total:
          metricSource:
            type: Prometheus
            spec:
              query: localhost_server_requests{\
code=\"total\",host=\"*\",instance=\"127.0.0.1:9090\"}
  timeWindow:
    - duration: 1d
      isRolling: true
  budgetingMethod: RatioTimeslices
  objectives:
    - target: 0.995
      timeSliceWindow: 5
  alertPolicies:
    - kind: AlertPolicy
      metadata:
        name: cpu-alerts
        displayName: Alert Policy
      spec:
        description: Alert policy for cpu usage breaches, notifies on-call devops via email
        alertWhenBreaching: true
        alertWhenResolved: false
        conditions:
          - kind: AlertCondition
            metadata:
              name: cpu-usage-breach
              displayName: CPU Usage breach
            spec:
              description: If the CPU usage is too high for given period then it should alert
              severity: page
              condition:
                kind: burnrate
                op: lte
                threshold: 2
                lookbackWindow: 1h
                alertAfter: 5m
        notificationTargets:
          - kind: AlertNotificationTarget
            metadata:
              name: on-call-mail
            spec:
              description: Notifies by a mail message to the on-call devops mailing group
              target: email
####
=> Sli good
AlertCondition cpu-usage-breach
AlertNotificationTarget on-call-mail
AlertPolicy cpu-alerts
Slo inline
====
-- kind: AlertCondition
-> kind: AlertPolicy
=> kind BadKind
";

#[test]
fn the_examples_are_read_as_they_say(rt: HostRuntime) {
    expect_table(&rt, rt.alloc(), &Reading::Names, EXAMPLES);
    expect_table(&rt, rt.alloc(), &Reading::Names, INLINE_EXAMPLE);
}
