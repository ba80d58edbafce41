//! OpenSLO objects and their canonical texts. Each expected text was written by hand.

use crate::documents::objects_of;
use crate::expectations::expect;
use crate::tables::{Reading, expect_table};
use object_writing::write_object;
use std::alloc::Global;
use std::process::Abort;

/// The objects of a text as they are written, as documents of one text.
fn writing_of(rt: &impl Abort, alloc: Global, text: &str) -> Vec<u8> {
    let objects = objects_of(rt, alloc, text);
    let mut out = Vec::new(alloc);
    for object in objects.as_slice() {
        out.extend_from_slice(b"---\n").expect(rt, "memory");
        write_object(&mut out, object).expect(rt, "memory");
    }
    out
}

/// The objects of a text are written so, and those of what is written once more.
pub(crate) fn expect_written(rt: &impl Abort, alloc: Global, text: &str, wanted: &str) {
    let found = writing_of(rt, alloc, text);
    expect(rt, found.as_slice() == wanted.as_bytes(), text);
    let again = writing_of(rt, alloc, wanted);
    expect(rt, again.as_slice() == wanted.as_bytes(), wanted);
}

/// Documents, and what their objects are written as. The samples stand by their name.
const WRITINGS: &str = r#"apiVersion: openslo/v1
kind: Service
metadata:
  name: shop
  displayName: Shop front
spec:
  description: The public shop.
=> ---
apiVersion: openslo/v1
kind: Service
metadata:
  name: "shop"
  displayName: "Shop front"
spec:
  description: "The public shop."
====
spec: {}
metadata:
  displayName: ~
  name: shop
kind: Service
apiVersion: "openslo/v1"
=> ---
apiVersion: openslo/v1
kind: Service
metadata:
  name: "shop"
spec: {}
====
apiVersion: openslo/v1
kind: DataSource
metadata:
  name: metrics
  labels:
    team: 'shop'
    tiers: [1, '2']
    lead:
      name: ~
  annotations:
    'a key': "5"
    list:
    - - 1
    - {}
    text: |
      two
      lines
spec:
  type: Prometheus
  connectionDetails:
    url: |
      http://metrics/
    retries: 3
    none: ~
    hosts: []
=> ---
apiVersion: openslo/v1
kind: DataSource
metadata:
  name: "metrics"
  labels:
    "team": "shop"
    "tiers":
      - 1
      - "2"
    "lead":
      "name": ~
  annotations:
    "a key": "5"
    "list":
      - - 1
      - {}
    "text": "two\nlines\n"
spec:
  type: "Prometheus"
  connectionDetails:
    "url": "http://metrics/\n"
    "retries": 3
    "none": ~
    "hosts": []
====
apiVersion: openslo/v1
kind: SLO
metadata:
  name: shop-slo
spec:
  service: shop
  indicatorRef: shop-good
  timeWindow:
  - duration: 4w
    isRolling: true
  budgetingMethod: Timeslices
  objectives:
####
  - target: 0.999
    timeSliceTarget: 0.95
    timeSliceWindow: 5
=> ---
apiVersion: openslo/v1
kind: SLO
metadata:
  name: "shop-slo"
spec:
  service: "shop"
  indicatorRef: "shop-good"
  timeWindow:
    - duration: 4w
      isRolling: true
  budgetingMethod: Timeslices
  objectives:
    - target: 0.999
      timeSliceTarget: 0.95
      timeSliceWindow: 5
====
  - timeSliceWindow: "05m"
    timeSliceTarget: "0.95"
    targetPercent: "99.90"
=> ---
apiVersion: openslo/v1
kind: SLO
metadata:
  name: "shop-slo"
spec:
  service: "shop"
  indicatorRef: "shop-good"
  timeWindow:
    - duration: 4w
      isRolling: true
  budgetingMethod: Timeslices
  objectives:
    - target: 0.999
      timeSliceTarget: 0.95
      timeSliceWindow: 5
====
####
apiVersion: openslo/v1
kind: SLO
metadata:
  name: shop-slo
spec:
  service: shop
  indicator:
    metadata:
      name: shop-good
    spec:
      ratioMetric:
        raw:
          metricSource:
            metricSourceRef: metrics
        rawType: failure
  timeWindow:
  - duration: 1M
    calendar:
      startTime: 2020-01-21 12:30:00
      timeZone: America/New_York
  budgetingMethod: RatioTimeslices
  objectives:
  - op: lt
    value: 0.250
    target: 0.9
    timeSliceWindow: 60
  alertPolicies:
  - workbook-page
  - kind: AlertPolicy
    metadata:
      name: shop-alerts
    spec:
      alertWhenNoData: FALSE
      notificationTargets:
      - targetRef: desk
      - apiVersion: openslo/v1
        metadata:
          name: on-call
        spec:
          target: pager
      - metadata:
          name: chat
        spec:
          target: chat
      conditions:
      - metadata:
          name: fast
        spec:
          description: Fast
          severity: page
          condition:
            threshold: 14.40
            lookbackWindow: 1h
  - metadata:
      name: slow-alerts
    spec:
      conditions:
      - conditionRef: slow
=> ---
apiVersion: openslo/v1
kind: SLI
metadata:
  name: "shop-good"
spec:
  ratioMetric:
    raw:
      metricSource:
        metricSourceRef: "metrics"
    rawType: failure
---
apiVersion: openslo/v1
kind: AlertCondition
metadata:
  name: "fast"
spec:
  description: "Fast"
  severity: "page"
  condition:
    threshold: 14.4
    lookbackWindow: 1h
---
apiVersion: openslo/v1
kind: AlertNotificationTarget
metadata:
  name: "on-call"
spec:
  target: "pager"
---
apiVersion: openslo/v1
kind: AlertNotificationTarget
metadata:
  name: "chat"
spec:
  target: "chat"
---
apiVersion: openslo/v1
kind: AlertPolicy
metadata:
  name: "shop-alerts"
spec:
  alertWhenNoData: false
  conditions:
    - conditionRef: "fast"
  notificationTargets:
    - targetRef: "desk"
    - targetRef: "on-call"
    - targetRef: "chat"
---
apiVersion: openslo/v1
kind: AlertPolicy
metadata:
  name: "slow-alerts"
spec:
  conditions:
    - conditionRef: "slow"
---
apiVersion: openslo/v1
kind: SLO
metadata:
  name: "shop-slo"
spec:
  service: "shop"
  indicatorRef: "shop-good"
  timeWindow:
    - duration: 1M
      calendar:
        startTime: "2020-01-21 12:30:00"
        timeZone: "America/New_York"
  budgetingMethod: RatioTimeslices
  objectives:
    - op: lt
      value: 0.25
      target: 0.9
      timeSliceWindow: 60
  alertPolicies:
    - alertPolicyRef: "workbook-page"
    - alertPolicyRef: "shop-alerts"
    - alertPolicyRef: "slow-alerts"
====
@targets
=> ---
apiVersion: openslo/v1
kind: AlertNotificationTarget
metadata:
  name: "on-call"
spec:
  target: "pager"
---
apiVersion: openslo/v1
kind: AlertNotificationTarget
metadata:
  name: "desk"
spec:
  target: "ticket"
====
@shop
=> ---
apiVersion: openslo/v1
kind: Service
metadata:
  name: "shop"
  displayName: "Shop front"
spec:
  description: "The public shop."
---
apiVersion: openslo/v1
kind: SLI
metadata:
  name: "shop-good"
spec:
  ratioMetric:
    counter: true
    total:
      metricSource:
        type: "Prometheus"
        spec:
          "query": sum(http_requests)
    good:
      metricSource:
        type: "Prometheus"
        spec:
          "query": "sum(http_requests{code!~\"5..\"})\n"
---
apiVersion: openslo/v1
kind: AlertCondition
metadata:
  name: "fast-burn"
spec:
  severity: "page"
  condition:
    kind: burnrate
    op: gt
    threshold: 2
    lookbackWindow: 1h
    alertAfter: 5m
---
apiVersion: openslo/v1
kind: AlertPolicy
metadata:
  name: "shop-alerts"
spec:
  alertWhenResolved: true
  alertWhenBreaching: true
  conditions:
    - conditionRef: "fast-burn"
  notificationTargets:
    - targetRef: "on-call"
    - targetRef: "desk"
---
apiVersion: openslo/v1
kind: SLO
metadata:
  name: "shop-slo"
spec:
  service: "shop"
  indicatorRef: "shop-good"
  timeWindow:
    - duration: 30d
      isRolling: true
  budgetingMethod: Occurrences
  objectives:
    - displayName: "Availability"
      target: 0.999
  alertPolicies:
    - alertPolicyRef: "shop-alerts"
    - alertPolicyRef: "workbook-page"
"#;

#[test]
fn objects_are_written_in_one_form(rt: HostRuntime) {
    expect_table(&rt, rt.alloc(), &Reading::Objects, WRITINGS);
}
