//! Faults of SLOs: of what they refer to, their windows, methods, objectives and policies.

use crate::tables::{Reading, expect_table};

/// What stands in an SLO up to its window, in one of many forms.
const HEADS: &str = "@head
kind: SLO
spec:
####
  indicatorRef: a
=> service Missing
====
  service: shop
=> indicator Neither
====
  service: shop
  indicator: {}
  indicatorRef: a
=> indicator Both
====
  service: shop
  indicator:
    apiVersion: v1
=> apiVersion BadVersion
====
  service: shop
  indicator:
    kind: SLO
=> kind BadKind
====
  service: shop
  indicator: a
=> indicator NotMap
====
  service: shop
  indicatorRef: a
  timeWindow: 30d
=> timeWindow NotList
====
  service: shop
  indicatorRef: a
  timeWindow: []
=> timeWindow ListLength
====
  service: shop
  indicatorRef: a
  timeWindow: [a, b]
=> timeWindow ListLength
====
@head
kind: SLO
spec:
  service: shop
  indicatorRef: a
  timeWindow:
####
  - duration: 367d
=> duration OutOfRange
====
  - duration: 0d
    isRolling: true
=> duration OutOfRange
====
  - duration: 24h
=> duration OutOfRange
====
  - duration: 24h
    isRolling: no
=> isRolling NotBool
====
  - duration: 1d
=> calendar Missing
====
  - duration: 1d
    calendar:
      startTime: 2020-01-21
=> startTime NotMoment
====
  - duration: 1M
    calendar:
      startTime: 2023-02-29 00:00:00
      timeZone: UTC
=> startTime NotMoment
====
  - duration: 1M
    calendar:
      startTime: 2024-02-29 00:00:00
      timeZone: New York
=> timeZone BadName
====
  - duration: 1d
    isRolling: true
    calendar: {}
=> calendar Both
";

#[test]
fn the_first_fault_before_the_method_is_named(rt: HostRuntime) {
    expect_table(&rt, rt.alloc(), &Reading::Names, HEADS);
}

/// What stands from the method on.
const OBJECTIVES: &str = "@head
kind: SLO
spec:
  service: shop
  indicatorRef: shop-good
  timeWindow:
  - duration: 30d
    isRolling: true
####
  budgetingMethod: ~
=> budgetingMethod Missing
====
  budgetingMethod: occurrences
=> budgetingMethod BadWord
====
  budgetingMethod: Occurrences
=> objectives Missing
====
  budgetingMethod: Occurrences
  objectives: []
=> objectives ListLength
====
  budgetingMethod: Occurrences
  objectives: [a, b, c, d, e, f]
=> objectives ListLength
====
  budgetingMethod: Occurrences
  objectives: [a]
=> objectives NotMap
====
  budgetingMethod: Occurrences
  objectives:
  - target: 1
=> target OutOfRange
====
  budgetingMethod: Occurrences
  objectives:
  - target: 0.9
  - target: 99.9%
=> target NotNumber
====
  budgetingMethod: Occurrences
  objectives:
  - target: 0.9
    targetPercent: 99
=> target Both
====
  budgetingMethod: Occurrences
  objectives:
  - op: lt
=> target Neither
====
  budgetingMethod: Occurrences
  objectives:
  - op: equal
=> op BadWord
====
  budgetingMethod: Occurrences
  objectives:
  - value: -1
=> value NotNumber
====
  budgetingMethod: Occurrences
  objectives:
  - value: 1000000000.1
=> value OutOfRange
====
  budgetingMethod: Occurrences
  objectives:
  - targetPercent: 100
=> targetPercent OutOfRange
====
  budgetingMethod: Occurrences
  objectives:
  - targetPercent: 99.99999990
=> targetPercent NotNumber
====
  budgetingMethod: Timeslices
  objectives:
  - target: 0.9
=> timeSliceTarget Missing
====
  budgetingMethod: Timeslices
  objectives:
  - target: 0.9
    timeSliceTarget: 0
=> timeSliceTarget OutOfRange
====
  budgetingMethod: Timeslices
  objectives:
  - target: 0.9
    timeSliceTarget: 0.95
=> timeSliceWindow Missing
====
  budgetingMethod: Timeslices
  objectives:
  - target: 0.9
    timeSliceTarget: 0.95
    timeSliceWindow: 7
=> timeSliceWindow OutOfRange
====
  budgetingMethod: RatioTimeslices
  objectives:
  - target: 0.9
    timeSliceWindow: 2h
=> timeSliceWindow OutOfRange
====
  budgetingMethod: RatioTimeslices
  objectives:
  - target: 0.9
    timeSliceWindow: 5s
=> timeSliceWindow NotDuration
====
  budgetingMethod: Occurrences
  objectives:
  - target: 0.9
  alertPolicies: a
=> alertPolicies NotList
====
  budgetingMethod: Occurrences
  objectives:
  - target: 0.9
  alertPolicies: [a, b, c, d, e, f, g, h, i, j, k]
=> alertPolicies ListLength
====
  budgetingMethod: Occurrences
  objectives:
  - target: 0.9
  alertPolicies:
  - a
  - alertPolicyRef: a
=> alertPolicies Repeated
====
  budgetingMethod: Occurrences
  objectives:
  - target: 0.9
  alertPolicies:
  - alertPolicyRef: a
  - b
  - metadata:
      name: a
    spec: {}
  - 5
=> alertPolicies Repeated
====
  budgetingMethod: Occurrences
  objectives:
  - target: 0.9
  alertPolicies: [null]
=> alertPolicies BadName
====
  budgetingMethod: Occurrences
  objectives:
  - target: 0.9
  alertPolicies:
  - []
=> alertPolicies NotMap
";

#[test]
fn the_first_fault_from_the_method_on_is_named(rt: HostRuntime) {
    expect_table(&rt, rt.alloc(), &Reading::Names, OBJECTIVES);
}
