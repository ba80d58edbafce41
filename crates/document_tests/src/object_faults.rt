//! OpenSLO documents at fault, each with the field and the rule that OpenSLO's words name first.

use crate::expectations::expect_text;
use crate::object_tables::names_of;
use crate::tables::{Reading, expect_table};

/// Fields that are missing, or of another form.
const FORMS: &str = "@head
####
kind: DataSource
spec:
  description: x
=> type Missing
====
kind: AlertNotificationTarget
spec:
  target: ~
=> target Missing
====
kind: AlertCondition
spec:
  severity: page
=> condition Missing
====
kind: AlertCondition
spec:
  severity: page
  condition:
    op: gt
    lookbackWindow: 1h
=> threshold Missing
====
kind: AlertCondition
spec:
  severity: page
  condition:
    threshold: 2
    alertAfter: 5m
=> lookbackWindow Missing
====
kind: SLI
spec:
  thresholdMetric: {}
=> metricSource Missing
====
kind: SLI
spec:
  ratioMetric:
    raw:
      metricSource: {}
=> rawType Missing
====
kind: SLI
spec:
  ratioMetric:
    rawType: success
=> total Missing
====
kind: AlertPolicy
spec:
  conditions:
  - metadata: {}
=> name Missing
====
kind: AlertPolicy
spec:
  conditions:
  - metadata:
      name: a
=> spec Missing
====
kind: Service
spec:
  - a
=> spec NotMap
====
kind: SLI
spec:
  thresholdMetric: 5
=> thresholdMetric NotMap
====
kind: AlertPolicy
spec:
  conditions: [fast]
=> conditions NotMap
====
kind: AlertPolicy
spec:
  notificationTargets: [null]
=> notificationTargets NotMap
====
kind: AlertPolicy
spec:
  conditions: 5
=> conditions NotList
====
kind: AlertPolicy
spec:
  notificationTargets: {}
=> notificationTargets NotList
====
kind: Service
spec:
  description: [a]
=> description NotText
====
kind: DataSource
spec:
  type: []
=> type NotText
====
kind: AlertCondition
spec:
  severity: {}
=> severity NotText
====
kind: AlertCondition
spec:
  severity: a
  condition:
    threshold: -1
=> threshold NotNumber
====
kind: AlertCondition
spec:
  severity: a
  condition:
    threshold: 0.0000000001
=> threshold NotNumber
====
kind: AlertPolicy
spec:
  alertWhenNoData: yes
=> alertWhenNoData NotBool
====
kind: SLI
spec:
  ratioMetric:
    counter: 1
=> counter NotBool
====
kind: AlertCondition
spec:
  severity: a
  condition:
    threshold: 1
    lookbackWindow: 5
=> lookbackWindow NotDuration
====
kind: AlertCondition
spec:
  severity: a
  condition:
    threshold: 1
    lookbackWindow: 1h
    alertAfter: [5m]
=> alertAfter NotDuration
";

#[test]
fn a_field_of_another_form_is_named(rt: HostRuntime) {
    expect_table(&rt, rt.alloc(), &Reading::Names, FORMS);
}

/// Values that may not stand, and fields and items that are too many or too few.
const VALUES: &str = "@head
####
kind: AlertCondition
spec:
  severity: a
  condition:
    threshold: 1
    lookbackWindow: 0m
=> lookbackWindow OutOfRange
====
kind: AlertCondition
spec:
  severity: a
  condition:
    threshold: 1
    lookbackWindow: 31d
=> lookbackWindow OutOfRange
====
kind: AlertCondition
spec:
  severity: a
  condition:
    threshold: 1
    lookbackWindow: 30d
    alertAfter: 43201m
=> alertAfter OutOfRange
====
kind: AlertCondition
spec:
  severity: a
  condition:
    threshold: 10000.1
=> threshold OutOfRange
====
kind: SLI
spec:
  thresholdMetric:
    metricSource:
      metricSourceRef: Prometheus
=> metricSourceRef BadName
====
kind: AlertPolicy
spec:
  conditions:
  - conditionRef: -fast
=> conditionRef BadName
====
kind: AlertPolicy
spec:
  notificationTargets:
  - apiVersion: openslo/v2
=> apiVersion BadVersion
====
kind: AlertPolicy
spec:
  notificationTargets:
  - kind: AlertCondition
=> kind BadKind
====
kind: AlertPolicy
spec:
  conditions:
  - kind: AlertPolicy
=> kind BadKind
====
kind: AlertCondition
spec:
  severity: a
  condition:
    kind: burn
=> kind BadWord
====
kind: AlertCondition
spec:
  severity: a
  condition:
    op: GT
=> op BadWord
====
kind: SLI
spec:
  ratioMetric:
    raw:
      metricSource: {}
    rawType: Success
=> rawType BadWord
====
kind: SLI
spec:
  thresholdMetric: {}
  ratioMetric: {}
=> thresholdMetric Both
====
kind: SLI
spec:
  ratioMetric:
    raw:
      metricSource: {}
    bad: {}
=> raw Both
====
kind: SLI
spec:
  ratioMetric:
    total:
      metricSource: {}
    good: 1
    bad: 1
=> good Both
====
kind: SLI
spec:
  description: x
=> thresholdMetric Neither
====
kind: SLI
spec:
  ratioMetric:
    total:
      metricSource: {}
=> good Neither
====
kind: Service
spec:
  team: a
=> team UnknownField
====
kind: AlertPolicy
spec:
  conditions:
  - conditionRef: a
    more: b
=> more UnknownField
====
kind: SLI
spec:
  ratioMetric:
    rawType: success
    total:
      metricSource: {}
    bad:
      metricSource: {}
=> rawType UnknownField
====
kind: AlertPolicy
spec:
  conditions: [a, b]
=> conditions ListLength
";

#[test]
fn a_value_that_may_not_stand_is_named(rt: HostRuntime) {
    expect_table(&rt, rt.alloc(), &Reading::Names, VALUES);
}

/// Several faults: the first in the order of the fields is named, depth first, and unknown
/// fields of a map last.
const SEVERAL: &str = "@head
####
kind: DataSource
spec:
  team: a
  type: x
=> team UnknownField
====
kind: DataSource
spec:
  team: a
=> type Missing
====
kind: DataSource
spec:
  type: []
  description: []
=> description NotText
====
kind: AlertCondition
spec:
  condition: 5
  description: x
=> severity Missing
====
kind: AlertCondition
spec:
  team: a
  severity: page
  condition:
    hour: 1
    threshold: 2
    lookbackWindow: 1h
=> hour UnknownField
====
kind: AlertCondition
spec:
  severity: page
  condition:
    op: above
    kind: burn
=> kind BadWord
====
kind: AlertPolicy
spec:
  notificationTargets: 5
  conditions: [a, b]
  alertWhenBreaching: 0
=> alertWhenBreaching NotBool
====
kind: AlertPolicy
spec:
  notificationTargets:
  - targetRef: desk
  - targetRef: Desk
  - 5
=> targetRef BadName
====
kind: AlertPolicy
spec:
  notificationTargets:
  - kind: SLO
    apiVersion: v1
=> apiVersion BadVersion
====
kind: SLI
spec:
  ratioMetric:
    raw: 5
    counter: 5
=> counter NotBool
====
kind: SLI
spec:
  ratioMetric:
    bad: 5
    total: 5
    rawType: 5
=> total NotMap
====
kind: SLI
spec:
  thresholdMetric:
    metricSource:
      type: []
      metricSourceRef: []
=> metricSourceRef BadName
";

#[test]
fn the_first_of_several_faults_is_named(rt: HostRuntime) {
    expect_table(&rt, rt.alloc(), &Reading::Names, SEVERAL);
}

/// Documents that aren't whole, or whose head is at fault. A name has at most 63 characters.
const HEADS: &str = "[]
=> document NotMap
====
a text
=> document NotMap
====
kind: Service
=> apiVersion Missing
====
apiVersion: ~
=> apiVersion Missing
====
apiVersion: openslo/v2
=> apiVersion BadVersion
====
apiVersion: []
=> apiVersion BadVersion
====
kind: Slo
apiVersion: openslo/v1alpha
=> apiVersion BadVersion
====
apiVersion: openslo/v1
=> kind Missing
====
apiVersion: openslo/v1
kind: Slo
=> kind BadKind
====
apiVersion: openslo/v1
kind: {}
=> kind BadKind
====
apiVersion: openslo/v1
kind: Service
spec: {}
=> metadata Missing
====
apiVersion: openslo/v1
kind: Service
metadata: x
=> metadata NotMap
====
apiVersion: openslo/v1
kind: Service
metadata: {}
spec: 5
=> name Missing
====
apiVersion: openslo/v1
kind: Service
metadata:
####
  name: Shop
=> name BadName
====
  name: ''
=> name BadName
====
  name: shop-
=> name BadName
====
  name: [a]
=> name BadName
====
  name: a
  displayName: [x]
  labels: x
=> displayName NotText
====
  name: a
  labels: x
=> labels NotMap
====
  name: a
  annotations: []
=> annotations NotMap
====
  name: a
  owner: x
=> owner UnknownField
====
  name: a
more: x
=> spec Missing
====
  name: a
spec: ~
=> spec Missing
====
####
more: x
apiVersion: openslo/v1
kind: Service
metadata:
  name: a
spec: {}
=> more UnknownField
====
apiVersion: openslo/v1
kind: Service
metadata:
  name: aaaaaaaaaaaaaaaaaaaaaaaaaaaaaaaaaaaaaaaaaaaaaaaaaaaaaaaaaaaaaaa
spec: {}
=> Service aaaaaaaaaaaaaaaaaaaaaaaaaaaaaaaaaaaaaaaaaaaaaaaaaaaaaaaaaaaaaaa
====
apiVersion: openslo/v1
kind: Service
metadata:
  name: aaaaaaaaaaaaaaaaaaaaaaaaaaaaaaaaaaaaaaaaaaaaaaaaaaaaaaaaaaaaaaaa
spec: {}
=> name BadName
";

#[test]
fn the_first_fault_of_a_head_is_named(rt: HostRuntime) {
    expect_table(&rt, rt.alloc(), &Reading::Names, HEADS);
}

#[test]
fn a_description_has_at_most_1050_characters(rt: HostRuntime) {
    let longest = "é".repeat(rt.alloc(), 1_050).expect(&rt, "memory");
    for (more, wanted) in [("", "Service shop\n"), ("x", "description TooLong\n")] {
        let text = format!(in rt.alloc();
            "apiVersion: openslo/v1
kind: Service
metadata:
  name: shop
spec:
  description: {longest}{more}
"
        )
        .expect(&rt, "memory");
        expect_text(&rt, &text, &names_of(&rt, rt.alloc(), &text), wanted);
    }
}
