//! The documents of the stream's first request.

/// Two targets of alerts.
pub const ALERT_TARGETS: &str = r#"apiVersion: openslo/v1
kind: AlertNotificationTarget
metadata:
  name: on-call
spec:
  target: pager
---
apiVersion: openslo/v1
kind: AlertNotificationTarget
metadata:
  name: desk
spec:
  target: ticket  # the service desk
"#;

/// A shop: its service, what is counted, a condition, a policy and an objective.
pub const SHOP: &str = r#"apiVersion: openslo/v1
kind: Service
metadata:
  name: shop
  displayName: Shop front
spec:
  description: The public shop.
---
apiVersion: openslo/v1
kind: SLI
metadata:
  name: shop-good
spec:
  ratioMetric:
    counter: true
    good:
      metricSource:
        type: Prometheus
        spec:
          query: |
            sum(http_requests{code!~"5.."})
    total:
      metricSource:
        type: Prometheus
        spec:
          query: sum(http_requests)
---
apiVersion: openslo/v1
kind: AlertCondition
metadata:
  name: fast-burn
spec:
  severity: page
  condition:
    kind: burnrate
    op: gt
    threshold: 2
    lookbackWindow: 1h
    alertAfter: 5m
---
apiVersion: openslo/v1
kind: AlertPolicy
metadata:
  name: shop-alerts
spec:
  alertWhenBreaching: true
  alertWhenResolved: true
  conditions:
  - conditionRef: fast-burn
  notificationTargets:
  - targetRef: on-call
  - targetRef: desk
---
apiVersion: openslo/v1
kind: SLO
metadata:
  name: shop-slo
spec:
  service: shop
  indicatorRef: shop-good
  timeWindow:
  - duration: 30d
    isRolling: true
  budgetingMethod: Occurrences
  objectives:
  - displayName: Availability
    target: 0.999
  alertPolicies:
  - alertPolicyRef: shop-alerts
  - workbook-page
"#;
