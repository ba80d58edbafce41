//! Catalogs under definitions and removals, one after another. `@targets` and `@shop` are the
//! documents of the sample stream.

use crate::tables::{Reading, expect_table};

/// A shop's objective and what it refers to, and then a step or more.
const STEPS: &str = "@targets
~
@shop
~
####
@kind AlertNotificationTarget
@name on-call
spec:
  target: 'pager'
=> Service shop
Sli shop-good
Slo shop-slo
AlertPolicy shop-alerts
AlertCondition fast-burn
AlertNotificationTarget desk
AlertNotificationTarget on-call
shop-slo 0 shop-alerts
shop-slo 0 workbook-page
====
- Service shop
=> InUse { by_kind: Slo, by_name: Label(shop-slo) }
====
- AlertPolicy shop-alerts
=> InUse { by_kind: Slo, by_name: Label(shop-slo) }
====
- SLI nope
=> NotFound
====
- SLO shop
=> NotFound
====
- AlertPolicy workbook-page
=> NotFound
====
- SLO shop-slo
~
- Service shop
=> Sli shop-good
AlertPolicy shop-alerts
AlertCondition fast-burn
AlertNotificationTarget desk
AlertNotificationTarget on-call
====
- SLO shop-slo
~
- Service shop
~
@shop
=> Service shop
Sli shop-good
Slo shop-slo
AlertPolicy shop-alerts
AlertCondition fast-burn
AlertNotificationTarget desk
AlertNotificationTarget on-call
shop-slo 0 shop-alerts
shop-slo 0 workbook-page
";

#[test]
fn a_catalog_is_changed_step_by_step(rt: HostRuntime) {
    expect_table(&rt, rt.alloc(), &Reading::Steps, STEPS);
}

/// One text each: references to nothing and to what stands behind, a built-in name, and copies.
const ALONE: &str = r#"@shop
=> AlertPolicy shop-alerts needs AlertNotificationTarget on-call
====
@kind AlertPolicy
@name workbook-page
spec:
  {}
=> Reserved { name: Label(workbook-page) }
====
@targets
@kind AlertNotificationTarget
@name on-call
spec:
  target: "pager"
=> AlertNotificationTarget desk
AlertNotificationTarget on-call
====
@targets
@kind AlertNotificationTarget
@name on-call
spec:
  target: pager2
=> DuplicateInText { kind: AlertNotificationTarget, name: Label(on-call) }
====
@kind AlertPolicy
@name early
spec:
  conditions:
  - conditionRef: late
  notificationTargets:
  - targetRef: on-call
@kind AlertCondition
@name late
spec:
  severity: page
  condition:
    threshold: 2
    lookbackWindow: 1h
@kind AlertNotificationTarget
@name on-call
spec:
  target: pager
=> AlertPolicy early
AlertCondition late
AlertNotificationTarget on-call
"#;

#[test]
fn a_text_defines_its_objects_or_has_a_first_fault(rt: HostRuntime) {
    expect_table(&rt, rt.alloc(), &Reading::Steps, ALONE);
}
