//! Rules of a catalog: references, objectives over values, bindings and limits.

use crate::catalog_tables::after_definition;
use crate::expectations::expect_text;
use crate::tables::{Reading, expect_table};
use slo_catalog::Catalog;
use std::alloc::Global;
use std::process::Abort;

/// The first reference that names no member: of an object, in the order of its fields.
const REFERENCES: &str = "@kind SLI
@name first
spec:
  thresholdMetric:
    metricSource:
      metricSourceRef: a
=> Sli first needs DataSource a
====
@kind SLI
@name first
spec:
  ratioMetric:
    raw:
      metricSource:
        metricSourceRef: a
    rawType: success
=> Sli first needs DataSource a
====
@kind SLI
@name first
spec:
  ratioMetric:
    bad:
      metricSource:
        metricSourceRef: a
    total:
      metricSource:
        metricSourceRef: b
=> Sli first needs DataSource b
====
@kind SLI
@name first
spec:
  ratioMetric:
    bad:
      metricSource:
        metricSourceRef: a
    total:
      metricSource: {}
=> Sli first needs DataSource a
====
@kind AlertPolicy
@name first
spec:
  notificationTargets:
  - targetRef: a
  - targetRef: b
  conditions:
  - conditionRef: c
=> AlertPolicy first needs AlertCondition c
====
@kind AlertPolicy
@name first
spec:
  notificationTargets:
  - targetRef: a
  - targetRef: b
=> AlertPolicy first needs AlertNotificationTarget a
====
@kind AlertPolicy
@name first
spec:
  conditions:
  - conditionRef: workbook-page
=> AlertPolicy first needs AlertCondition workbook-page
====
@kind SLO
@name first
spec:
@slo
  objectives:
  - target: 0.9
  alertPolicies: [workbook-page, workbook-ticket, pages]
=> Slo first needs Service shop
====
@kind SLO
@name first
spec:
@slo
  objectives:
  - target: 0.9
  alertPolicies: [workbook-page, workbook-ticket, pages]
@kind Service
@name shop
spec:
  {}
=> Slo first needs Sli speed
====
@kind SLO
@name first
spec:
@slo
  objectives:
  - target: 0.9
  alertPolicies: [workbook-page, workbook-ticket, pages]
@kind SLI
@name speed
spec:
  ratioMetric:
    total:
      metricSource: {}
    good:
      metricSource: {}
@kind Service
@name shop
spec:
  {}
=> Slo first needs AlertPolicy pages
";

#[test]
fn the_first_reference_to_nothing_is_named(rt: HostRuntime) {
    expect_table(&rt, rt.alloc(), &Reading::Steps, REFERENCES);
}

/// The first objective that no value can be compared with: of the SLOs of the text, then of the
/// others.
const OBJECTIVES: &str = "@kind Service
@name shop
spec:
  {}
~
@kind SLO
@name fast
spec:
@slo
  objectives:
  - target: 0.9
####
@kind SLI
@name speed
spec:
  thresholdMetric:
    metricSource: {}
=> NeedsOp { slo: Label(fast), objective: 0 }
====
    op: lt
@kind SLI
@name speed
spec:
  thresholdMetric:
    metricSource: {}
=> NeedsOp { slo: Label(fast), objective: 0 }
====
    op: lt
    value: 1
  - target: 0.8
    value: 1
@kind SLI
@name speed
spec:
  thresholdMetric:
    metricSource: {}
=> NeedsOp { slo: Label(fast), objective: 1 }
====
    op: lt
    value: 1
  - target: 0.8
    value: 1
    op: gte
  - target: 0.7
@kind SLI
@name speed
spec:
  thresholdMetric:
    metricSource: {}
=> NeedsOp { slo: Label(fast), objective: 2 }
====
@kind SLI
@name speed
spec:
  ratioMetric:
    total:
      metricSource: {}
    good:
      metricSource: {}
=> Service shop
Sli speed
Slo fast
====
    op: lt
    value: 1
@kind SLI
@name speed
spec:
  thresholdMetric:
    metricSource: {}
=> Service shop
Sli speed
Slo fast
====
@kind Service
@name shop
spec:
  {}
~
@kind SLI
@name speed
spec:
  ratioMetric:
    total:
      metricSource: {}
    good:
      metricSource: {}
@kind SLO
@name b
spec:
@slo
  objectives:
  - target: 0.9
@kind SLO
@name a
spec:
@slo
  objectives:
  - target: 0.9
~
@kind SLI
@name speed
spec:
  thresholdMetric:
####
    metricSource: {}
=> NeedsOp { slo: Label(a), objective: 0 }
====
    metricSource: {}
@kind SLO
@name b
spec:
@slo
  objectives:
  - target: 0.9
=> NeedsOp { slo: Label(b), objective: 0 }
";

#[test]
fn objectives_over_values_need_op_and_value(rt: HostRuntime) {
    expect_table(&rt, rt.alloc(), &Reading::Steps, OBJECTIVES);
}

/// A service, an indicator of it, and policies with one condition and without. They stand where
/// `BINDINGS` has the line `@policies`.
const POLICIES: &str = "@kind Service
@name shop
spec:
  {}
@kind SLI
@name speed
spec:
  ratioMetric:
    total:
      metricSource: {}
    good:
      metricSource: {}
@kind AlertPolicy
@name empty
spec:
  conditions: []
@kind AlertPolicy
@name bare
spec:
  {}
@kind AlertPolicy
@name pages
spec:
  conditions:
  - metadata:
      name: fast
    spec:
      severity: page
      condition:
        kind: burnrate
        op: gt
        threshold: 2
        lookbackWindow: 1h
";

/// Bindings stand by SLO, objective and policy, and the first of those that refer to an object is
/// named.
const BINDINGS: &str = "@policies
~
@kind SLO
@name d
spec:
@slo
  objectives:
  - target: 0.9
  alertPolicies: []
@kind SLO
@name c
spec:
@slo
  objectives:
  - target: 0.9
  alertPolicies: [workbook-page]
@kind SLO
@name b
spec:
@slo
  objectives:
  - target: 0.9
  - target: 0.99
  alertPolicies: [workbook-ticket, empty, pages, bare]
@kind SLO
@name a
spec:
@slo
  objectives:
  - target: 0.9
####
  alertPolicies: [pages, empty]
=> Service shop
Sli speed
Slo a
Slo b
Slo c
Slo d
AlertPolicy bare
AlertPolicy empty
AlertPolicy pages
AlertCondition fast
a 0 pages
b 0 workbook-ticket
b 0 pages
b 1 workbook-ticket
b 1 pages
c 0 workbook-page
====
@policies
~
@kind SLO
@name b
spec:
@slo
  objectives:
  - target: 0.9
  alertPolicies: [pages]
@kind SLO
@name a
spec:
@slo
  objectives:
  - target: 0.9
  alertPolicies: []
~
####
- Service shop
=> InUse { by_kind: Slo, by_name: Label(a) }
====
- SLI speed
=> InUse { by_kind: Slo, by_name: Label(a) }
====
- AlertPolicy pages
=> InUse { by_kind: Slo, by_name: Label(b) }
====
- AlertCondition fast
=> InUse { by_kind: AlertPolicy, by_name: Label(pages) }
====
- AlertPolicy empty
=> Service shop
Sli speed
Slo a
Slo b
AlertPolicy bare
AlertPolicy pages
AlertCondition fast
b 0 pages
";

#[test]
fn bindings_and_referrers_stand_in_order(rt: HostRuntime) {
    let table = BINDINGS
        .replace(rt.alloc(), "@policies\n", POLICIES)
        .expect(&rt, "memory");
    expect_table(&rt, rt.alloc(), &Reading::Steps, &table);
}

/// The fault of a text in a catalog of its own; empty if it has none.
fn fault_of(rt: &impl Abort, alloc: Global, text: &str) -> String {
    match after_definition(rt, alloc, &Catalog::new(alloc), text) {
        Ok(_catalog) => String::new(alloc),
        Err(fault) => fault,
    }
}

/// A limit: its name, the kind and the `spec` of the documents that are counted, what stands before
/// them, and how many of them are within it.
struct Limit {
    name: &'static str,
    kind: &'static str,
    spec: &'static str,
    before: &'static str,
    most: u32,
}

/// What an SLO refers to.
const SHOP: &str = "@kind Service
@name shop
spec:
  {}
@kind SLI
@name speed
spec:
  ratioMetric:
    total:
      metricSource: {}
    good:
      metricSource: {}
";

/// The limits of a catalog. An SLO of the last has ten bindings.
const LIMITS: [Limit; 4] = [
    Limit {
        name: "Limit(Objects)\n",
        kind: "Service",
        spec: "  {}",
        before: "",
        most: 2_000,
    },
    Limit {
        name: "Limit(Slis)\n",
        kind: "SLI",
        spec: "  ratioMetric:
    total:
      metricSource: {}
    good:
      metricSource: {}",
        before: "",
        most: 200,
    },
    Limit {
        name: "Limit(Slos)\n",
        kind: "SLO",
        spec: "@slo
  objectives:
  - target: 0.9",
        before: SHOP,
        most: 200,
    },
    Limit {
        name: "Limit(Bindings)\n",
        kind: "SLO",
        spec: "@slo
  objectives:
  - target: 0.9
  - target: 0.8
  - target: 0.7
  - target: 0.6
  - target: 0.5
  alertPolicies: [workbook-page, workbook-ticket]",
        before: SHOP,
        most: 40,
    },
];

/// A document of a kind and a name.
fn document(rt: &impl Abort, alloc: Global, kind: &str, name: &str, spec: &str) -> String {
    format!(in alloc; "@kind {kind}\n@name {name}\nspec:\n{spec}\n").expect(rt, "memory")
}

/// A text with as many documents as are within a limit.
fn text_within(rt: &impl Abort, alloc: Global, limit: &Limit) -> String {
    let mut text = String::from_str(alloc, limit.before).expect(rt, "memory");
    for number in 0..limit.most {
        let name = format!(in alloc; "n{number}").expect(rt, "memory");
        let next = document(rt, alloc, limit.kind, &name, limit.spec);
        text.push_str(&next).expect(rt, "memory");
    }
    text
}

/// So many documents are taken, and one more is not.
fn expect_limit(rt: &impl Abort, alloc: Global, limit: &Limit) {
    let mut text = text_within(rt, alloc, limit);
    expect_text(rt, limit.name, &fault_of(rt, alloc, &text), "");
    let above = document(rt, alloc, limit.kind, "above", limit.spec);
    text.push_str(&above).expect(rt, "memory");
    expect_text(rt, limit.name, &fault_of(rt, alloc, &text), limit.name);
}

#[test]
fn a_catalog_has_limits(rt: HostRuntime) {
    for limit in &LIMITS {
        expect_limit(&rt, rt.alloc(), limit);
    }
}

/// A data source whose details are a list, as deep as may be, of 254,190 items, and whose type has
/// so many letters. Each item is written in a line of 66 bytes, and what stands before them in 103
/// bytes and the letters.
fn deep_text(rt: &impl Abort, alloc: Global, letters: usize) -> String {
    let dashes = "- ".repeat(alloc, 29).expect(rt, "memory");
    let items = "a,".repeat(alloc, 254_190).expect(rt, "memory");
    let letters = "x".repeat(alloc, letters).expect(rt, "memory");
    let spec = format!(in alloc;
        "  type: {letters}\n  connectionDetails:\n    {dashes}[{items}]"
    ).expect(rt, "memory");
    document(rt, alloc, "DataSource", "deep", &spec)
}

#[test]
fn a_catalog_has_at_most_16777216_bytes(rt: HostRuntime) {
    let within = deep_text(&rt, rt.alloc(), 573);
    expect_text(&rt, "573", &fault_of(&rt, rt.alloc(), &within), "");
    let above = deep_text(&rt, rt.alloc(), 574);
    expect_text(
        &rt,
        "574",
        &fault_of(&rt, rt.alloc(), &above),
        "Limit(Catalog)\n",
    );
}
