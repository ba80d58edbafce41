//! The lines that a machine lends.
ghost use Rattle.std.specs.Prelude.{◌≤◌};
ghost use Rattle.slo_limits.specs.declared.TheConstants.{MAX_MINUTE};

use crate::shop::{expect, label, let_go, send, shop};
use office_core::Core;
use record_form::{Outcome, Query};
use std::alloc::Global;
use std::mem;
use std::process::Abort;

fn is_timeline(outcome: &Outcome) -> bool {
    match outcome {
        Outcome::Timeline { .. } => true,
        _ => false,
    }
}

/// Asks for a timeline of the shop's alert, which has to be given.
fn ask(rt: &impl Abort, alloc: Global, core: &mut Core, reading: u32, from: u32, to: u32)
    requires { reading ≤ MAX_MINUTE }
{
    let moment = core.moment(reading);
    assert!(rt; core.in_range(moment));
    let query = Query::Timeline {
        slo: label(rt, b"shop-slo"),
        objective: 0,
        policy: label(rt, b"shop-alerts"),
        from,
        to,
    };
    let outcome = core.answer(alloc, moment, &query);
    expect(rt, is_timeline(&outcome), "a timeline");
    mem::forget(outcome);
}

/// Whether the line of the shop's alert knows a minute.
fn knows(rt: &impl Abort, core: &Core, minute: u32) -> bool {
    let line = core.line_of(label(rt, b"shop-slo"), 0, label(rt, b"shop-alerts"));
    line.expect(rt, "a line").known_at(minute).is_some()
}

#[test]
fn lines_are_lent_of_each_binding(rt: HostRuntime) {
    let core = shop(&rt, rt.alloc());
    let slo = label(&rt, b"shop-slo");
    let policy = label(&rt, b"shop-alerts");
    expect(&rt, core.line_of(slo, 0, policy).is_some(), "a line");
    expect(
        &rt,
        core.line_of(slo, 0, label(&rt, b"other")).is_none(),
        "another policy",
    );
    expect(
        &rt,
        core.line_of(slo, 1, policy).is_none(),
        "another objective",
    );
    expect(
        &rt,
        core.line_of(policy, 0, policy).is_none(),
        "another SLO",
    );
    let_go(core);
}

#[test]
fn a_correction_forgets_what_it_may_change_alone(rt: HostRuntime) {
    let mut core = shop(&rt, rt.alloc());
    send(&rt, rt.alloc(), &mut core, 1_200, (1_000, 1, 0, 1_000));
    expect(&rt, !knows(&rt, &core, 900), "nothing is known");
    ask(&rt, rt.alloc(), &mut core, 1_200, 900, 1_200);
    for minute in 900..1_200 {
        expect(&rt, knows(&rt, &core, minute), "a minute is known");
    }
    send(&rt, rt.alloc(), &mut core, 1_200, (1_000, 2, 1_000, 1_000));
    for minute in 900..1_200 {
        let is_forgotten = (1_001..1_061).contains(&minute);
        expect(
            &rt,
            knows(&rt, &core, minute) != is_forgotten,
            "a minute is forgotten",
        );
    }
    let_go(core);
}
