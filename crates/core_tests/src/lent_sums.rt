//! The sums that a machine lends.
ghost use Rattle.std.specs.Prelude.{◌≡◌, ◌≤◌, ◌<◌};

use crate::shop::{expect, label, let_go, send, shop};
use exact_fraction::Leaf;
use std::marker::Brand;
use std::sync::ledger::{Blank, Ledger};
use sum_pages::Steps;
use window_sums::WindowSums;

/// The sum over [from, to) for a caller that counts no steps.
fn sum_by<L: Ledger>(sums: &WindowSums, from: u32, to: u32, blank: Blank) -> Leaf
    requires order { from ≤ to }
    requires blank { (blank.name ≡ L.name) × (blank.parts ≡ L.parts) × (0 < L.parts) }
{
    let mut steps = Steps::<L>::new(blank);
    sums.sum(from, to, &mut steps)
}

fn sum(sums: &WindowSums, from: u32, to: u32) -> Leaf
    requires { from ≤ to }
{
    sum_by::<Brand>(sums, from, to, Blank::new(1))
}

#[test]
fn sums_are_lent_of_each_objective(rt: HostRuntime) {
    let mut core = shop(&rt, rt.alloc());
    let slo = label(&rt, b"shop-slo");
    send(&rt, rt.alloc(), &mut core, 200, (100, 1, 4, 8));
    send(&rt, rt.alloc(), &mut core, 200, (150, 1, 6, 12));
    let sums = core.sums_of(slo, 0).expect(&rt, "sums");
    expect(
        &rt,
        sum(sums, 0, 200) == Leaf { num: 10, den: 20 },
        "both rows",
    );
    expect(
        &rt,
        sum(sums, 101, 200) == Leaf { num: 6, den: 12 },
        "the later row",
    );
    expect(&rt, core.sums_of(slo, 1).is_none(), "another objective");
    expect(
        &rt,
        core.sums_of(label(&rt, b"other"), 0).is_none(),
        "another SLO",
    );
    let_go(core);
}
