//! The sum of an objective over a stretch of minutes.
ghost use Rattle.std.specs.Prelude.{◌≡◌, ◌≤◌, ◌<◌};
ghost use Rattle.slo_terms.specs.Sums.{most_events, sum_of_slices};
ghost use Rattle.window_sums.specs.Slices.{leaf_at, width_of};
ghost use Rattle.office_history.specs.Counts.{sum_between as sum_between_def};
ghost use Rattle.kept_sums.specs.Objectives.{IsObjective};
ghost use Rattle.office_derived.specs.Derived.{IsSound};
ghost use Rattle.kept_lines.specs.Sums.{samples_of};

use exact_fraction::Leaf;
use kept_lines::objective_sums;
use office_derived::Derived;
use office_history::Measure;
use std::marker::Brand;
use std::sync::ledger::{Blank, Ledger};
use sum_pages::Steps;
use window_sums::WindowSums;

/// The sum over [from, to). No one counts the steps.
fn sum_of<L: Ledger>(sums: &WindowSums, from: u32, to: u32, blank: Blank) -> Leaf
    requires order { from ≤ to }
    requires blank { (blank.name ≡ L.name) × (blank.parts ≡ L.parts) × (0 < L.parts) }
    ensures value { result ≡ sum_of_slices (width_of sums.now.method) (leaf_at sums.now) from to }
    ensures part { result.num ≤ result.den }
    ensures few { result.den ≤ most_events }
{
    let mut steps = Steps::<L>::new(blank);
    sums.sum(from, to, &mut steps)
}

/// The same, for a caller that counts no steps either.
pub(crate) fn sum_in(sums: &WindowSums, from: u32, to: u32) -> Leaf
    requires order { from ≤ to }
    ensures value { result ≡ sum_of_slices (width_of sums.now.method) (leaf_at sums.now) from to }
    ensures part { result.num ≤ result.den }
    ensures few { result.den ≤ most_events }
{
    sum_of::<Brand>(sums, from, to, Blank::new(1))
}

/// What an objective counts in [from, to). Takes no memory.
pub(crate) fn sum_between(derived: &Derived, measure: &Measure, from: u32, to: u32) -> Leaf
    requires sound { IsSound derived.now }
    requires objective { IsObjective derived.now.catalog measure.now }
    requires order { from ≤ to }
    ensures value { result ≡ sum_between_def (samples_of derived.now.book) measure.now from to }
    ensures part { result.num ≤ result.den }
    ensures few { result.den ≤ most_events }
{
    let sums = objective_sums(derived, measure);
    sum_in(sums, from, to)
}
