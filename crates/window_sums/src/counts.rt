//! Counts that are exchanged, and those that stand in a leaf.
ghost use Rattle.std.specs.Prelude.{◌≡◌, ◌<◌};
ghost use Rattle.sum_pages.specs.Pages.{leaf_at};
ghost use Rattle.window_sums.specs.Slices.{MayExchange, counts_events, leaf_counts, new_counts};

use slice_method::{Counts, Method};
use std::marker::Brand;
use std::sync::ledger::{Blank, Ledger};
use sum_pages::{Steps, SumPages};

/// The counts of a slice without data.
pub(crate) const NO_COUNTS: Counts = Counts { good: 0, total: 0 };

/// Whether events are counted, so that the leaf of a slice is its counts.
pub(crate) fn counts_events(method: &Method) -> bool
    ensures { result ≡ counts_events method.now }
{
    matches!(method, Method::Occurrences)
}

/// Counts that lose `before` and gain `after`.
pub(crate) fn exchanged(counts: Counts, before: Counts, after: Counts) -> Counts
    requires { MayExchange counts before after }
    ensures { result ≡ new_counts counts before after }
{
    Counts {
        good: counts.good - before.good + after.good,
        total: counts.total - before.total + after.total,
    }
}

/// The counts that stand in the leaf of a slice. No one counts the step.
pub(crate) fn counts_in(pages: &SumPages, slice: u32) -> Counts
    ensures { result ≡ leaf_counts (leaf_at pages.now slice) }
{
    read_counts::<Brand>(pages, slice, Blank::new(1))
}

fn read_counts<L: Ledger>(pages: &SumPages, slice: u32, blank: Blank) -> Counts
    requires blank { (blank.name ≡ L.name) × (blank.parts ≡ L.parts) × (0 < L.parts) }
    ensures { result ≡ leaf_counts (leaf_at pages.now slice) }
{
    let mut steps = Steps::<L>::new(blank);
    let leaf = pages.read_leaf(slice, &mut steps);
    Counts {
        good: leaf.num,
        total: leaf.den,
    }
}
