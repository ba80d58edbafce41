//! The leaves of the slots of one day, with the totals of its hours and its own.
ghost use Rattle.std.specs.Prelude.{◌≡◌, ◌+◌, ◌-◌, ◌*◌, ◌/◌, ◌<◌, ◌≤◌, ◌^◌, IfOk, length};
ghost use Rattle.std.specs.Prelude.{replicate, slice_set};
ghost use Rattle.slo_terms.specs.Sums.{leaves_over, most_events};
ghost use Rattle.sum_pages.specs.Pages.{MayExchange, new_total, leaf_in};

use exact_fraction::Leaf;
use std::alloc::{AllocError, Global};
use std::marker::Model;

/// The hours of a day.
pub(crate) const HOURS_A_DAY: u32 = 24;

/// The leaf of a slot without data.
pub(crate) const NO_LEAF: Leaf = Leaf { num: 0, den: 0 };

/// The leaves of a day.
#[derive(Drop)]
pub(crate) struct Page {
    leaves: Vec<Leaf>,
    hours: Vec<Leaf>,
    total: Leaf,
}

impl Model for Page {
    ghost use Rattle.std.specs.Prelude.{List};
    ghost use Rattle.exact_fraction.specs.declared.leaf.Leaf.{Leaf};
    ghost use Rattle.sum_pages.specs.Pages.{IsPage};

    ghost Value = { List Leaf };

    ghost view = { λ a. a.leaves.items };

    ghost invariant = { λ a. IsPage a.leaves.items a.hours.items a.total };
}

impl Page {
    /// A day without data.
    pub(crate) fn empty(alloc: Global, per_hour: u32) -> Result<Page, AllocError>
        requires { per_hour ≤ 60 }
        ensures { IfOk result (λ page. page ≡ replicate (24 * per_hour) NO_LEAF) }
    {
        let leaves = no_leaves(alloc, HOURS_A_DAY * per_hour)?;
        let hours = no_leaves(alloc, HOURS_A_DAY)?;
        Ok(Page {
            leaves,
            hours,
            total: NO_LEAF,
        })
    }

    /// The leaf of a slot of the day.
    pub(crate) fn leaf(&self, place: usize) -> Leaf
        requires { place < length self.now }
        ensures { result ≡ leaf_in self.now place }
    {
        self.leaves[place]
    }

    /// The leaves of the places from `from` up to `to`, added up.
    pub(crate) fn leaves(&self, from: usize, to: usize) -> Leaf
        requires order { from ≤ to }
        requires within { to ≤ length self.now }
        ensures { result ≡ leaves_over (leaf_in self.now) from (to - from) }
    {
        let mut sum = NO_LEAF;
        for at in from..to {
            self.are_few(from, at + 1);
            sum = plus(sum, self.leaf(at));
        }
        sum
    }

    /// No work: what holds of the leaves of some places.
    fn are_few(&self, from: usize, to: usize)
        requires order { from ≤ to }
        requires within { to ≤ length self.now }
        ensures part { (leaves_over (leaf_in self.now) from (to - from)).num
            ≤ (leaves_over (leaf_in self.now) from (to - from)).den }
        ensures few { (leaves_over (leaf_in self.now) from (to - from)).den ≤ most_events }
    {
        let _total = &self.total;
    }

    /// The leaves of an hour, added up.
    pub(crate) fn hour(&self, hour: usize) -> Leaf
        requires { hour < 24 }
        ensures { result ≡ leaves_over (leaf_in self.now) (hour * (length self.now / 24))
            (length self.now / 24) }
    {
        self.hours[hour]
    }

    /// All leaves, added up.
    pub(crate) fn total(&self) -> Leaf
        ensures { result ≡ leaves_over (leaf_in self.now) 0 (length self.now) }
    {
        self.total
    }

    /// Puts a leaf at a place, and exchanges it in the totals of its hour and of the day.
    pub(crate) fn set(&mut self, place: usize, per_hour: usize, value: Leaf)
        requires within { place < length self.old }
        requires hours { length self.old ≡ 24 * per_hour }
        requires part { value.num ≤ value.den }
        requires few { (leaves_over (leaf_in (slice_set self.old place value)) 0
            (length self.old)).den ≤ most_events }
        ensures { self.new ≡ slice_set self.old place value }
    {
        let before = self.leaf(place);
        let hour = place / per_hour;
        let of_hour = new_total(self.hour(hour), before, value);
        let of_day = new_total(self.total(), before, value);
        self.leaves[place] = value;
        self.hours[hour] = of_hour;
        self.total = of_day;
    }
}

impl Clone for Page {
    ghost is_clone = { λ page copy. copy ≡ page };

    fn clone(&self) -> Result<Page, AllocError> {
        let alloc = *self.leaves.allocator();
        let leaves = Vec::from_slice(alloc, &self.leaves)?;
        let hours = Vec::from_slice(alloc, &self.hours)?;
        Ok(Page {
            leaves,
            hours,
            total: self.total,
        })
    }
}

/// So many leaves without data.
fn no_leaves(alloc: Global, count: u32) -> Result<Vec<Leaf>, AllocError>
    ensures { IfOk result (λ leaves. leaves.items ≡ replicate count NO_LEAF) }
{
    vec![in alloc; NO_LEAF; count as usize]
}

/// A total that loses one leaf and gains another.
fn new_total(total: Leaf, before: Leaf, after: Leaf) -> Leaf
    requires { MayExchange total before after }
    ensures { result ≡ new_total total before after }
{
    Leaf {
        num: total.num - before.num + after.num,
        den: total.den - before.den + after.den,
    }
}

/// The sum of two leaves.
fn plus(a: Leaf, b: Leaf) -> Leaf
    requires part { a.num + b.num ≤ a.den + b.den }
    requires few { a.den + b.den ≤ most_events }
    ensures num { result.num ≡ a.num + b.num }
    ensures den { result.den ≡ a.den + b.den }
{
    Leaf {
        num: a.num + b.num,
        den: a.den + b.den,
    }
}
