//! Sums over slices by the counts of each.
ghost use Rattle.std.specs.Prelude.{◌≡◌, ℕ, ◌+◌, ◌-◌, ◌*◌, ◌/◌, ◌%◌, ◌<◌, ◌≤◌, ◌==◌, ◌||◌};
ghost use Rattle.std.specs.Prelude.{length, false, IfOk, IsTrue, [], OnOk, OnErr};
ghost use Rattle.std.specs.Prelude.{if◌then◌else◌};
ghost use Rattle.std.specs.Int.{◌∣◌};
ghost use Rattle.slice_method.specs.Leaves.{leaf};
ghost use Rattle.slo_limits.specs.declared.TheConstants.{MAX_LOOKBACK, MINUTES_A_DAY};
ghost use Rattle.slo_terms.specs.Sums.{AreFew, AreSound, most_events, slice_from, slices_until};
ghost use Rattle.slo_terms.specs.Sums.{sum_of_slices};
ghost use Rattle.sum_pages.specs.DayTables.{is_day_of, values_of_day};
ghost use Rattle.window_sums.specs.Slices.{AreCounted, IsPart, counts_after, counts_events};
ghost use Rattle.window_sums.specs.Slices.{counts_of, counts_outside, counts_without, day_of};
ghost use Rattle.window_sums.specs.Slices.{days_with, has_day, leaf_at, no_counts, slice_of};
ghost use Rattle.window_sums.specs.Slices.{slices_a_day, width_of};

use crate::counts::{NO_COUNTS, counts_events, counts_in, exchanged};
use crate::day::Day;
use crate::emptiness;
use crate::range::sum_slots;
use crate::widths::{slices_a_day, slices_an_hour, width_of};
use exact_fraction::Leaf;
use indexmap::IndexMap;
use slice_method::{Counts, Method, leaf_of};
use slo_limits::MINUTES_A_DAY;
use std::alloc::{AllocError, Global};
use std::marker::Model;
use std::sync::ledger::Ledger;
use sum_pages::{Steps, SumPages, value_on};

/// The counts of each slice of time, and pages of their leaves, from which sums over ranges are
/// made. A slice of a day that isn't there has the counts (0, 0).
///
/// Where events are counted the leaf of a slice is its counts, so `days` stays without any.
#[derive(Drop)]
pub struct WindowSums {
    method: Method,
    days: IndexMap<u32, Day>,
    pages: SumPages,
}

impl Model for WindowSums {
    ghost use Rattle.window_sums.specs.Slices.{CountedDays, DaysAreKept, counted_days};

    ghost Value = { CountedDays };

    ghost view = { λ a. counted_days a.method a.days.entries a.pages };

    ghost invariant = { λ a. DaysAreKept a.method a.days.entries a.pages };
}

impl WindowSums {
    /// Sums of a method, with no day. The width of the slices divides an hour. Takes no memory.
    pub fn new(alloc: Global, method: Method) -> WindowSums
        requires width { width_of method ∣ 60 }
        ensures method { result.method ≡ method }
        ensures days { result.days ≡ [] }
    {
        WindowSums {
            method,
            days: IndexMap::new(alloc),
            pages: SumPages::new(alloc, slices_an_hour(&method)),
        }
    }

    /// The same sums once more. No slice is read.
    ///
    /// # Errors
    ///
    /// Memory ran out.
    pub fn copy(&self) -> Result<WindowSums, AllocError>
        ensures { IfOk result (λ copy. copy ≡ self.now) }
    {
        let days = self.days.clone()?;
        let pages = self.pages.copy()?;
        Ok(WindowSums {
            method: self.method,
            days,
            pages,
        })
    }

    /// The method that was given to `new`.
    pub fn method(&self) -> Method
        ensures { result ≡ self.now.method }
    {
        self.method
    }

    /// How many minutes a slice has: a divisor of 60.
    pub fn width(&self) -> u32
        ensures value { result ≡ width_of self.now.method }
        ensures some { 0 < result }
        ensures few { result ≤ 60 }
        ensures divides { result ∣ 60 }
    {
        width_of(&self.method)
    }

    /// How many slices a day has.
    pub fn slices_a_day(&self) -> u32
        ensures value { result ≡ slices_a_day self.now.method }
        ensures some { 0 < result }
    {
        slices_a_day(&self.method)
    }

    /// No work: what is kept of the counts.
    fn counted(&self)
        ensures { AreCounted self.now }
    {
        let _method = &self.method;
    }

    /// No work: what holds of the leaves of all slices.
    pub fn sound(&self)
        ensures { AreSound (leaf_at self.now) }
    {
        let _method = &self.method;
    }

    /// Whether a day is there.
    pub fn has_day(&self, day: u32) -> bool
        ensures { result ≡ has_day self.now day }
    {
        if counts_events(&self.method) {
            return self.pages.has_day(day);
        }
        self.days.contains_key(&day)
    }

    /// Makes the day of a minute be there. After an error all is as before.
    pub fn reserve(&mut self, minute: u32) -> Result<(), AllocError>
        ensures method { self.new.method ≡ self.old.method }
        ensures counts { (slice : ℕ) → counts_of self.new slice ≡ counts_of self.old slice }
        ensures days { OnOk result ((day : ℕ)
            → has_day self.new day ≡ (has_day self.old day || day == day_of minute)) }
        ensures unchanged { OnErr result (self.new ≡ self.old) }
    {
        let day = minute / MINUTES_A_DAY;
        if self.has_day(day) {
            return Ok(());
        }
        self.pages.reserve_day(day)?;
        if counts_events(&self.method) {
            return Ok(());
        }
        let alloc = *self.days.allocator();
        let slices = Day::empty(alloc, slices_a_day(&self.method) as usize)?;
        self.days.insert(day, slices)?;
        Ok(())
    }

    /// Takes `before` from the counts of the slice of a minute, whose day is there, and adds
    /// `after`. All else stays, and no memory is taken. All slices together then have at most
    /// 4 * 10^15 events, and their leaves add up to no greater den.
    pub fn change(&mut self, minute: u32, before: Counts, after: Counts)
        requires day { IsTrue (has_day self.old (day_of minute)) }
        requires good { before.good ≤ (counts_of self.old (slice_of self.old.method minute)).good }
        requires total { before.total ≤ (counts_of self.old
            (slice_of self.old.method minute)).total }
        requires part { IsPart (counts_after self.old minute before after
            (slice_of self.old.method minute)) }
        requires events { AreFew (λ slice. (counts_after self.old minute before after
            slice).total) }
        requires leaves { AreFew (λ slice. (leaf self.old.method
            (counts_after self.old minute before after slice)).den) }
        ensures method { self.new.method ≡ self.old.method }
        ensures counts { (slice : ℕ) → counts_of self.new slice
            ≡ counts_after self.old minute before after slice }
        ensures days { (day : ℕ) → has_day self.new day ≡ has_day self.old day }
    {
        let slice = minute / width_of(&self.method);
        let counts = exchanged(self.counts_at(slice), before, after);
        put_in(&mut self.days, &self.method, slice, counts);
        self.pages.set(slice, leaf_of(self.method, counts));
    }

    /// The counts of a slice.
    pub fn counts_at(&self, slice: u32) -> Counts
        ensures { result ≡ counts_of self.now slice }
    {
        if counts_events(&self.method) {
            return counts_in(&self.pages, slice);
        }
        let slices = slices_a_day(&self.method);
        match value_on(&self.days, slice / slices) {
            Some(day) => day.at((slice % slices) as usize),
            None => NO_COUNTS,
        }
    }

    /// Takes away what was counted in a slice.
    fn clear_slice(&mut self, slice: u32)
        requires early { slice * width_of self.old.method ≤ 4294967295 }
        ensures method { self.new.method ≡ self.old.method }
        ensures counts { (other : ℕ) → counts_of self.new other
            ≡ (if other == slice then no_counts else counts_of self.old other) }
        ensures days { (day : ℕ) → has_day self.new day ≡ has_day self.old day }
    {
        let counts = self.counts_at(slice);
        if counts == NO_COUNTS {
            return;
        }
        self.counted();
        self.change(slice * self.width(), counts, NO_COUNTS);
    }

    /// Takes away what was counted in those slices of a day that lie from the first up to the end.
    fn clear_on_day(&mut self, day: u32, first: u32, end: u32)
        requires early { end * width_of self.old.method ≤ 4294967295 }
        requires day { day * slices_a_day self.old.method < end }
        ensures method { self.new.method ≡ self.old.method }
        ensures counts { (slice : ℕ) → counts_of self.new slice
            ≡ (if slice / slices_a_day self.old.method == day
            then counts_without self.old first end slice else counts_of self.old slice) }
        ensures days { (day : ℕ) → has_day self.new day ≡ has_day self.old day }
    {
        if !self.has_day(day) {
            return;
        }
        let slices = self.slices_a_day();
        let start = day * slices;
        let until = start + slices.min(end - start);
        for slice in start.max(first)..until {
            self.clear_slice(slice);
        }
    }

    /// Takes away what was counted in all slices that lie wholly in [from, to). All else stays, and
    /// no memory is taken.
    pub fn clear(&mut self, from: u32, to: u32)
        ensures method { self.new.method ≡ self.old.method }
        ensures counts { (slice : ℕ) → counts_of self.new slice
            ≡ counts_outside self.old from to slice }
        ensures days { (day : ℕ) → has_day self.new day ≡ has_day self.old day }
    {
        let width = self.width();
        let slices = self.slices_a_day();
        let first = from.div_ceil(width);
        let end = to / width;
        for day in first / slices..end.div_ceil(slices) {
            self.clear_on_day(day, first, end);
        }
    }

    /// The leaf of a slice, in one step: (0, 0) where its day isn't there.
    pub fn slice<L: Ledger>(&self, slice: u32, steps: &mut Steps<L>) -> Leaf
        ensures value { result ≡ leaf_at self.now slice }
        ensures cost { steps.new ≡ steps.old + 1 }
    {
        self.pages.read_leaf(slice, steps)
    }

    /// The leaves of all slices that lie wholly in [from, to), added up. A step is a leaf, an
    /// hour's total or a day's that is read: at most one for each slice, and at most 600 where the
    /// range has at most 400 days.
    pub fn sum<L: Ledger>(&self, from: u32, to: u32, steps: &mut Steps<L>) -> Leaf
        requires range { from ≤ to }
        ensures value { result ≡ sum_of_slices (width_of self.now.method) (leaf_at self.now) from
            to }
        ensures part { result.num ≤ result.den }
        ensures few { result.den ≤ most_events }
        ensures bounded { to - from ≤ 400 * MINUTES_A_DAY → steps.new ≤ steps.old + 600 }
        ensures short { steps.new ≤ steps.old
            + (slices_until (width_of self.now.method) to
            - slice_from (width_of self.now.method) from) }
    {
        self.sound();
        let width = width_of(&self.method);
        sum_slots(&self.pages, from.div_ceil(width), to / width, steps)
    }

    /// Whether no slice that lies wholly in [from, to) has an event: the den of their sum is 0. The
    /// reads of `sum`, from the end on, up to the first total above 0: at most 600 over 30 days.
    pub fn is_empty<L: Ledger>(&self, from: u32, to: u32, steps: &mut Steps<L>) -> bool
        ensures value { result ≡ ((sum_of_slices (width_of self.now.method) (leaf_at self.now) from
            to).den == 0) }
        ensures bounded { to - from ≤ MAX_LOOKBACK → steps.new ≤ steps.old + 600 }
    {
        let width = width_of(&self.method);
        emptiness::is_empty(&self.pages, from.div_ceil(width), to / width, steps)
    }
}

/// Puts the counts of a slice, whose day is there, into the days, where these aren't the leaves.
fn put_in(days: &mut IndexMap<u32, Day>, method: &Method, slice: u32, counts: Counts)
    requires width { width_of method.now ∣ 60 }
    requires there { counts_events method.now ≡ false
        → IsTrue (is_day_of days.old.entries (slice / slices_a_day method.now)) }
    requires within { counts_events method.now ≡ false → slice % slices_a_day method.now
        < length (values_of_day days.old.entries (slice / slices_a_day method.now)) }
    ensures { days.new.entries ≡ days_with method.now days.old.entries slice counts }
{
    if counts_events(method) {
        return;
    }
    let slices = slices_a_day(method);
    let index = days.get_index_of(&(slice / slices)).unwrap();
    let day = &mut days[index];
    day.set((slice % slices) as usize, counts);
}
