//! Pages of leaves, by the number of the day.
ghost use Rattle.std.specs.Prelude.{◌-◌, ◌≡◌, ℕ, ◌+◌, ◌*◌, ◌/◌, ◌%◌, ◌<◌, ◌≤◌, ◌==◌, ◌||◌, nat_eq};
ghost use Rattle.std.specs.Prelude.{is_some, length, slice_set, IfOk, IsTrue, [], OnOk, OnErr};
ghost use Rattle.std.specs.Int.{◌∣◌};
ghost use Rattle.std.specs.Map.{lookup, set_value};
ghost use Rattle.slo_terms.specs.Sums.{AreFew, AreSound, leaves_over, most_events};
ghost use Rattle.sum_pages.specs.DayTables.{values_of_day};
ghost use Rattle.sum_pages.specs.Pages.{has_day, leaf_after, leaf_at, leaf_in, slots_a_day};

use crate::days::value_on;
use crate::page::{HOURS_A_DAY, NO_LEAF, Page};
use crate::slots::HourSlots;
use crate::steps::Steps;
use exact_fraction::Leaf;
use indexmap::IndexMap;
use std::alloc::{AllocError, Global};
use std::marker::Model;
use std::sync::ledger::Ledger;

/// The leaf of each slot of time, kept in a page for each day that is there. A slot of another day
/// has the leaf (0, 0). Slot 0 is the first of day 0, and `per_hour` slots make an hour.
///
/// Leaves are handed out by the three counted reads alone, so that a caller can't add them up
/// without taking steps.
#[derive(Drop)]
pub struct SumPages {
    per_hour: HourSlots,
    pages: IndexMap<u32, Page>,
}

impl Model for SumPages {
    ghost use Rattle.sum_pages.specs.Pages.{ArePages, LeafDays};

    ghost Value = { LeafDays };

    ghost view = { λ a. record { per_hour = a.per_hour; days = a.pages.entries } };

    ghost invariant = { λ a. ArePages (record { per_hour = a.per_hour; days = a.pages.entries }) };
}

impl SumPages {
    /// Pages of no day. The slots of an hour, at most one a minute, are equally long. Takes no
    /// memory.
    pub fn new(alloc: Global, per_hour: u32) -> SumPages
        requires hour { per_hour ∣ 60 }
        ensures per_hour { result.per_hour ≡ per_hour }
        ensures days { result.days ≡ [] }
    {
        SumPages {
            per_hour: HourSlots::new(per_hour),
            pages: IndexMap::new(alloc),
        }
    }

    /// The same pages once more. No leaf is handed out.
    ///
    /// # Errors
    ///
    /// Memory ran out.
    pub fn copy(&self) -> Result<SumPages, AllocError>
        ensures { IfOk result (λ copy. copy ≡ self.now) }
    {
        let pages = self.pages.clone()?;
        Ok(SumPages {
            per_hour: self.per_hour.copy(),
            pages,
        })
    }

    /// No work: what holds of the leaves of all slots.
    pub fn sound(&self)
        ensures { AreSound (leaf_at self.now) }
    {
        let _per_hour = &self.per_hour;
    }

    /// How many slots an hour has.
    pub fn per_hour(&self) -> u32
        ensures value { result ≡ self.now.per_hour }
        ensures some { 0 < result }
        ensures few { result ≤ 60 }
    {
        self.per_hour.count()
    }

    /// Whether a day is there.
    pub fn has_day(&self, day: u32) -> bool
        ensures { result ≡ has_day self.now day }
    {
        self.pages.contains_key(&day)
    }

    /// Makes a day be there, without data where it wasn't. After an error all is as before.
    pub fn reserve_day(&mut self, day: u32) -> Result<(), AllocError>
        ensures per_hour { self.new.per_hour ≡ self.old.per_hour }
        ensures leaves { (slot : ℕ) → leaf_at self.new slot ≡ leaf_at self.old slot }
        ensures days { OnOk result ((other : ℕ)
            → has_day self.new other ≡ (has_day self.old other || other == day)) }
        ensures unchanged { OnErr result (self.new ≡ self.old) }
    {
        if self.pages.contains_key(&day) {
            return Ok(());
        }
        let alloc = *self.pages.allocator();
        let page = Page::empty(alloc, self.per_hour.count())?;
        self.pages.insert(day, page)?;
        Ok(())
    }

    /// Gives a slot, whose day is there, another leaf. All slots together then have a den of at
    /// most 4 * 10^15. Takes no memory.
    pub fn set(&mut self, slot: u32, value: Leaf)
        requires day { IsTrue (has_day self.old (slot / slots_a_day self.old)) }
        requires part { value.num ≤ value.den }
        requires few { AreFew (λ other. (leaf_after self.old slot value other).den) }
        ensures per_hour { self.new.per_hour ≡ self.old.per_hour }
        ensures leaves { (other : ℕ) → leaf_at self.new other
            ≡ leaf_after self.old slot value other }
        ensures days { (day : ℕ) → has_day self.new day ≡ has_day self.old day }
    {
        let slots = self.slots_a_day();
        let place = (slot % slots) as usize;
        set_in(
            &mut self.pages,
            slot / slots,
            place,
            self.per_hour.count() as usize,
            value,
        );
    }

    /// The leaf of a slot, in one step.
    pub fn read_leaf<L: Ledger>(&self, slot: u32, steps: &mut Steps<L>) -> Leaf
        ensures value { result ≡ leaf_at self.now slot }
        ensures cost { steps.new ≡ steps.old + 1 }
    {
        steps.tick();
        let (day, place) = self.per_hour.place_of(slot);
        match value_on(&self.pages, day) {
            Some(page) => page.leaf(place as usize),
            None => NO_LEAF,
        }
    }

    /// The leaves of the slots from `from` up to `to`, of one hour, added up: a step each.
    pub fn read_leaves<L: Ledger>(&self, from: u32, to: u32, steps: &mut Steps<L>) -> Leaf
        requires order { from ≤ to }
        requires hour { to ≤ (from / self.now.per_hour + 1) * self.now.per_hour }
        ensures value { result ≡ leaves_over (leaf_at self.now) from (to - from) }
        ensures cost { steps.new ≡ steps.old + (to - from) }
    {
        steps.tick_times(to - from);
        let (day, place) = self.per_hour.place_of(from);
        match value_on(&self.pages, day) {
            Some(page) => page.leaves(place as usize, (place + (to - from)) as usize),
            None => NO_LEAF,
        }
    }

    /// The leaves of an hour added up, in one step. Hour 0 is the first of day 0.
    pub fn read_hour<L: Ledger>(&self, hour: u32, steps: &mut Steps<L>) -> Leaf
        ensures value { result ≡ leaves_over (leaf_at self.now) (hour * self.now.per_hour)
            self.now.per_hour }
        ensures cost { steps.new ≡ steps.old + 1 }
    {
        steps.tick();
        match value_on(&self.pages, hour / HOURS_A_DAY) {
            Some(page) => page.hour((hour % HOURS_A_DAY) as usize),
            None => NO_LEAF,
        }
    }

    /// The leaves of a day added up, in one step.
    pub fn read_day<L: Ledger>(&self, day: u32, steps: &mut Steps<L>) -> Leaf
        ensures value { result ≡ leaves_over (leaf_at self.now) (day * slots_a_day self.now)
            (slots_a_day self.now) }
        ensures cost { steps.new ≡ steps.old + 1 }
    {
        steps.tick();
        match value_on(&self.pages, day) {
            Some(page) => page.total(),
            None => NO_LEAF,
        }
    }

    /// How many slots a day has.
    fn slots_a_day(&self) -> u32
        ensures value { result ≡ slots_a_day self.now }
        ensures some { 0 < result }
    {
        HOURS_A_DAY * self.per_hour.count()
    }
}

/// Puts a leaf at a place of a day that is there.
fn set_in(pages: &mut IndexMap<u32, Page>, day: u32, place: usize, per_hour: usize, value: Leaf)
    requires there { IsTrue (is_some (lookup (nat_eq day) pages.old.entries)) }
    requires within { place < length (values_of_day pages.old.entries day) }
    requires hours { length (values_of_day pages.old.entries day) ≡ 24 * per_hour }
    requires part { value.num ≤ value.den }
    requires few { (leaves_over (leaf_in (slice_set (values_of_day pages.old.entries day) place
        value)) 0 (length (values_of_day pages.old.entries day))).den ≤ most_events }
    ensures { pages.new.entries ≡ set_value (nat_eq day) pages.old.entries
        (slice_set (values_of_day pages.old.entries day) place value) }
{
    let index = pages.get_index_of(&day).unwrap();
    let page = &mut pages[index];
    page.set(place, per_hour, value);
}
