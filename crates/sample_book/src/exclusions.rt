//! Stretches of time that are excluded afterwards.
ghost use Rattle.std.specs.Prelude.{ℕ, List, ◌||◌, ◌≡◌, ◌+◌, ◌<◌, ◌≤◌, ◌++◌, ◌∷◌, [], true, Some};
ghost use Rattle.std.specs.Prelude.{None, OnOk, false, length, map, slice_get};
ghost use Rattle.sample_book.specs.Exclusions.{HaveOwnIds, excludes, exclusion_of, is_excluded};
ghost use Rattle.sample_book.specs.Exclusions.{after_lifting};

use crate::reaches::{
    ExclusionHint, Reach, has_reach_of, is_reached, is_reached_near, make_reaches,
};
use exact_fraction::Label;
use std::alloc::{AllocError, Global};
use std::marker::Model;

/// A place in the list is a `u32`.
const MOST_EXCLUSIONS: usize = 4_294_967_295;

/// Maintenance that is excluded: what the rows of these minutes say doesn't count for the
/// objectives of an SLO, also after it was counted (`docs/rules.md`, 'Exclusions'; OpenSLO v1 has
/// no object for it).
#[derive(Clone, Copy, PartialEq, Eq)]
pub struct Exclusion {
    pub id: Label,
    pub slo: Label,
    /// The first minute, counted from 1970-01-01T00:00Z.
    pub from: u32,
    /// The minute behind the last one.
    pub to: u32,
}

/// The exclusions that were made, and how far those reach that are live.
#[derive(Drop)]
pub(crate) struct Exclusions {
    /// Each with whether it is live, in the order in which they were made.
    made: Vec<(Exclusion, bool)>,
    /// The live ones in the order of their SLOs and first minutes.
    reaches: Vec<Reach>,
    /// So many more can be made, and listed, without memory.
    room: usize,
}

impl Model for Exclusions {
    ghost use Rattle.std.specs.Prelude.{vec_capacity};
    ghost use Rattle.sample_book.specs.Exclusions.{Kept};
    ghost use Rattle.sample_book.specs.Reaches.{AreListed};

    ghost Value = { Kept };

    ghost view = { λ a. record {
      made = a.made.items;
      spare = a.room;
    } };

    ghost invariant = { λ a. AreListed a.made.items a.reaches.items a.room (vec_capacity a.made)
        (vec_capacity a.reaches) };
}

impl Exclusions {
    /// No exclusions.
    pub(crate) fn new(alloc: Global) -> Exclusions
        ensures { result.made ≡ [] }
    {
        Exclusions {
            made: Vec::new(alloc),
            reaches: Vec::new(alloc),
            room: 0,
        }
    }

    /// How many exclusions were made.
    pub(crate) fn count(&self) -> u32
        ensures { result ≡ length self.now.made }
    {
        self.made.len() as u32
    }

    /// No two exclusions have one id.
    pub(crate) fn have_own_ids(&self)
        ensures { HaveOwnIds self.now.made }
    {
        let _count = self.made.len();
    }

    /// The exclusion of an id, and whether it is live.
    pub(crate) fn find(&self, id: Label) -> Option<(Exclusion, bool)>
        ensures { result ≡ exclusion_of self.now.made id }
    {
        for kept in &self.made {
            if kept.0.id == id {
                return Some(*kept);
            }
        }
        None
    }

    /// The exclusion at a place of the list, and whether it is live.
    pub(crate) fn at(&self, place: usize) -> Option<(Exclusion, bool)>
        ensures { result ≡ slice_get self.now.made place }
    {
        self.made.get(place).copied()
    }

    /// Whether a live exclusion of the objective has the minute.
    pub(crate) fn is_excluded(&self, slo: Label, minute: u32) -> bool
        ensures { result ≡ is_excluded self.now.made slo minute }
    {
        is_reached(&self.reaches, slo, minute)
    }

    /// The same, by a look at the place where the look before ended.
    pub(crate) fn excluded_near(&self, slo: Label, minute: u32, hint: &mut ExclusionHint) -> bool
        ensures { result ≡ is_excluded self.now.made slo minute }
    {
        is_reached_near(&self.reaches, slo, minute, hint)
    }

    /// Whether an exclusion of the objective is live: else none of its minutes is excluded.
    pub(crate) fn has_live(&self, slo: Label) -> bool
        ensures { result ≡ false → (minute : ℕ) → is_excluded self.now.made slo minute ≡ false }
    {
        has_reach_of(&self.reaches, slo)
    }

    /// Makes room for so many exclusions.
    pub(crate) fn reserve(&mut self, places: usize) -> Result<(), AllocError>
        ensures made { self.new.made ≡ self.old.made }
        ensures spare { OnOk result (places ≤ self.new.spare) }
    {
        if MOST_EXCLUSIONS - self.made.len() < places {
            return Err(AllocError);
        }
        let listed = self.reaches.len();
        self.reaches.reserve(self.made.len() + places - listed)?;
        self.made.reserve(places)?;
        self.room = self.room.max(places);
        Ok(())
    }

    /// Adds an exclusion, which is live, with no memory.
    pub(crate) fn exclude(&mut self, value: Exclusion)
        requires spare { 0 < self.old.spare }
        requires unused { exclusion_of self.old.made value.id ≡ None }
        ensures made { self.new.made ≡ self.old.made ++ (value, true) ∷ [] }
        ensures spare { self.old.spare ≤ self.new.spare + 1 }
    {
        self.made.extend_from_slice(&[(value, true)]).unwrap();
        make_reaches(&self.made, &mut self.reaches);
        self.room -= 1;
    }

    /// Lifts the exclusion of an id, with no memory.
    pub(crate) fn lift(&mut self, id: Label)
        ensures made { self.new.made ≡ after_lifting self.old.made id }
        ensures minutes { (value : Exclusion) (slo : List ℕ) (minute : ℕ)
            → exclusion_of self.old.made id ≡ Some (value, true)
            → is_excluded self.old.made slo minute
            ≡ (is_excluded self.new.made slo minute || excludes slo minute (value, true)) }
        ensures spare { self.new.spare ≡ self.old.spare }
    {
        for kept in self.made.iter_mut() {
            kept.1 &= kept.0.id != id;
        }
        make_reaches(&self.made, &mut self.reaches);
    }
}
