//! Items in groups, each linked to the one before it of its group.
ghost use Rattle.std.specs.Prelude.{◌≡◌, ◌<◌, ◌≤◌, ◌+◌, ◌++◌, ◌∷◌, [], ℕ, List, Some, OnOk, length};
ghost use Rattle.std.specs.Prelude.{slice_get, take, true, if◌then◌else◌};
ghost use Rattle.indexmap.specs.IndexMap.{IsUnique, get, spare};
ghost use Rattle.cell_index.specs.Chains.{AreLinked, HasRoomFor, group_eq, last, link_of};

use exact_fraction::Label;
use indexmap::IndexMap;
use std::alloc::{AllocError, Global};

/// A place and one more is a `u32`.
const MOST_ITEMS: usize = 4_294_967_295;

/// What links items: the name of an indicator or an objective, and a day where it counts.
#[derive(Clone, Copy, PartialEq, Eq, Hash)]
pub struct Group {
    pub name: Label,
    pub day: u32,
}

/// Items in groups: the last one of each group, and from each the one before it.
#[derive(Drop)]
pub struct Chains {
    /// One more than the place of the last item of each group.
    pub lasts: IndexMap<Group, u32>,
    /// Where the group of the latest item is in that map: most items are of the group before them,
    /// so this is tried before a look-up. Nothing rests on it.
    latest: usize,
    /// Of each item one more than the place of the one before it of its group, or 0.
    pub links: Vec<u32>,
}

impl Chains {
    /// No items.
    pub fn new(alloc: Global) -> Chains
        ensures linked { AreLinked [] result }
        ensures room { HasRoomFor 0 result }
    {
        Chains {
            lasts: IndexMap::new(alloc),
            latest: 0,
            links: Vec::new(alloc),
        }
    }

    /// How many items there are.
    pub fn len(&self) -> u32
        requires few { length self.now.links.items ≤ MOST_ITEMS }
        ensures { result ≡ length self.now.links.items }
    {
        self.links.len() as u32
    }

    /// One more than the place of the last item of a group, or 0.
    pub fn last(&self, group: Group) -> u32
        ensures { (groups : List Group) → AreLinked groups self.now
            → result ≡ last (group_eq group) groups }
    {
        match self.lasts.get(&group) {
            Some(last) => *last,
            None => 0,
        }
    }

    /// The same of the items before a place, for the group of the item there.
    pub fn before(&self, place: usize) -> u32
        requires { place < length self.now.links.items }
        ensures { (groups : List Group) (group : Group) → AreLinked groups self.now
            → slice_get groups place ≡ Some group
            → result ≡ last (group_eq group) (take place groups) }
    {
        self.links[place]
    }

    /// Makes room for so many items more. The chains stay those of their items.
    pub fn reserve(&mut self, count: usize) -> Result<(), AllocError>
        ensures linked { (groups : List Group) → AreLinked groups self.old
            → AreLinked groups self.new }
        ensures room { OnOk result (HasRoomFor count self.new) }
        ensures stays { (fewer : ℕ) → HasRoomFor fewer self.old → HasRoomFor fewer self.new }
    {
        self.lasts.reserve(count)?;
        self.links.reserve(count)
    }

    /// Adds an item behind the others, with no memory. It answers one more than the place of the
    /// item before it of its group, or 0.
    pub fn push(&mut self, group: Group) -> u32
        requires room { HasRoomFor 1 self.old }
        requires few { length self.old.links.items < MOST_ITEMS }
        ensures before { (groups : List Group) → AreLinked groups self.old
            → result ≡ last (group_eq group) groups }
        ensures linked { (groups : List Group) → AreLinked groups self.old
            → AreLinked (groups ++ group ∷ []) self.new }
        ensures room { (count : ℕ) → HasRoomFor (count + 1) self.old → HasRoomFor count self.new }
    {
        let place = self.links.len() as u32;
        let (latest, before) = exchange(&mut self.lasts, self.latest, group, place + 1);
        self.latest = latest;
        self.links.extend_from_slice(&[before]).unwrap();
        before
    }
}

/// Notes the last item of a group: where the group is in the map, and what was noted before.
fn exchange(lasts: &mut IndexMap<Group, u32>, guess: usize, group: Group, link: u32) -> (usize, u32)
    requires { 0 < spare lasts.old }
    ensures before { result.1 ≡ link_of (get group_eq lasts.old group) }
    ensures after { (other : Group) → get group_eq lasts.new other
        ≡ (if group_eq group other then Some link else get group_eq lasts.old other) }
    ensures spare { spare lasts.old ≤ spare lasts.new + 1 }
{
    if is_at(lasts, guess, &group) {
        let before = lasts[guess];
        lasts[guess] = link;
        return (guess, before);
    }
    let (place, before) = lasts.insert_full(group, link).unwrap();
    (place, link_of(before))
}

/// Whether a group is at this place of the map.
fn is_at(lasts: &IndexMap<Group, u32>, place: usize, group: &Group) -> bool
    ensures there { result ≡ true → (link : ℕ)
        × (slice_get lasts.now.entries place ≡ Some (group.now, link))
        × (get group_eq lasts.now group.now ≡ Some link) }
    ensures unique { IsUnique group_eq lasts.now }
{
    if lasts.len() <= place {
        return false;
    }
    match lasts.get_index(place) {
        Some((there, _)) => *there == *group,
        None => false,
    }
}

/// A link, or 0 where there is none.
fn link_of(last: Option<u32>) -> u32
    ensures { result ≡ link_of last }
{
    last.unwrap_or(0)
}
