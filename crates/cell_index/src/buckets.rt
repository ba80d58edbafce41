//! Keys shared out among buckets, each linked to the one before it of its bucket.
//!
//! The minutes of a sixteen (of one indicator and source) have neighbouring buckets, so that rows
//! in the order of their minutes find what they need in few lines of memory.
ghost use Rattle.std.specs.Prelude.{◌≡◌, ◌<◌, ◌≤◌, ◌+◌, ◌*◌, ◌++◌, ◌∷◌, [], ℕ, List, length, OnOk};
ghost use Rattle.std.specs.Prelude.{slice_index, ◌^◌, OnErr};
ghost use Rattle.cell_index.specs.Chains.{below, last};
ghost use Rattle.cell_index.specs.Keys.{key_eq};
ghost use Rattle.cell_index.specs.Places.{AreIn, BlocksAreWhole, bucket_of, spread};
ghost use Rattle.cell_index.specs.declared.cells.Key.{Key};

use crate::cells::Key;
use std::alloc::{AllocError, Global};

/// Odd factors with their bits well mixed, so that keys which differ little have buckets far apart.
const PAIR_FACTOR: u64 = 14_029_467_366_897_019_727;

/// The factor of a sixteen of minutes.
const SIXTEEN_FACTOR: u64 = 15_485_863_157_411_823_079;

/// More blocks than this aren't made: they have a bucket for each number of a place.
const MOST_BLOCKS: u32 = 268_435_456;

/// Buckets are made anew, twice as many, where so many keys come on each. With one a bucket they
/// would take up to 8 bytes a key, with three at most 2.7, and a look-up passes few more keys.
const KEYS_A_BUCKET: usize = 3;

/// The places of keys, by their buckets.
#[derive(Drop)]
pub(crate) struct Buckets {
    /// How many blocks of sixteen buckets there are.
    pub(crate) blocks: u32,
    /// One more than the place of the last key of each bucket, or 0.
    pub(crate) lasts: Vec<u32>,
    /// Of each key one more than the place of the one before it in its bucket, or 0.
    pub(crate) links: Vec<u32>,
}

impl Buckets {
    /// No keys, and no buckets.
    pub(crate) fn new(alloc: Global) -> Buckets
        ensures shelved { AreIn [] result }
        ensures whole { BlocksAreWhole result }
        ensures none { result.blocks ≡ 0 }
    {
        Buckets {
            blocks: 0,
            lasts: Vec::new(alloc),
            links: Vec::new(alloc),
        }
    }

    /// One more than the place of the last key in the bucket of this one, or 0.
    pub(crate) fn last(&self, key: &Key) -> u32
        ensures { result ≡ slice_index self.now.lasts.items (bucket_of self.now.blocks key.now) }
    {
        match self.lasts.get(bucket_of(self.blocks, key)) {
            Some(last) => *last,
            None => 0,
        }
    }

    /// Links a key that stands behind the others.
    pub(crate) fn link(&mut self, place: usize, key: &Key)
        requires whole { BlocksAreWhole self.old }
        requires some { 0 < self.old.blocks }
        requires there { place < length self.old.links.items }
        requires few { place < 4294967295 }
        ensures shelved { (keys : List Key) → length keys ≡ place → AreIn keys self.old
            → AreIn (keys ++ key.now ∷ []) self.new }
        ensures whole { BlocksAreWhole self.new }
        ensures blocks { self.new.blocks ≡ self.old.blocks }
        ensures links { length self.new.links.items ≡ length self.old.links.items }
    {
        let bucket = bucket_of(self.blocks, key);
        self.links[place] = self.lasts[bucket];
        self.lasts[bucket] = place as u32 + 1;
    }

    /// Takes the last key out of its bucket.
    pub(crate) fn unlink(&mut self, place: usize, key: &Key)
        requires whole { BlocksAreWhole self.old }
        requires some { 0 < self.old.blocks }
        requires there { place < length self.old.links.items }
        ensures shelved { (keys : List Key) → length keys ≡ place
            → AreIn (keys ++ key.now ∷ []) self.old → AreIn keys self.new }
        ensures whole { BlocksAreWhole self.new }
        ensures blocks { self.new.blocks ≡ self.old.blocks }
    {
        let bucket = bucket_of(self.blocks, key);
        self.lasts[bucket] = self.links[place];
    }

    /// Room for the link of one key more, where there are so many.
    fn make_link(&mut self, place: usize) -> Result<(), AllocError>
        ensures shelved { (keys : List Key) → AreIn keys self.old → AreIn keys self.new }
        ensures whole { BlocksAreWhole self.old → BlocksAreWhole self.new }
        ensures blocks { self.new.blocks ≡ self.old.blocks }
        ensures there { OnOk result (place ≤ length self.old.links.items
            → place < length self.new.links.items) }
    {
        if place < self.links.len() {
            return Ok(());
        }
        self.links.extend_from_slice(&[0u32])
    }

    /// Empties the buckets, of which there are so many blocks then.
    fn reset(&mut self, blocks: u32) -> Result<(), AllocError>
        requires { blocks ≤ MOST_BLOCKS }
        ensures shelved { OnOk result (AreIn [] self.new) }
        ensures whole { BlocksAreWhole self.old → BlocksAreWhole self.new }
        ensures blocks { OnOk result (self.new.blocks ≡ blocks) }
        ensures links { self.new.links.items ≡ self.old.links.items }
        ensures err { OnErr result ((keys : List Key) → AreIn keys self.old → AreIn keys self.new) }
        ensures same { OnErr result (self.new.blocks ≡ self.old.blocks) }
    {
        let count = blocks as usize * 16;
        self.lasts.reserve(count.saturating_sub(self.lasts.len()))?;
        self.lasts.clear();
        self.lasts.resize(count, 0).unwrap();
        self.blocks = blocks;
        Ok(())
    }
}

/// A number that differs between most sixteens of minutes of a pair.
#[tactic(auto, unfolding(crate::specs::Places::spread))]
fn spread(key: &Key) -> u32
    ensures number { result ≡ spread key.now }
    ensures few { result < 2 ^ 32 }
{
    let pair = u64::from(key.pair).wrapping_mul(PAIR_FACTOR);
    let sixteen = u64::from(key.minute / 16).wrapping_mul(SIXTEEN_FACTOR);
    (pair.wrapping_add(sixteen) / 4_294_967_296) as u32
}

/// The bucket of a key among so many blocks.
#[tactic(auto, unfolding(crate::specs::Places::bucket_of))]
fn bucket_of(blocks: u32, key: &Key) -> usize
    ensures bucket { result ≡ bucket_of blocks key.now }
    ensures within { 0 < blocks → result < 16 * blocks }
{
    let spread = u64::from(spread(key));
    let block = spread * u64::from(blocks) / 4_294_967_296;
    (block * 16 + (spread + u64::from(key.minute % 16)) % 16) as usize
}

/// Where a key stands among the keys of these buckets, from the last on.
pub(crate) fn place_of(keys: &[Key], buckets: &Buckets, key: &Key) -> Option<usize>
    requires { AreIn keys.now buckets.now }
    ensures { result ≡ below (last (key_eq key.now) keys.now) }
{
    let mut next = buckets.last(key);
    while 0 < next {
        let place = next as usize - 1;
        if keys[place] == *key {
            return Some(place);
        }
        next = buckets.links[place];
    }
    None
}

/// Shares all keys out among empty buckets.
fn link_all(keys: &[Key], buckets: &mut Buckets)
    requires shelved { AreIn [] buckets.old }
    requires whole { BlocksAreWhole buckets.old }
    requires some { 0 < buckets.old.blocks }
    requires enough { length keys.now ≤ length buckets.old.links.items }
    requires few { length keys.now ≤ 4294967295 }
    ensures shelved { AreIn keys.now buckets.new }
    ensures whole { BlocksAreWhole buckets.new }
    ensures blocks { buckets.new.blocks ≡ buckets.old.blocks }
{
    for (place, key) in keys.iter().enumerate() {
        buckets.link(place, key);
    }
}

/// Makes twice as many buckets where there are too few, and room for a link more.
pub(crate) fn make_buckets(keys: &[Key], buckets: &mut Buckets) -> Result<(), AllocError>
    requires shelved { AreIn keys.now buckets.old }
    requires whole { BlocksAreWhole buckets.old }
    requires few { length keys.now ≤ 4294967295 }
    ensures shelved { AreIn keys.now buckets.new }
    ensures whole { BlocksAreWhole buckets.new }
    ensures some { OnOk result (0 < buckets.new.blocks) }
    ensures more { 0 < buckets.old.blocks → 0 < buckets.new.blocks }
    ensures there { OnOk result (length keys.now < length buckets.new.links.items) }
{
    let blocks = wanted_blocks(buckets.blocks, keys.len());
    if buckets.blocks < blocks {
        buckets.reset(blocks)?;
        link_all(keys, buckets);
    }
    buckets.make_link(keys.len())
}

/// How many blocks there are to be for so many keys and one more.
fn wanted_blocks(blocks: u32, keys: usize) -> u32
    ensures some { 0 < result }
    ensures few { blocks < result → result ≤ MOST_BLOCKS }
{
    if keys < blocks as usize * 16 * KEYS_A_BUCKET || MOST_BLOCKS <= blocks {
        return blocks.max(1);
    }
    (blocks * 2).clamp(1, MOST_BLOCKS)
}
