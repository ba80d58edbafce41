//! Keys in the order in which they came, each found by its bucket.
ghost use Rattle.std.specs.Prelude.{◌≡◌, ◌<◌, ◌-◌, ◌++◌, ◌∷◌, [], Some, false, OnOk, OnErr, length};
ghost use Rattle.std.specs.Prelude.{slice_get, take};
ghost use Rattle.std.specs.List.{list_any, position};
ghost use Rattle.cell_index.specs.Keys.{key_eq};

use crate::buckets::{Buckets, make_buckets, place_of};
use crate::cells::Key;
use std::alloc::{AllocError, Global};
use std::marker::Model;

/// A place and one more is a `u32`.
const MOST_KEYS: usize = 4_294_967_295;

/// Keys, each once. Contracts see the list.
#[derive(Drop)]
pub(crate) struct Places {
    keys: Vec<Key>,
    buckets: Buckets,
}

impl Model for Places {
    ghost use Rattle.std.specs.Prelude.{List};
    ghost use Rattle.cell_index.specs.Places.{ArePlaced};
    ghost use Rattle.cell_index.specs.declared.cells.Key.{Key};

    ghost Value = { List Key };

    ghost view = { λ a. a.keys.items };

    ghost invariant = { λ a. ArePlaced a.keys.items a.buckets };
}

impl Places {
    /// No keys.
    pub(crate) fn new(alloc: Global) -> Places
        ensures { result ≡ [] }
    {
        Places {
            keys: Vec::new(alloc),
            buckets: Buckets::new(alloc),
        }
    }

    /// How many keys there are.
    pub(crate) fn len(&self) -> usize
        ensures { result ≡ length self.now }
    {
        self.keys.len()
    }

    /// Where a key stands.
    pub(crate) fn find(&self, key: &Key) -> Option<usize>
        ensures { result ≡ position (key_eq key.now) self.now }
    {
        place_of(&self.keys, &self.buckets, key)
    }

    /// The key at a place.
    pub(crate) fn at(&self, place: usize) -> Key
        requires { place < length self.now }
        ensures { slice_get self.now place ≡ Some result }
    {
        self.keys[place]
    }

    /// Forgets the keys from a place on.
    pub(crate) fn truncate(&mut self, count: usize)
        ensures { self.new ≡ take count self.old }
    {
        while count < self.len() {
            self.remove_last();
        }
    }

    /// Forgets the last key.
    fn remove_last(&mut self)
        requires { 0 < length self.old }
        ensures { self.new ≡ take (length self.old - 1) self.old }
    {
        let place = self.keys.len() - 1;
        let key = self.keys[place];
        self.buckets.unlink(place, &key);
        self.keys.truncate(place);
    }

    /// Adds a key that isn't there behind the others.
    pub(crate) fn add(&mut self, key: &Key) -> Result<(), AllocError>
        requires { list_any (key_eq key.now) self.old ≡ false }
        ensures ok { OnOk result (self.new ≡ self.old ++ key.now ∷ []) }
        ensures err { OnErr result (self.new ≡ self.old) }
    {
        let place = self.keys.len();
        if MOST_KEYS <= place {
            return Err(AllocError);
        }
        self.keys.reserve(1)?;
        make_buckets(&self.keys, &mut self.buckets)?;
        self.buckets.link(place, key);
        self.keys.push_reserved(*key);
        Ok(())
    }
}
