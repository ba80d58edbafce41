//! The entries of a history, kept as their records.
ghost use Rattle.std.specs.Prelude.{◌≡◌, ◌≤◌, ◌<◌, ◌^◌, ◌++◌, ◌∷◌, [], length, map, drop};
ghost use Rattle.std.specs.Prelude.{slice_get};
ghost use Rattle.std.specs.Prelude.{OnOk, IfOk, option_map};
ghost use Rattle.std.specs.List.{AllByRecursion};
ghost use Rattle.record_form.specs.declared.Entry.{Entry};
ghost use Rattle.record_form.specs.Histories.{records_of};
ghost use Rattle.record_form.specs.Records.{record_of};
ghost use Rattle.record_form.specs.Ranges.{FitsRecord, IsRecord};
ghost use Rattle.entry_records.specs.Feeds.{feed_of};

use crate::feed::feed_bytes;
use crate::places::record_at;
use exact_fraction::Bytes;
use record_form::laws;
use std::alloc::{AllocError, Global};
use std::marker::Model;

/// The most bytes of records, so that where one ends fits 32 bits.
const MAX_END: usize = 4_294_967_295;

/// The entries of a history, kept as their records: one behind another, and where each one ends. It
/// is seen as the entries, and for how many bytes and places there is room.
#[derive(Drop)]
pub struct EntryRecords {
    bytes: Vec<u8>,
    ends: Vec<u32>,
}

impl Model for EntryRecords {
    ghost use Rattle.std.specs.Prelude.{◌-◌, min, vec_capacity, vec_len};
    ghost use Rattle.record_form.specs.Histories.{history_of};
    ghost use Rattle.entry_records.specs.Kept.{Entries, IsKept};

    ghost Value = { Entries };

    ghost view = { λ a. record {
      history = history_of a.bytes.items;
      spare = min (vec_capacity a.bytes) 4294967295 - vec_len a.bytes;
      places = vec_capacity a.ends - vec_len a.ends;
    } };

    ghost invariant = { λ a. IsKept a.bytes.items a.ends.items };
}

impl EntryRecords {
    /// No entries. Takes no memory.
    pub fn new(alloc: Global) -> EntryRecords
        ensures { result.history ≡ [] }
    {
        laws::no_bytes_are_no_history();
        EntryRecords {
            bytes: Vec::new(alloc),
            ends: Vec::new(alloc),
        }
    }

    /// How many entries there are.
    pub fn len(&self) -> u32
        ensures { result ≡ length self.now.history }
    {
        self.ends.len() as u32
    }

    /// How many bytes the records have together.
    pub fn size(&self) -> u64
        ensures value { result ≡ length (records_of self.now.history) }
        ensures few { result < 2 ^ 32 }
    {
        self.bytes.len() as u64
    }

    /// No work: each entry has a record.
    pub fn fit(&self)
        ensures { AllByRecursion FitsRecord self.now.history }
    {
        let _ends = self.ends.len();
    }

    /// Makes room for one entry more, whose record has so many bytes at most.
    ///
    /// # Errors
    ///
    /// Where memory is refused, or the records would have 2^32 bytes or more.
    pub fn reserve(&mut self, bytes: usize) -> Result<(), AllocError>
        ensures history { self.new.history ≡ self.old.history }
        ensures spare { OnOk result (bytes ≤ self.new.spare) }
        ensures places { OnOk result (1 ≤ self.new.places) }
    {
        if bytes > MAX_END - self.bytes.len() {
            return Err(AllocError);
        }
        self.bytes.reserve(bytes)?;
        self.ends.reserve(1)
    }

    /// Adds the entry of a record, with no memory.
    pub fn push(&mut self, piece: &[u8])
        requires entry { (e : Entry) × IsRecord piece.now e }
        requires spare { length piece.now ≤ self.old.spare }
        requires places { 1 ≤ self.old.places }
        ensures history { (e : Entry) → IsRecord piece.now e
            → self.new.history ≡ self.old.history ++ e ∷ [] }
    {
        laws::one_record_more();
        laws::records_have_sizes();
        self.bytes.extend_from_slice(piece).unwrap();
        self.ends.push(self.bytes.len() as u32).unwrap();
    }

    /// The record of the entry at a place, from 0; none exactly where the history ends before it.
    pub fn at(&self, place: u32) -> Option<&[u8]>
        ensures { option_map (λ r. r.now) result
            ≡ option_map record_of (slice_get self.now.history place) }
    {
        record_at(&self.bytes, &self.ends, place as usize)
    }

    /// The feed of the entries from a position on: as many as fit into `MAX_FEED_BYTES`, and one at
    /// least where there is one.
    ///
    /// # Errors
    ///
    /// Where memory is refused.
    pub fn feed(&self, alloc: Global, origin: u32, from: u32) -> Result<Bytes, AllocError>
        ensures { IfOk result (λ bytes. bytes
            ≡ feed_of origin from (map record_of (drop from self.now.history))) }
    {
        let text = feed_bytes(alloc, origin, from, &self.bytes, &self.ends)?;
        Ok(Bytes::from_vec(text))
    }
}
