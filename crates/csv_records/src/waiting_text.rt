//! The part of a text that waits for the end of its last record.
ghost use Rattle.std.specs.Prelude.{◌≡◌, ◌<◌, ◌≤◌, ◌++◌, ◌∷◌, [], IfOk, OnOk, length, take};
ghost use Rattle.csv_records.specs.Parts.{EndsWithRecord};

use crate::places::{Place, last_cut, place_after};
use std::alloc::{AllocError, Global};
use std::marker::Model;

/// The bytes of a text that came, but for the records that were taken already. Contracts see them.
///
/// A caller gives it the pieces of a text in order. Where `add` finds an end of a record, it takes
/// the records of `text()`, and goes on by `restart` with the rest of the piece:
///
/// ```text
/// let count = waiting.add(piece)?;
/// if 0 < count { .. waiting.text() ..; waiting.restart(&piece[count..])?; }
/// ```
///
/// At the end of the text the records of `text()` are the last ones. What is known all the while is
/// `IsRead seen records waiting`: the records of the bytes seen so far, and of whatever comes after
/// them, are those taken, and then those of the waiting bytes and of whatever comes after.
#[derive(Drop)]
pub struct WaitingText {
    bytes: Vec<u8>,
    place: Place,
}

impl Model for WaitingText {
    ghost use Rattle.std.specs.Prelude.{◌≡◌, ℕ, List};
    ghost use Rattle.csv_records.specs.Places.{place_after};
    ghost use Rattle.csv_records.specs.declared.places.Place.TheVariants as places;

    ghost Value = { List ℕ };

    ghost view = { λ w. w.bytes.items };

    ghost invariant = { λ w. w.place ≡ place_after places.TextStart w.bytes.items };
}

impl WaitingText {
    /// At the start of a text nothing waits.
    pub fn new(alloc: Global) -> WaitingText
        ensures { result ≡ [] }
    {
        WaitingText {
            bytes: Vec::new(alloc),
            place: Place::TextStart,
        }
    }

    /// All that waits.
    pub fn text(&self) -> &[u8]
        ensures { result.now ≡ self.now }
    {
        &self.bytes
    }

    /// Adds the next piece of the text up to the end of the last record in it, and answers how many
    /// bytes that are. Where no record ends in it, it adds all of it and answers 0.
    pub fn add(&mut self, piece: &[u8]) -> Result<usize, AllocError>
        ensures within { IfOk result (λ count. count ≤ length piece.now) }
        ensures open { IfOk result (λ count. count ≡ 0 → self.new ≡ self.old ++ piece.now) }
        ensures part { IfOk result (λ count. 0 < count →
            self.new ≡ self.old ++ take count piece.now) }
        ensures ends { IfOk result (λ count. 0 < count → EndsWithRecord self.new) }
    {
        let count = last_cut(self.place, piece);
        if count == 0 {
            self.bytes.extend_from_slice(piece)?;
            self.place = place_after(self.place, piece);
            return Ok(0);
        }
        self.bytes.extend_from_slice(&piece[..count])?;
        self.place = Place::FieldStart;
        Ok(count)
    }

    /// Forgets what waited, whose records were taken. The rest of the piece waits, behind a line
    /// feed: that is no record, and no text that begins with it begins with a byte order mark.
    pub fn restart(&mut self, rest: &[u8]) -> Result<(), AllocError>
        ensures { OnOk result (self.new ≡ 10 ∷ rest.now) }
    {
        self.bytes.clear();
        self.place = Place::TextStart;
        self.bytes.push(b'\n')?;
        self.place = Place::FieldStart;
        self.bytes.extend_from_slice(rest)?;
        self.place = place_after(Place::FieldStart, rest);
        Ok(())
    }
}
