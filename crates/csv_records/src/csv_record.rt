//! One record.

ghost use Rattle.std.specs.Prelude.{◌≡◌, ◌≢◌, ◌∷◌, [], length, option_map, IfSome, IfNone};
ghost use Rattle.std.specs.Prelude.{slice_get};
ghost use Rattle.csv_records.specs.Columns.{five_fields, six_fields};

use csv::ByteRecord;
use std::alloc::Global;
use std::marker::Model;

/// A record: fields of any bytes. Contracts see the list of its fields.
#[derive(Drop)]
pub struct Record {
    pub(crate) fields: ByteRecord,
}

impl Model for Record {
    ghost use Rattle.std.specs.Prelude.{ℕ, List};
    ghost use Rattle.csv.specs.Records.{fields_of};

    ghost Value = { List (List ℕ) };

    ghost view = { λ r. fields_of r.fields };
}

impl Record {
    /// A record with no fields, for a reader to fill.
    pub fn new(alloc: Global) -> Record
        ensures { result ≡ [] }
    {
        Record {
            fields: ByteRecord::new(alloc),
        }
    }

    /// How many fields the record has.
    pub fn len(&self) -> usize
        ensures { result ≡ length self.now }
    {
        self.fields.len()
    }

    /// The field at a place, counted from 0, where the record has one.
    pub fn get(&self, at: usize) -> Option<&[u8]>
        ensures { option_map (λ f. f.now) result ≡ slice_get self.now at }
    {
        self.fields.get(at)
    }

    /// The fields, where there are exactly five.
    pub fn five(&self) -> Option<(&[u8], &[u8], &[u8], &[u8], &[u8])>
        ensures five { option_map (λ f. (f.0.now, f.1.now, f.2.now, f.3.now, f.4.now)) result
            ≡ five_fields self.now }
        ensures fields { IfSome result (λ f. self.now
            ≡ f.0.now ∷ f.1.now ∷ f.2.now ∷ f.3.now ∷ f.4.now ∷ []) }
        ensures other { IfNone result (length self.now ≢ 5) }
    {
        if self.len() != 5 {
            return None;
        }
        Some((
            self.get(0)?,
            self.get(1)?,
            self.get(2)?,
            self.get(3)?,
            self.get(4)?,
        ))
    }

    /// The fields, where there are exactly six.
    pub fn six(&self) -> Option<(&[u8], &[u8], &[u8], &[u8], &[u8], &[u8])>
        ensures six { option_map (λ f. (f.0.now, f.1.now, f.2.now, f.3.now, f.4.now, f.5.now))
            result ≡ six_fields self.now }
        ensures fields { IfSome result (λ f. self.now
            ≡ f.0.now ∷ f.1.now ∷ f.2.now ∷ f.3.now ∷ f.4.now ∷ f.5.now ∷ []) }
        ensures other { IfNone result (length self.now ≢ 6) }
    {
        if self.len() != 6 {
            return None;
        }
        Some((
            self.get(0)?,
            self.get(1)?,
            self.get(2)?,
            self.get(3)?,
            self.get(4)?,
            self.get(5)?,
        ))
    }
}
