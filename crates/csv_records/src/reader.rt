//! A reader of one record at a time.

ghost use Rattle.std.specs.Prelude.{◌≡◌, ◌<◌, ◌≤◌, [], length, true, IfOk, OnErr};
ghost use Rattle.csv_records.specs.Records.{csv_records, Takes};

use crate::csv_record::Record;
use csv::{Reader, ReaderBuilder};
use std::alloc::{AllocError, Global};
use std::marker::Model;

/// A reader of the records of a text. Contracts see the list of the records that it has left.
///
/// A caller reads to the end by one loop over one record:
///
/// ```text
/// let mut reader = RecordReader::new(alloc, text);
/// let mut fields = Record::new(alloc);
/// 'records: while reader.read(&mut fields)? { .. fields.five() .. }
/// ```
///
/// Its measure is `length l.reader`. Its invariant says that the answer so far, and then the
/// caller's definition over `l.reader`, is that definition over `csv_records l.fn.text`: for a
/// count, `l.count + length l.reader ≡ length (csv_records l.fn.text)`. A counter fits its type by
/// `few`.
#[derive(Drop)]
pub struct RecordReader<'a> {
    text: Reader<&'a [u8]>,
    // a read failed, or found no record, after which no clause of `csv` says what the next one
    // finds
    ended: bool,
}

impl<'a> Model for RecordReader<'a> {
    ghost use Rattle.std.specs.Prelude.{ℕ, List};
    ghost use Rattle.csv_records.specs.Left.{left_of, IsSound};

    ghost Value = { List (List (List ℕ)) };

    ghost view = { λ r. left_of r.ended r.text };

    ghost invariant = { λ r. IsSound r.ended r.text };
}

impl<'a> RecordReader<'a> {
    /// A reader at the first record of a text.
    pub fn new(alloc: Global, text: &'a [u8]) -> RecordReader<'a>
        ensures records { result ≡ csv_records text.now }
        ensures few { length result ≤ length text.now }
    {
        let text = ReaderBuilder::new()
            .has_headers(false)
            .flexible(true)
            .from_reader(alloc, text);
        RecordReader { text, ended: false }
    }

    /// Reads the next record into `into`, in place of what it held, and answers whether there was
    /// one. Where there was none, what `into` holds is of no meaning.
    ///
    /// # Errors
    ///
    /// `AllocError` where memory runs out. The reader then has no records left: each later read
    /// answers false.
    pub fn read(&mut self, into: &mut Record) -> Result<bool, AllocError>
        ensures reads { IfOk result (λ found. Takes found self.old into.new self.new) }
        ensures field { IfOk result (λ found. found ≡ true → 0 < length into.new) }
        ensures stops { OnErr result (self.new ≡ []) }
    {
        if self.ended {
            return Ok(false);
        }
        match self.text.read_byte_record(&mut into.fields) {
            Ok(true) => Ok(true),
            Ok(false) => {
                self.ended = true;
                Ok(false)
            }
            // records may differ in length, and a slice has no faults of its own (though no clause
            // of `csv` says so): what is left is want of memory
            Err(_) => {
                self.ended = true;
                Err(AllocError)
            }
        }
    }
}
