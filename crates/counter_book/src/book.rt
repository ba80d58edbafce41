//! The book of counters' readings.
ghost use Rattle.std.specs.Prelude.{◌≡◌, IfOk, IfErr, OnErr};
ghost use Rattle.counter_book.specs.Book.{no_readings};
ghost use Rattle.counter_book.specs.Puts.{IsRefused, Puts};

use crate::judging::judge;
use crate::neighbours::{neighbours, note_last};
use crate::reading::{Changes, CounterFault, CounterReading, Kept, Moment, Tail};
use crate::writing::{changes, given, keep};
use name_numbers::NameTable;
use std::alloc::Global;
use std::collections::BTreeMap;
use std::marker::Model;

/// The newest reading of each source's minute, and how often the difference there was given.
#[derive(Drop)]
pub struct CounterBook {
    names: NameTable,
    kept: BTreeMap<Moment, Kept>,
    // the last reading of each source, by its number; a source may have none
    tails: Vec<Tail>,
    puts: u32,
}

impl Model for CounterBook {
    ghost use Rattle.counter_book.specs.Book.{Book};
    ghost use Rattle.counter_book.specs.Writing.{IsSound};

    ghost Value = { Book };

    ghost view = { λ a. record { names = a.names; entries = a.kept.entries; puts = a.puts } };

    ghost invariant = { λ a. IsSound a.names a.kept.entries a.tails.items a.puts };
}

impl CounterBook {
    /// A book of no readings.
    pub fn new(alloc: Global) -> CounterBook
        ensures { result ≡ no_readings }
    {
        CounterBook {
            names: NameTable::new(alloc),
            kept: BTreeMap::new(alloc),
            tails: Vec::new(alloc),
            puts: 0,
        }
    }

    /// Puts a reading, which may come late or correct another one, and answers the differences
    /// that it makes new or changes. One that repeats a reading, or that a newer one supersedes,
    /// changes nothing.
    ///
    /// # Errors
    ///
    /// The first of the rules that the reading breaks, or want of memory. The book is as before.
    pub fn put(&mut self, reading: &CounterReading) -> Result<Changes, CounterFault>
        ensures put { IfOk result (λ changes. Puts self.old reading.now changes self.new) }
        ensures kept { OnErr result (self.new ≡ self.old) }
        ensures refused { IfErr result (λ e. IsRefused self.old reading.now e) }
    {
        let Some(number) = self.names.number_for(&reading.source) else {
            return Err(CounterFault::NoMemory);
        };
        let near = neighbours(&self.kept, &self.tails, number, reading.minute);
        match judge(&self.names, &self.kept, self.puts, number, &near, reading) {
            Err(e) => Err(e),
            Ok(None) => Ok(Changes {
                own: None,
                next: None,
            }),
            Ok(Some(moves)) => {
                let given = given(near.here);
                match keep(
                    &mut self.names,
                    &mut self.kept,
                    number,
                    reading,
                    given,
                    &moves,
                ) {
                    Err(_) => Err(CounterFault::NoMemory),
                    Ok(()) => {
                        self.puts += 1;
                        note_last(&mut self.tails, number, reading, &near);
                        Ok(changes(reading, given, &moves))
                    }
                }
            }
        }
    }
}
