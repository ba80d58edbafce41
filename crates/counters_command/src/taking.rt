//! One record after another is put into the book.
ghost use Rattle.std.specs.Prelude.{◌≡◌, Err, IfOk, OnOk};
ghost use Rattle.counters_command.specs.Taking.{Breaks, TakesRecord, TakesRows, reading_of};

use crate::fault::ReadingFault;
use crate::rows::push_rows;
use counter_book::{Changes, CounterBook, CounterFault, CounterReading};
use csv_records::Record;
use event_fields::{EventFault, Sources, read_event};
use exact_fraction::Label;
use slo_limits::MAX_COUNTER;

/// Why a record isn't taken.
#[derive(Clone, Copy, PartialEq, Eq)]
pub enum TakeFault {
    /// It breaks this rule, the first of them.
    Broken(ReadingFault),
    NoMemory,
}

/// The reading that a record stands for, or the first rule that it breaks by itself.
fn read_reading(sources: &mut Sources, fields: &Record) -> Result<CounterReading, EventFault>
    ensures { result ≡ reading_of fields.now }
{
    let event = read_event(sources, fields, MAX_COUNTER)?;
    Ok(CounterReading {
        source: event.source,
        minute: event.minute,
        revision: event.revision,
        good: event.good,
        total: event.total,
    })
}

/// Puts the reading of a record, and answers the differences that it makes new or changes; or finds
/// the rule that the record breaks.
fn take_record(
    book: &mut CounterBook,
    sources: &mut Sources,
    fields: &Record,
) -> Result<Changes, TakeFault>
    ensures taken { IfOk result (λ changes. TakesRecord book.old fields.now changes book.new) }
    ensures broken { (fault : ReadingFault) → result ≡ Err (TakeFault.Broken fault) →
        Breaks book.old fields.now fault }
{
    let reading = match read_reading(sources, fields) {
        Ok(reading) => reading,
        Err(fault) => return Err(TakeFault::Broken(ReadingFault::Event(fault))),
    };
    match book.put(&reading) {
        Ok(changes) => Ok(changes),
        Err(CounterFault::Conflict { kept }) => {
            Err(TakeFault::Broken(ReadingFault::Conflict(kept)))
        }
        Err(CounterFault::Limit) => Err(TakeFault::Broken(ReadingFault::Limit)),
        Err(CounterFault::Jump { minute, total: _ }) => {
            Err(TakeFault::Broken(ReadingFault::Jump(minute)))
        }
        Err(CounterFault::NoMemory) => Err(TakeFault::NoMemory),
    }
}

/// Puts the reading of a record, and appends the rows of the differences that it makes new or
/// changes to a page; or finds the rule that the record breaks.
pub(crate) fn take_rows(
    sli: &Label,
    book: &mut CounterBook,
    sources: &mut Sources,
    fields: &Record,
    page: &mut Vec<u8>,
) -> Result<(), TakeFault>
    ensures taken { OnOk result
        (TakesRows sli.now book.old page.old.items fields.now book.new page.new.items) }
    ensures broken { (fault : ReadingFault) → result ≡ Err (TakeFault.Broken fault) →
        Breaks book.old fields.now fault × (page.new.items ≡ page.old.items) }
{
    match take_record(book, sources, fields) {
        Ok(changes) => match push_rows(page, sli, &changes) {
            Ok(()) => Ok(()),
            Err(_) => Err(TakeFault::NoMemory),
        },
        Err(fault) => Err(fault),
    }
}
