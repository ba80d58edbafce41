//! The run over the readings of an input.
ghost use Rattle.std.specs.Prelude.{◌≡◌, ◌≢◌, ◌≤◌, ◌+◌, ℕ, List, [], Option, OnErr, OnOk, length};
ghost use Rattle.csv_records.specs.Records.{Fields, csv_records};
ghost use Rattle.office_outside.specs.Faults.{HasCause, Rose};
ghost use Rattle.office_outside.specs.Told.{Gained, GainedPrefix, HasNothingLeft};
ghost use Rattle.counter_book.specs.Book.{Book, no_readings};
ghost use Rattle.counters_command.specs.Answer.{EndsCounters, EndsRecords};
ghost use Rattle.counters_command.specs.Inputs.{TakesAtMost};
ghost use Rattle.counters_command.specs.Running.{EndsPage, IsUnderway};

use crate::MAX_INPUT_BYTES;
use crate::fault::{CountersEnd, CountersFault};
use crate::input::{InputFault, read_whole};
use crate::taking::{TakeFault, take_rows};
use counter_book::CounterBook;
use csv_records::{Record, RecordReader};
use event_fields::Sources;
use exact_fraction::Label;
use office_outside::{Failed, Sink, Source, write_whole};
use std::alloc::Global;

/// How many bytes a page of rows has at least when it is written: so rows cost few calls.
const PAGE: usize = 65_536;

/// Writes the last page and passes all on; ends so, or as a write fault.
fn end_with<K: Sink>(output: &mut K, page: &[u8], end: CountersEnd) -> CountersEnd
    ensures { EndsPage page.now end result (K.held output.old) (K.held output.new)
        (K.faults output.old) (K.faults output.new) }
{
    match write_whole(output, page) {
        Err(_) => CountersEnd::WriteFault,
        Ok(()) => match output.flush() {
            Err(_) => CountersEnd::WriteFault,
            Ok(()) => end,
        },
    }
}

/// Writes a page that is full, and makes it empty.
fn turn_page<K: Sink>(output: &mut K, page: &mut Vec<u8>) -> Result<(), Failed>
    ensures turned { OnOk result ((sli : List ℕ) (records left : List Fields) (number : ℕ)
        (book : Book) (old : Option (List ℕ)) →
        IsUnderway sli records left number book page.old.items old (K.held output.old) →
        IsUnderway sli records left number book page.new.items old (K.held output.new)) }
    ensures part { OnErr result
        (GainedPrefix page.old.items (K.held output.old) (K.held output.new)) }
    ensures cause { HasCause (K.faults output.old) (K.faults output.new) result }
{
    if page.len() < PAGE {
        return Ok(());
    }
    match write_whole(output, page) {
        Ok(()) => {
            page.clear();
            Ok(())
        }
        Err(fault) => Err(fault),
    }
}

/// Puts the readings of the records that a reader has left, and writes their rows page by page.
fn take_records<K: Sink>(
    sli: &Label,
    reader: &mut RecordReader,
    record: &mut Record,
    sources: &mut Sources,
    book: &mut CounterBook,
    page: &mut Vec<u8>,
    output: &mut K,
) -> CountersEnd
    requires few { length reader.old ≤ MAX_INPUT_BYTES }
    requires empty { book.old ≡ no_readings }
    requires blank { page.old.items ≡ [] }
    ensures ends { EndsRecords sli.now reader.old result (K.held output.old) (K.held output.new) }
    ensures write { result ≡ CountersEnd.WriteFault →
        Rose (K.faults output.old) (K.faults output.new) }
{
    let mut number: u64 = 1;
    'records: loop {
        match reader.read(record) {
            Ok(true) => {}
            Ok(false) => return end_with(output, page, CountersEnd::Done),
            Err(_) => return CountersEnd::NoMemory,
        }
        match take_rows(sli, book, sources, record, page) {
            Ok(()) => {}
            Err(TakeFault::Broken(fault)) => {
                let refused = CountersFault::BadRecord { number, fault };
                return end_with(output, page, CountersEnd::Refused(refused));
            }
            Err(TakeFault::NoMemory) => return CountersEnd::NoMemory,
        }
        match turn_page(output, page) {
            Ok(()) => number += 1,
            Err(_) => return CountersEnd::WriteFault,
        }
    }
}

/// The run over the records of a text.
fn take_text<K: Sink>(alloc: Global, sli: &Label, text: &[u8], output: &mut K) -> CountersEnd
    requires few { length text.now ≤ MAX_INPUT_BYTES }
    ensures ends { EndsRecords sli.now (csv_records text.now) result
        (K.held output.old) (K.held output.new) }
    ensures write { result ≡ CountersEnd.WriteFault →
        Rose (K.faults output.old) (K.faults output.new) }
{
    let mut reader = RecordReader::new(alloc, text);
    let mut record = Record::new(alloc);
    let mut sources = Sources::new();
    let mut book = CounterBook::new(alloc);
    let mut page = Vec::new(alloc);
    take_records(
        sli,
        &mut reader,
        &mut record,
        &mut sources,
        &mut book,
        &mut page,
        output,
    )
}

/// Reads the input to its end, and writes the sample rows of its readings for an indicator, as the
/// differences arise. A record that breaks a rule ends the run, behind the rows of those before it.
pub fn write_rows<S: Source, K: Sink>(
    alloc: Global,
    sli: Label,
    input: &mut S,
    output: &mut K,
) -> CountersEnd
    ensures ends { EndsCounters sli (S.left input.old) result
        (K.held output.old) (K.held output.new) }
    ensures unread { result ≡ CountersEnd.ReadFault → K.held output.new ≡ K.held output.old }
    ensures large { result ≡ CountersEnd.Refused CountersFault.TooLarge →
        K.held output.new ≡ K.held output.old }
    ensures end { result ≡ CountersEnd.Done → HasNothingLeft (S.left input.new) }
    ensures read { result ≡ CountersEnd.ReadFault →
        Rose (S.faults input.old) (S.faults input.new) }
    ensures write { result ≡ CountersEnd.WriteFault →
        Rose (K.faults output.old) (K.faults output.new) }
    ensures takes { TakesAtMost (MAX_INPUT_BYTES + 1) (S.left input.old) (S.left input.new) }
{
    let text = match read_whole(alloc, input, MAX_INPUT_BYTES) {
        Ok(text) => text,
        Err(InputFault::TooLarge) => return CountersEnd::Refused(CountersFault::TooLarge),
        Err(InputFault::ReadFault) => return CountersEnd::ReadFault,
        Err(InputFault::NoMemory) => return CountersEnd::NoMemory,
    };
    take_text(alloc, &sli, &text, output)
}
