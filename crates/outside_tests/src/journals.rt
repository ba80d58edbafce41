//! Files byte for byte, what each stop leaves, and what becomes of each call that fails. A row says
//! by its first word what is done. What owns a journal or a disk ends once, at its end, since the
//! proof that all of it is let go is long.
ghost use Rattle.std.specs.Prelude.{◌≡◌, None, true};
ghost use Rattle.office_outside.specs.Faults.{HasCause};

use crate::rows::{bytes_of, bytes_text, expect_row, number_of, numbers_of};
use office_outside::{Disk, Failed, MemoryDisk, Plan};
use slo_journal::{AppendFault, Frame, Journal, Scan, ScanFault, create, frame_of, open};
use std::alloc::{AllocError, Global};
use std::process::Abort;

/// A tick at minute 500, as a record.
const TICK: &str = "0 0 1 244 7";

/// The file of origin 0 and this record: a header of 13 bytes, a gate, the record's length, the
/// record and the closed gate.
const TICKED: &str = "1 OSLOJRN1 0 0 0 0 1 0 0 0 5 0 0 1 244 7 0";

/// The origin of a run's journal.
const ORIGIN: u32 = 9;

/// The bytes of words.
fn bytes(rt: &(impl AllocGlobal + Abort), words: &str) -> Vec<u8> {
    bytes_of(rt.alloc(), words).expect(rt, "memory")
}

/// A disk whose calls of these numbers fail.
fn disk_of(rt: &(impl AllocGlobal + Abort), file: &[u8], failing: &str) -> MemoryDisk {
    let failing = numbers_of(rt.alloc(), failing).expect(rt, "memory");
    let plan = Plan::new(failing, Vec::new(rt.alloc()));
    let file = Vec::from_slice(rt.alloc(), file).expect(rt, "memory");
    MemoryDisk::new(rt.alloc(), file, plan).expect(rt, "memory")
}

/// A record's frame. The records here have at most as many bytes as a record may.
fn frame(rt: &(impl AllocGlobal + Abort), record: &[u8]) -> Frame {
    assert!(rt; !record.is_empty() && record.len() <= 1_100_000);
    frame_of(rt.alloc(), record).expect(rt, "memory")
}

/// The frame of a record of so many bytes, each of them 1.
fn frame_of_size(rt: &(impl AllocGlobal + Abort), size: usize) -> Frame {
    let record = vec![in rt.alloc(); 1u8; size].expect(rt, "memory");
    frame(rt, &record)
}

/// How a call of a run ended.
#[derive(Clone, Copy, Debug, Drop, PartialEq, Eq)]
enum Ended {
    Done,
    Failed,
    NotKept,
    Full,
    InDoubt,
    SettledKept,
    SettledLost,
    NotTried,
}

/// Appends, and settles what is in doubt.
fn added<D: Disk + Drop>(journal: &mut Journal<D>, frame: &Frame) -> Ended
    requires { journal.old.doubt ≡ None }
{
    match journal.append(frame) {
        Ok(()) => Ended::Done,
        Err(AppendFault::JournalFull { .. }) => Ended::Full,
        Err(AppendFault::NotKept) => Ended::NotKept,
        Err(AppendFault::InDoubt) => match journal.settle() {
            Ok(true) => Ended::SettledKept,
            Ok(false) => Ended::SettledLost,
            Err(_) => Ended::InDoubt,
        },
    }
}

/// Appends the two records of a run.
fn append_two(
    rt: &(impl AllocGlobal + Abort),
    mut journal: Journal<MemoryDisk>,
) -> ([Ended; 3], MemoryDisk)
    requires { journal.doubt ≡ None }
{
    let first = frame(rt, &[5]);
    let second = frame(rt, &[6, 7]);
    let one = added(&mut journal, &first);
    let mut two = Ended::NotTried;
    if !journal.in_doubt() {
        two = added(&mut journal, &second);
    }
    ([Ended::Done, one, two], journal.give_back())
}

/// Makes a journal on a disk and appends the two records: how each ended, and the disk.
fn run(rt: &(impl AllocGlobal + Abort), disk: MemoryDisk) -> ([Ended; 3], MemoryDisk) {
    match create(disk, ORIGIN) {
        Ok(journal) => append_two(rt, journal),
        Err(failed) => (
            [Ended::Failed, Ended::NotTried, Ended::NotTried],
            failed.disk,
        ),
    }
}

/// What a file opens to: its records, the sum of all their bytes, and the fault behind them.
#[derive(Clone, Copy, Drop)]
struct Found {
    origin: u32,
    records: usize,
    sum: usize,
    fault: Option<ScanFault>,
}

impl Found {
    fn count(&mut self, record: &[u8]) {
        self.records = self.records.saturating_add(1);
        for byte in record.iter() {
            self.sum = self.sum.saturating_add(*byte as usize);
        }
    }
}

/// Reads a record; whether there may be another one.
fn read_next(scan: &mut Scan<MemoryDisk>, record: &mut Vec<u8>, found: &mut Found) -> bool {
    match scan.next(record) {
        Ok(true) => {
            found.count(record);
            true
        }
        Ok(false) => false,
        Err(fault) => {
            found.fault = Some(fault);
            false
        }
    }
}

/// Reads to the closed gate, to the first fault, or 20 records.
fn read_all(alloc: Global, mut scan: Scan<MemoryDisk>) -> Found {
    let mut found = Found {
        origin: scan.origin(),
        records: 0,
        sum: 0,
        fault: None,
    };
    let mut record = Vec::new(alloc);
    for _ in 0..20 {
        if !read_next(&mut scan, &mut record, &mut found) {
            break;
        }
    }
    found
}

/// What a file opens to; None where it isn't opened.
fn opened(rt: &(impl AllocGlobal + Abort), file: &[u8]) -> Option<Found> {
    match open(rt.alloc(), disk_of(rt, file, "")) {
        Ok(scan) => Some(read_all(rt.alloc(), scan)),
        Err(_) => None,
    }
}

/// How many records were found of which sum, and where the file is damaged.
fn found_text(alloc: Global, found: &Found) -> Result<String, AllocError> {
    let (records, sum) = (found.records, found.sum);
    match found.fault {
        None => format!(in alloc; "{records} of {sum}"),
        Some(ScanFault::Damaged { at }) => {
            format!(in alloc; "{records} of {sum}, damaged at {at}")
        }
        Some(_) => String::from_str(alloc, "not read"),
    }
}

/// What a file of a row opens to.
fn opened_text(rt: &(impl AllocGlobal + Abort), file: &[u8]) -> String {
    match opened(rt, file) {
        Some(found) => found_text(rt.alloc(), &found),
        None => String::from_str(rt.alloc(), "no journal"),
    }
    .expect(rt, "memory")
}

/// The first bytes of the file of a tick.
fn cut(rt: &(impl AllocGlobal + Abort), length: &str) -> Vec<u8> {
    let mut file = bytes(rt, TICKED);
    file.truncate(number_of(length));
    file
}

/// The file of a tick with another byte at a place.
fn put(rt: &(impl AllocGlobal + Abort), place_and_byte: &str) -> Vec<u8> {
    let (place, byte) = place_and_byte.split_once(' ').unwrap_or(("", ""));
    let mut file = bytes(rt, TICKED);
    if let Some(old) = file.get_mut(number_of(place)) {
        *old = byte.parse::<u8>().unwrap_or(0);
    }
    file
}

/// The file of two ticks, and what stands behind them in the place of the closed gate.
fn behind(rt: &(impl AllocGlobal + Abort), words: &str) -> Vec<u8> {
    let mut file = bytes(
        rt,
        "1 OSLOJRN1 0 0 0 0 1 0 0 0 5 0 0 1 244 7 1 0 0 0 5 0 0 1 244 7",
    );
    file.extend_from_slice(&bytes(rt, words))
        .expect(rt, "memory");
    file
}

/// Adds records of these sizes, and gives the disk.
fn fill(
    rt: &(impl AllocGlobal + Abort),
    mut journal: Journal<MemoryDisk>,
    sizes: &str,
) -> MemoryDisk {
    for size in sizes.split_ascii_whitespace() {
        assert!(rt; !journal.in_doubt());
        let frame = frame_of_size(rt, number_of(size));
        assert!(rt; added(&mut journal, &frame) == Ended::Done);
    }
    journal.give_back()
}

/// The file of a journal of origin 0 with records of these sizes.
fn filled(rt: &(impl AllocGlobal + Abort), sizes: &str) -> Vec<u8> {
    match create(disk_of(rt, &[], ""), 0) {
        Ok(journal) => {
            let disk = fill(rt, journal, sizes);
            disk.bytes().to_vec(rt.alloc()).expect(rt, "memory")
        }
        Err(_) => Vec::new(rt.alloc()),
    }
}

/// Adds a tick, and gives the disk.
fn add_tick(rt: &(impl AllocGlobal + Abort), mut journal: Journal<MemoryDisk>) -> MemoryDisk
    requires { journal.doubt ≡ None }
{
    let frame = frame(rt, &bytes(rt, TICK));
    assert!(rt; added(&mut journal, &frame) == Ended::Done);
    journal.give_back()
}

/// The file of a journal of origin 0 with a tick, or why none is made over these bytes, and the
/// bytes that are left.
fn made(rt: &(impl AllocGlobal + Abort), words: &str) -> String {
    let file = bytes(rt, words);
    match create(disk_of(rt, &file, ""), 0) {
        Ok(journal) => {
            let disk = add_tick(rt, journal);
            bytes_text(rt.alloc(), "Made", disk.bytes()).expect(rt, "memory")
        }
        Err(failed) => {
            let fault = format!(in rt.alloc(); "{:?}", failed.fault).expect(rt, "memory");
            bytes_text(rt.alloc(), fault.as_str(), failed.disk.bytes()).expect(rt, "memory")
        }
    }
}

/// What an image is: 0 without a header, one more than the records where it opens to the first
/// records of a run, and 9 else.
fn stage_of(rt: &(impl AllocGlobal + Abort), image: &[u8]) -> u64 {
    let Some(found) = opened(rt, image) else {
        return 0;
    };
    if found.origin != ORIGIN || found.fault.is_some() {
        return 9;
    }
    match (found.records, found.sum) {
        (0, 0) => 1,
        (1, 5) => 2,
        (2, 18) => 3,
        _ => 9,
    }
}

/// Whether a run that is stopped after so many calls may have left this image. The journal is made
/// by so many calls, and each append takes four; what is in flight shows from its gate on.
fn is_expected(calls: usize, made: usize, stage: u64) -> bool {
    let done = calls.saturating_add(4).saturating_sub(made);
    match done {
        0..=2 => stage == 0,
        3 => stage <= 1,
        4..=6 => stage == 1,
        7 => stage == 1 || stage == 2,
        8..=10 => stage == 2,
        11 => stage == 2 || stage == 3,
        _ => stage == 3,
    }
}

/// The stage of an image that a stop leaves.
fn stage_after(
    rt: &(impl AllocGlobal + Abort),
    disk: &MemoryDisk,
    calls: usize,
    wanted: &[u8],
) -> u64 {
    let image = disk.after_stop(calls, wanted).expect(rt, "memory");
    stage_of(rt, &image)
}

/// How many images are not as expected, of those that a stop after so many calls leaves: of what
/// was in flight the first bytes came, and behind them other bytes or none.
fn unexpected(
    rt: &(impl AllocGlobal + Abort),
    disk: &MemoryDisk,
    calls: usize,
    made: usize,
) -> usize {
    let whole = disk.bytes();
    let mut count: usize = 0;
    for kept in 0..whole.len() {
        let mut wanted = Vec::from_slice(rt.alloc(), &whole[..kept]).expect(rt, "memory");
        for fill in [0, 1, 2, 255] {
            if !is_expected(calls, made, stage_after(rt, disk, calls, &wanted)) {
                count = count.saturating_add(1);
            }
            wanted.truncate(kept);
            wanted.resize(whole.len(), fill).expect(rt, "memory");
        }
    }
    count
}

/// A run over these bytes that is stopped after each of its calls: how it ended, how many calls it
/// made behind those that made the journal, and how many images are not as expected.
fn stopped(rt: &(impl AllocGlobal + Abort), made_and_file: &str) -> String {
    let (made, words) = made_and_file.split_once(' ').unwrap_or((made_and_file, ""));
    let made = number_of(made);
    let file = bytes(rt, words);
    let ([first, second, third], disk) = run(rt, disk_of(rt, &file, ""));
    let more = disk.calls().len().saturating_sub(made);
    let mut count: usize = 0;
    for calls in 0..disk.calls().len().saturating_add(1) {
        count = count.saturating_add(unexpected(rt, &disk, calls, made));
    }
    format!(in rt.alloc();
        "{first:?} {second:?} {third:?}, {more} more calls, {count} unexpected"
    ).expect(rt, "memory")
}

/// The stages of a run's images right before the sync of its first record's gate, by that gate's
/// byte: where it is 0, and how often it is that of one record where it is any other byte.
fn gates(rt: &(impl AllocGlobal + Abort)) -> String {
    let (_, disk) = run(rt, disk_of(rt, &[], ""));
    let closed = stage_after(rt, &disk, 11, &[0; 14]);
    let mut open: u32 = 0;
    for gate in 1..=255 {
        if stage_after(rt, &disk, 11, &[gate; 14]) == 2 {
            open = open.saturating_add(1);
        }
    }
    format!(in rt.alloc(); "{closed}, {open} times 2").expect(rt, "memory")
}

/// A run while these calls fail: how it ended, and what its file opens to.
fn failed(rt: &(impl AllocGlobal + Abort), failing: &str) -> String {
    let ([first, second, third], disk) = run(rt, disk_of(rt, &[], failing));
    let found = opened_text(rt, disk.bytes());
    format!(in rt.alloc(); "{first:?} {second:?} {third:?}, {found}").expect(rt, "memory")
}

/// An append whose gate isn't synced, and two settlings: how these end, whether the record is then
/// in doubt, and where the closed gate stands.
fn settle_twice(rt: &(impl AllocGlobal + Abort), mut journal: Journal<MemoryDisk>) -> String
    requires { journal.doubt ≡ None }
{
    let frame = frame(rt, &bytes(rt, TICK));
    assert!(rt; journal.append(&frame).is_err());
    assert!(rt; journal.in_doubt());
    let first = journal.settle().ok();
    assert!(rt; journal.in_doubt());
    let second = journal.settle().ok();
    let (doubt, tail) = (journal.in_doubt(), journal.tail());
    format!(in rt.alloc(); "{first:?} {second:?} {doubt} {tail}").expect(rt, "memory")
}

/// The same over an empty file while these calls fail.
fn settled(rt: &(impl AllocGlobal + Abort), failing: &str) -> String {
    match create(disk_of(rt, &[], failing), 0) {
        Ok(journal) => settle_twice(rt, journal),
        Err(_) => String::new(rt.alloc()),
    }
}

/// How two steps of a scan end, with the place and the length of what was read after each.
fn two_steps(rt: &(impl AllocGlobal + Abort), mut scan: Scan<MemoryDisk>) -> String {
    let mut record = bytes(rt, "old");
    let first = scan.next(&mut record);
    let (at, length) = (scan.at(), record.len());
    let second = scan.next(&mut record);
    let (then, more) = (scan.at(), record.len());
    format!(in rt.alloc(); "{first:?} {at} {length}, {second:?} {then} {more}").expect(rt, "memory")
}

/// Two steps over the file of a tick while these calls fail, or why it isn't opened.
fn scanned(rt: &(impl AllocGlobal + Abort), failing: &str) -> String {
    match open(rt.alloc(), disk_of(rt, &bytes(rt, TICKED), failing)) {
        Ok(scan) => two_steps(rt, scan),
        Err(failed) => format!(in rt.alloc(); "{:?}", failed.fault).expect(rt, "memory"),
    }
}

/// Reads a tick and the closed gate: where this stands in the journal, or why none is opened; and
/// how many calls the disk has had.
fn get_ready(rt: &(impl AllocGlobal + Abort), mut scan: Scan<MemoryDisk>) -> String {
    let mut record = Vec::new(rt.alloc());
    assert!(rt; scan.next(&mut record) == Ok(true));
    assert!(rt; scan.next(&mut record) == Ok(false));
    let (tail, disk) = match scan.ready() {
        Ok(journal) => (Ok(journal.tail()), journal.give_back()),
        Err(failed) => (Err(failed.fault), failed.disk),
    };
    let calls = disk.calls().len();
    format!(in rt.alloc(); "{tail:?} {calls}").expect(rt, "memory")
}

/// The same over the file of a tick while these calls fail.
fn ready(rt: &(impl AllocGlobal + Abort), failing: &str) -> String {
    match open(rt.alloc(), disk_of(rt, &bytes(rt, TICKED), failing)) {
        Ok(scan) => get_ready(rt, scan),
        Err(_) => String::new(rt.alloc()),
    }
}

/// A disk that keeps nothing, so that a journal on it may be of any length: a read finds an empty
/// file. It fails once it was called so many times.
#[derive(Drop)]
struct Blank {
    calls: u32,
    faults: u64,
}

impl Blank {
    fn count_call(&mut self) -> Result<(), Failed>
        ensures { HasCause self.old.faults self.new.faults result }
    {
        if self.calls == 0 {
            self.faults = self.faults.saturating_add(1);
            return Err(Failed);
        }
        self.calls -= 1;
        Ok(())
    }
}

impl Disk for Blank {
    ghost use Rattle.std.specs.Prelude.{None};

    ghost senses = { record {
      content = λ _. None;
      images = λ _ _. ⊥;
      moment = λ _. 0;
      images_since = λ _ _ _. ⊥;
      faults = λ disk. disk.faults;
    } };

    ghost counts_now = { λ _ _ _ _ none. none };

    ghost only_now = { λ _ _ none. none };

    ghost as_read = { λ _. tt };

    fn read_at(&mut self, _at: u64, _piece: &mut [u8]) -> Result<usize, Failed> {
        match self.count_call() {
            Ok(()) => Ok(0),
            Err(failed) => Err(failed),
        }
    }

    fn write_at(&mut self, _at: u64, _piece: &[u8]) -> Result<(), Failed> {
        self.count_call()
    }

    fn sync(&mut self) -> Result<(), Failed> {
        self.count_call()
    }
}

/// Appends a record so many times; whether that was done, so that nothing is in doubt.
fn is_added(journal: &mut Journal<Blank>, frame: &Frame, times: u32) -> bool
    ensures { result ≡ true → journal.new.doubt ≡ None }
{
    for _ in 0..times {
        if journal.in_doubt() || added(journal, frame) != Ended::Done {
            return false;
        }
    }
    !journal.in_doubt()
}

/// How an append of five bytes ends behind 244 records of 1,100,000 bytes and one of this size,
/// with the places of the closed gate before and after it.
fn append_last(
    rt: &(impl AllocGlobal + Abort),
    mut journal: Journal<Blank>,
    size: usize,
) -> String {
    assert!(rt; is_added(&mut journal, &frame_of_size(rt, 1_100_000), 244));
    assert!(rt; is_added(&mut journal, &frame_of_size(rt, size), 1));
    let before = journal.tail();
    let ended = journal.append(&frame(rt, &bytes(rt, TICK)));
    let after = journal.tail();
    format!(in rt.alloc(); "{before} {ended:?} {after}").expect(rt, "memory")
}

/// The same on a disk that fails once it was called so many times.
fn last_of_many(rt: &(impl AllocGlobal + Abort), size_and_calls: &str) -> String {
    let (size, calls) = size_and_calls.split_once(' ').unwrap_or(("", ""));
    let calls = calls.parse::<u32>().unwrap_or(0);
    match create(Blank { calls, faults: 0 }, 0) {
        Ok(journal) => append_last(rt, journal, number_of(size)),
        Err(_) => String::new(rt.alloc()),
    }
}

/// What comes of a row.
fn told(rt: &(impl AllocGlobal + Abort), row: &str) -> String {
    let (verb, words) = row.split_once(' ').unwrap_or((row, ""));
    match verb {
        "make" => made(rt, words),
        "cut" => opened_text(rt, &cut(rt, words)),
        "put" => opened_text(rt, &put(rt, words)),
        "behind" => opened_text(rt, &behind(rt, words)),
        "fill" => opened_text(rt, &filled(rt, words)),
        "last" => last_of_many(rt, words),
        "stop" => stopped(rt, words),
        "gates" => gates(rt),
        "fail" => failed(rt, words),
        "settle" => settled(rt, words),
        "scan" => scanned(rt, words),
        _ => ready(rt, words),
    }
}

/// Holds what comes of each row to what is wanted.
fn play(rt: &(impl AllocGlobal + Abort), rows: &str) {
    for line in rows.lines() {
        let (row, wanted) = line.split_once(" => ").expect(rt, "what is wanted");
        expect_row(rt, row, &told(rt, row), wanted);
    }
}

/// The second is made over a header.
#[test]
fn a_journal_of_one_record_has_24_bytes(rt: HostRuntime) {
    let rows = "\
make => Made 1 79 83 76 79 74 82 78 49 0 0 0 0 1 0 0 0 5 0 0 1 244 7 0
make 1 OSLOJRN1 0 0 0 0 1 0 0 0 5 0 0 1 244 7 0 \
=> AlreadyThere 1 79 83 76 79 74 82 78 49 0 0 0 0 1 0 0 0 5 0 0 1 244 7 0";
    play(&rt, rows);
}

/// The file of a tick, cut after so many bytes or with another byte at a place. The bytes of the
/// tick add up to 252.
#[test]
fn a_file_opens_to_its_records_or_tells_where_it_is_damaged(rt: HostRuntime) {
    let rows = "\
cut 0 => no journal
cut 12 => no journal
cut 13 => 0 of 0, damaged at 13
cut 20 => 0 of 0, damaged at 13
cut 22 => 0 of 0, damaged at 13
cut 23 => 1 of 252, damaged at 23
cut 24 => 1 of 252
put 0 0 => no journal
put 0 255 => 1 of 252
put 1 111 => no journal
put 8 50 => no journal
put 9 3 => 1 of 252
put 9 4 => no journal
put 13 0 => 0 of 0
put 13 255 => 1 of 252
put 17 0 => 0 of 0, damaged at 13
put 17 4 => 1 of 245, damaged at 22
put 15 16 => 0 of 0, damaged at 13
put 23 1 => 1 of 252, damaged at 23";
    play(&rt, rows);
}

/// Behind the header's 13 bytes and two records of 5, each with its gate and its length, a gate
/// stands at 33.
#[test]
fn damage_behind_two_records_is_told_at_its_gate(rt: HostRuntime) {
    let rows = "\
behind => 2 of 504, damaged at 33
behind 1 => 2 of 504, damaged at 33
behind 1 0 0 0 0 => 2 of 504, damaged at 33
behind 1 0 0 0 2 5 => 2 of 504, damaged at 33
behind 1 0 0 0 2 5 6 => 3 of 515, damaged at 40
behind 0 => 2 of 504";
    play(&rt, rows);
}

/// The size of the last record but one, and the calls after which the disk fails: up to the last
/// record there are 988.
#[test]
fn the_closed_gate_stands_within_the_limit(rt: HostRuntime) {
    let rows = "\
last 34207 9999 => 268435445 Ok(()) 268435455
last 34207 988 => 268435445 Err(NotKept) 268435445
last 34208 988 => 268435446 Err(JournalFull { tail: 268435446, needed: 268435457 }) 268435446";
    play(&rt, rows);
}

/// The calls that make a journal over these bytes.
#[test]
fn a_stop_leaves_the_acknowledged_records(rt: HostRuntime) {
    let rows = "\
stop 8 => Done Done Done, 8 more calls, 0 unexpected
stop 6 0 => Done Done Done, 8 more calls, 0 unexpected
stop 8 255 OSLOJRN2 0 0 0 0 0 => Done Done Done, 8 more calls, 0 unexpected
stop 6 0 OSLOJRN1 0 0 0 8 0 => Done Done Done, 8 more calls, 0 unexpected";
    play(&rt, rows);
}

#[test]
fn a_gate_of_any_byte_but_0_is_open(rt: HostRuntime) {
    play(&rt, "gates => 1, 255 times 2");
}

#[test]
fn a_call_that_fails_is_told(rt: HostRuntime) {
    let rows = "\
fail 0 => Failed NotTried NotTried, no journal
fail 1 => Failed NotTried NotTried, no journal
fail 2 => Failed NotTried NotTried, no journal
fail 3 => Failed NotTried NotTried, no journal
fail 4 => Failed NotTried NotTried, no journal
fail 5 => Failed NotTried NotTried, no journal
fail 6 => Failed NotTried NotTried, no journal
fail 7 => Failed NotTried NotTried, 0 of 0
fail 8 => Done NotKept Done, 1 of 13
fail 9 => Done NotKept Done, 1 of 13
fail 10 => Done SettledLost Done, 1 of 13
fail 11 => Done SettledKept Done, 2 of 18
fail 12 => Done Done NotKept, 1 of 5
fail 13 => Done Done NotKept, 1 of 5
fail 14 => Done Done SettledLost, 1 of 5
fail 15 => Done Done SettledKept, 2 of 18
fail 10 11 => Done InDoubt NotTried, 0 of 0
fail 11 12 => Done InDoubt NotTried, 1 of 5
fail 11 13 => Done InDoubt NotTried, 1 of 5
fail 98 => Done Done Done, 2 of 18";
    play(&rt, rows);
}

#[test]
fn a_settling_that_fails_is_tried_again(rt: HostRuntime) {
    let rows = "\
settle 10 11 => None Some(false) false 13
settle 11 12 => None Some(true) false 23
settle 11 13 => None Some(true) false 23";
    play(&rt, rows);
}

#[test]
fn records_pass_over_the_pieces_that_are_read(rt: HostRuntime) {
    let row = "fill 1100000 1 524000 524600 3 1048571 1100000 2 => 8 of 4297177";
    play(&rt, row);
}

#[test]
fn a_read_that_fails_is_told_and_tried_again(rt: HostRuntime) {
    let rows = "\
scan 0 => DiskFault
scan 1 => DiskFault
scan 2 => Err(DiskFault) 13 0, Ok(true) 23 5
scan => Ok(true) 23 5, Ok(false) 23 0";
    play(&rt, rows);
}

#[test]
fn a_journal_stands_once_what_was_read_is_synced(rt: HostRuntime) {
    let rows = "\
ready => Ok(23) 5
ready 4 => Err(DiskFault) 5";
    play(&rt, rows);
}
