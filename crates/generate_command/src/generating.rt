//! The session of a sample stream.
ghost use Rattle.std.specs.Prelude.{◌≡◌, ◌+◌, ◌≤◌, None, IfOk, length, string_bytes};
ghost use Rattle.sample_stream.specs.Stream.{stream_of};
ghost use Rattle.sample_stream.specs.declared.stream.TheConstants.{MAX_NUMBER};
ghost use Rattle.generate_command.specs.Generated.{IsFresh, IsGenerated, IsSummedUp};

use crate::playing::{is_whole, play};
use crate::summary::summary;
use crate::tallying::Tallying;
use office_keep::Office;
use office_outside::{Disk, MemoryDisk, MemorySink, Plan};
use own_counter::OwnCounter;
use sample_stream::generate;
use std::alloc::{AllocError, Global};

/// How many requests a stream has beside its batches.
const OTHER_REQUESTS: u64 = 5;

/// The stream of a number, in memory.
fn stream_in_memory(alloc: Global, number: u32) -> Result<Vec<u8>, AllocError>
    requires { number ≤ MAX_NUMBER }
    ensures { IfOk result (λ bytes. bytes.items ≡ stream_of number) }
{
    let mut stream = MemorySink::new(alloc, Plan::smooth(alloc));
    match generate(number, &mut stream) {
        Ok(()) => stream.bytes().to_vec(alloc),
        Err(_) => Err(AllocError),
    }
}

/// The summary of a session that has these answers. Where an answer says that memory ran out, where
/// an outcome came for want of memory or by a failure of the disk, or where not each request of the
/// stream was asked, there is none.
fn sum_up<D: Disk + Drop>(
    alloc: Global,
    number: u32,
    seat: Tallying<OwnCounter<D>>,
    answers: &[u8],
) -> Result<String, AllocError>
    ensures { IfOk result (λ text. IsSummedUp number seat answers.now (string_bytes text)) }
{
    let tally = seat.tally;
    let lacks = seat.lacks;
    let office = seat.counter.give_back();
    let entries = office.length();
    let cells = office.core().cells();
    drop(office.into_disk());
    if lacks || tally.requests != u64::from(number) + OTHER_REQUESTS || !is_whole(answers) {
        return Err(AllocError);
    }
    summary(alloc, &tally, entries, cells)
}

/// Plays the stream over a counter, and sums up.
fn play_stream<D: Disk + Drop>(
    alloc: Global,
    number: u32,
    stream: Vec<u8>,
    mut seat: Tallying<OwnCounter<D>>,
) -> Result<String, AllocError>
    requires number { number ≤ MAX_NUMBER }
    requires stream { stream.items ≡ stream_of number }
    requires fresh { IsFresh seat }
    ensures { IfOk result (λ text. IsGenerated number (string_bytes text)) }
{
    match play(alloc, stream, 1000 * number, &mut seat) {
        Ok(answers) => sum_up(alloc, number, seat, answers.bytes()),
        Err(AllocError) => {
            drop(seat);
            Err(AllocError)
        }
    }
}

/// Plays the stream over a new office on a disk, and sums up.
fn play_over<D: Disk + Drop>(
    alloc: Global,
    number: u32,
    stream: Vec<u8>,
    disk: D,
) -> Result<String, AllocError>
    requires number { number ≤ MAX_NUMBER }
    requires stream { stream.items ≡ stream_of number }
    ensures { IfOk result (λ text. IsGenerated number (string_bytes text)) }
{
    match Office::create(alloc, disk, 0) {
        Ok(office) => {
            let seat = Tallying::new(OwnCounter::new(alloc, office));
            play_stream(alloc, number, stream, seat)
        }
        Err(failed) => {
            drop(failed.disk);
            Err(AllocError)
        }
    }
}

/// The summary of a session of the sample stream of a number, from 1 to 995, over a new office of
/// origin 0 on a disk in memory, at a clock that always reads the minute behind the last batch. The
/// number of requests, how many answers were of status 200, the history's entries and current rows,
/// and what the last answer says of the budget: what was good, of what was counted, the burn rate,
/// and what remains.
///
/// # Errors
///
/// Memory ran out, somewhere in the session too.
pub fn generated_summary(alloc: Global, number: u32) -> Result<String, AllocError>
    requires { number ≤ MAX_NUMBER }
    ensures { IfOk result (λ text. IsGenerated number (string_bytes text)) }
{
    let stream = stream_in_memory(alloc, number)?;
    let disk = MemoryDisk::new(alloc, Vec::new(alloc), Plan::smooth(alloc))?;
    play_over(alloc, number, stream, disk)
}
