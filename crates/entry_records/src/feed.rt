//! Feeds of records.
ghost use Rattle.std.specs.Prelude.{◌≡◌, ◌≤◌, ◌+◌, ◌++◌, [], length, take, drop, OnOk, IfOk};
ghost use Rattle.std.specs.Int.{w32, to_be_bytes};
ghost use Rattle.entry_records.specs.Feeds.{fed, feed_mark, feed_of, with_lengths};
ghost use Rattle.entry_records.specs.Kept.{IsKept, records_in};

use crate::limits::MAX_FEED_BYTES;
use crate::places::{record_at, taken_at};
use std::alloc::{AllocError, Global};

/// How many bytes the head of a feed has.
const HEAD: usize = 20;

/// The most bytes of a feed behind its head.
const MAX_BODY: usize = MAX_FEED_BYTES - HEAD;

/// How many records from a place on go into one feed, and for how many bytes there has to be room.
fn fed_from(bytes: &[u8], ends: &[u32], from: usize) -> (usize, usize)
    requires kept { IsKept bytes.now ends.now }
    ensures { result.0 ≡ length (fed (drop from (records_in bytes.now))) }
{
    let mut size = match taken_at(bytes, ends, from) {
        Some(first) => first,
        None => return (0, 0),
    };
    let mut count = 1;
    while let Some(next) = taken_at(bytes, ends, from + count) {
        if MAX_BODY.saturating_sub(size) < next {
            return (count, size);
        }
        size += next;
        count += 1;
    }
    (count, size)
}

/// Puts a record behind its length.
fn put_record(out: &mut Vec<u8>, piece: &[u8]) -> Result<(), AllocError>
    requires { length piece.now ≤ 4294967295 }
    ensures { OnOk result (out.new.items ≡ out.old.items
        ++ (to_be_bytes w32 (length piece.now) ++ piece.now)) }
{
    out.extend_from_slice(&(piece.len() as u32).to_be_bytes())?;
    out.extend_from_slice(piece)
}

/// Puts so many records from a place on, each behind its length.
fn put_records(
    out: &mut Vec<u8>,
    bytes: &[u8],
    ends: &[u32],
    from: usize,
    count: usize,
) -> Result<(), AllocError>
    requires kept { IsKept bytes.now ends.now }
    requires there { count ≤ length (drop from (records_in bytes.now)) }
    ensures { OnOk result (out.new.items ≡ out.old.items
        ++ with_lengths (take count (drop from (records_in bytes.now))) []) }
{
    for place in from..from + count {
        if let Some(piece) = record_at(bytes, ends, place) {
            put_record(out, piece)?;
        }
    }
    Ok(())
}

/// The head of a feed of so many records, with room for so many bytes behind it.
fn feed_head(
    alloc: Global,
    origin: u32,
    from: u32,
    count: u32,
    size: usize,
) -> Result<Vec<u8>, AllocError>
    ensures { IfOk result (λ head. head.items ≡ feed_mark ++ (to_be_bytes w32 origin
        ++ (to_be_bytes w32 from ++ to_be_bytes w32 count))) }
{
    let mut out = Vec::new(alloc);
    out.reserve(size.saturating_add(HEAD))?;
    out.extend_from_slice(b"OSLOFEED")?;
    out.extend_from_slice(&origin.to_be_bytes())?;
    out.extend_from_slice(&from.to_be_bytes())?;
    out.extend_from_slice(&count.to_be_bytes())?;
    Ok(out)
}

/// The feed of the records from a position on, in memory that is taken once.
pub(crate) fn feed_bytes(
    alloc: Global,
    origin: u32,
    from: u32,
    bytes: &[u8],
    ends: &[u32],
) -> Result<Vec<u8>, AllocError>
    requires kept { IsKept bytes.now ends.now }
    ensures { IfOk result (λ text. text.items
        ≡ feed_of origin from (drop from (records_in bytes.now))) }
{
    let (count, size) = fed_from(bytes, ends, from as usize);
    let mut out = feed_head(alloc, origin, from, count as u32, size)?;
    put_records(&mut out, bytes, ends, from as usize, count)?;
    Ok(out)
}
