//! Files that a stop may leave: each byte that isn't synced is as it was, or as it was written.

use office_outside::{DiskCall, MemoryDisk};
use std::alloc::{AllocError, Global};

/// The most places whose bytes are mixed each way: twice as many files with each further one.
const MOST_PLACES: usize = 13;

/// What stands behind the old end where nothing was written: nothing, or bytes of other files.
pub const FILLS: [u8; 2] = [0, 255];

/// A file of which a stop may leave any mixture: as the last sync left it, and as it was written
/// since then.
#[derive(Drop)]
pub struct Torn {
    old: Vec<u8>,
    new: Vec<u8>,
}

/// The files that end at one place: the old bytes, those that were written, and where they differ.
#[derive(Drop)]
pub struct Mixtures<'a> {
    old: Vec<u8>,
    new: &'a [u8],
    places: Vec<usize>,
}

/// Appends a byte up to this end.
fn pad(file: &mut Vec<u8>, end: usize, fill: u8) -> Result<(), AllocError> {
    for _ in file.len()..end {
        file.push(fill)?;
    }
    Ok(())
}

/// Puts bytes at a place, and what stood behind them.
fn put(file: &mut Vec<u8>, at: usize, bytes: &[u8], behind: &[u8]) -> Result<(), AllocError> {
    file.truncate(at);
    pad(file, at, 0)?;
    file.extend_from_slice(bytes)?;
    file.extend_from_slice(behind)
}

/// Makes the write of a call.
fn make(alloc: Global, file: &mut Vec<u8>, at: usize, bytes: &[u8]) -> Result<(), AllocError> {
    let end = at.saturating_add(bytes.len());
    let behind = file.get(end..).unwrap_or(&[]).to_vec(alloc)?;
    put(file, at, bytes, &behind)
}

/// Makes the writes of these calls that were done.
fn make_all(alloc: Global, file: &mut Vec<u8>, calls: &[DiskCall]) -> Result<(), AllocError> {
    for call in calls.iter() {
        if let DiskCall::Wrote {
            at,
            bytes,
            done: true,
        } = call
        {
            make(alloc, file, *at as usize, bytes)?;
        }
    }
    Ok(())
}

/// The file as it reads after these calls.
fn written(alloc: Global, first: &[u8], calls: &[DiskCall]) -> Result<Vec<u8>, AllocError> {
    let mut file = first.to_vec(alloc)?;
    make_all(alloc, &mut file, calls)?;
    Ok(file)
}

/// A file that is as long as the end, with this byte behind what it had.
fn filled(alloc: Global, file: &[u8], end: usize, fill: u8) -> Result<Vec<u8>, AllocError> {
    let mut file = file.to_vec(alloc)?;
    pad(&mut file, end, fill)?;
    Ok(file)
}

/// Copies the byte at a place.
fn copy_at(file: &mut [u8], new: &[u8], place: usize) {
    if let Some(byte) = new.get(place) {
        if let Some(old) = file.get_mut(place) {
            *old = *byte;
        }
    }
}

/// The places at which two files differ.
fn places_between(alloc: Global, old: &[u8], new: &[u8]) -> Result<Vec<usize>, AllocError> {
    let mut places: Vec<usize> = Vec::new(alloc);
    for (place, (before, after)) in old.iter().zip(new.iter()).enumerate() {
        if before != after {
            places.push(place)?;
        }
    }
    Ok(places)
}

impl Torn {
    /// What a stop after so many calls may leave of a file that had these bytes at first.
    pub fn after(
        alloc: Global,
        first: &[u8],
        disk: &MemoryDisk,
        calls: usize,
    ) -> Result<Torn, AllocError> {
        let made = disk.calls().get(..calls).unwrap_or(&[]);
        Ok(Torn {
            old: disk.after_stop(calls, &[])?,
            new: written(alloc, first, made)?,
        })
    }

    /// The ends that it may have.
    pub fn ends(&self) -> std::ops::RangeInclusive<usize> {
        self.old.len()..=self.new.len()
    }

    /// The mixtures that end there; where nothing was written behind the old end stands this byte.
    pub fn ending(&self, alloc: Global, end: usize, fill: u8) -> Result<Mixtures<'_>, AllocError> {
        let old = filled(alloc, &self.old, end, fill)?;
        let places = places_between(alloc, &old, &self.new)?;
        Ok(Mixtures {
            old,
            new: &self.new,
            places,
        })
    }
}

impl Mixtures<'_> {
    /// How many there are, where they aren't too many.
    pub fn count(&self) -> Option<u32> {
        if self.places.len() > MOST_PLACES {
            return None;
        }
        let mut count = 1u32;
        for _ in self.places.iter() {
            count = count.saturating_mul(2);
        }
        Some(count)
    }

    /// The mixture of a number: its bits name the places with the bytes that were written.
    pub fn at(&self, alloc: Global, number: u32) -> Result<Vec<u8>, AllocError> {
        let mut file = self.old.to_vec(alloc)?;
        let mut bits = number;
        for place in self.places.iter() {
            if bits % 2 == 1 {
                copy_at(&mut file, self.new, *place);
            }
            bits /= 2;
        }
        Ok(file)
    }
}
