//! The entries of a feed.
ghost use Rattle.std.specs.Prelude.{◌≡◌, ◌+◌, ◌≤◌, None, Some, ℕ, suc};
ghost use Rattle.std.specs.Prelude.{length, Err, IfErr, IfOk, OnOk};
ghost use Rattle.office_outside.specs.Disk.{LeavesOnly};
ghost use Rattle.office_outside.specs.Faults.{RoseBy};
ghost use Rattle.slo_limits.specs.declared.TheConstants.{MAX_RECORD_BYTES};
ghost use Rattle.entry_records.specs.declared.limits.TheConstants.{MAX_FEEDS_BYTES};
ghost use Rattle.record_form.specs.Ranges.{IsRecord};
ghost use Rattle.record_form.specs.Records.{entry_of};
ghost use Rattle.follow_terms.specs.declared.FollowEnd.TheVariants as ends;
ghost use Rattle.follow_terms.specs.Follows.{Between, Inside};
ghost use Rattle.office_follow.specs.Pieces.{IsEntryRead, IsNoEntry, IsSizeRead, LacksEntry};
ghost use Rattle.office_follow.specs.Pieces.{LacksSize};
ghost use Rattle.office_follow.specs.Points.{EndsFrom, GoesOn, IsOutOf, IsThere, LeavesPlacing};
ghost use Rattle.office_follow.specs.Points.{end_of, point};

use crate::pieces::{numeral, take_piece};
use follow_terms::FollowEnd;
use office_keep::{Adopted, Office};
use office_outside::{Disk, Source};
use record_form::{Entry, read_record};
use slo_limits::MAX_RECORD_BYTES;
use std::alloc::Global;

/// The size of the next record.
fn read_size<S: Source>(input: &mut S, at: u64, piece: &mut Vec<u8>) -> Result<usize, FollowEnd>
    requires { at ≤ MAX_FEEDS_BYTES }
    ensures read { IfOk result (λ size. IsSizeRead at size (S.left input.old) (S.left input.new)) }
    ensures bound { IfOk result (λ size. (at + 4 ≤ MAX_FEEDS_BYTES) × (1 ≤ size)
        × (size ≤ MAX_RECORD_BYTES)) }
    ensures lacks { IfErr result (LacksSize at (S.left input.old)) }
    ensures cause { result ≡ Err ends.ReadFault → RoseBy S.faults input.old input.new }
    ensures never { result ≡ Err ends.DiskFault → ⊥ }
    ensures later { S.faults input.old ≤ S.faults input.new }
{
    match take_piece(input, at, 4, piece) {
        Ok(true) => {
            let size = numeral(piece, 0) as usize;
            if size < 1 || size > MAX_RECORD_BYTES {
                return Err(FollowEnd::Broken { at });
            }
            Ok(size)
        }
        Ok(false) => Err(FollowEnd::Cut),
        Err(end) => Err(end),
    }
}

/// The entry of a record behind its length, which stands at a place.
fn read_entry(alloc: Global, at: u64, piece: &[u8]) -> Result<Entry, FollowEnd>
    ensures record { IfOk result (λ e. IsRecord piece.now e) }
    ensures read { IfOk result (λ e. entry_of piece.now ≡ Some e) }
    ensures lacks { IfErr result (IsNoEntry at piece.now) }
    ensures never { (result ≡ Err ends.DiskFault → ⊥) × (result ≡ Err ends.ReadFault → ⊥) }
{
    match read_record(alloc, piece) {
        Ok(Some(entry)) => Ok(entry),
        Ok(None) => Err(FollowEnd::Broken { at }),
        Err(_) => Err(FollowEnd::NoMemory),
    }
}

/// The next entry: its length is read, and then its record into the piece.
fn next_entry<S: Source>(
    alloc: Global,
    input: &mut S,
    at: u64,
    piece: &mut Vec<u8>,
) -> Result<Entry, FollowEnd>
    requires { at ≤ MAX_FEEDS_BYTES }
    ensures read { IfOk result (λ e. IsEntryRead at (length piece.new.items) e (S.left input.old)
        (S.left input.new)) }
    ensures record { IfOk result (λ e. IsRecord piece.new.items e) }
    ensures bound { OnOk result (at + 4 + length piece.new.items ≤ MAX_FEEDS_BYTES) }
    ensures lacks { IfErr result (LacksEntry at (S.left input.old)) }
    ensures cause { result ≡ Err ends.ReadFault → RoseBy S.faults input.old input.new }
    ensures never { result ≡ Err ends.DiskFault → ⊥ }
    ensures later { S.faults input.old ≤ S.faults input.new }
{
    let size = match read_size(input, at, piece) {
        Ok(size) => size,
        Err(end) => return Err(end),
    };
    match take_piece(input, at + 4, size, piece) {
        Ok(true) => read_entry(alloc, at, piece),
        Ok(false) => Err(FollowEnd::Cut),
        Err(end) => Err(end),
    }
}

/// How following ends where an entry isn't adopted.
fn end_of(adopted: Adopted, position: u32) -> Result<(), FollowEnd>
    ensures { result ≡ end_of adopted position }
{
    match adopted {
        Adopted::Taken(_) => Ok(()),
        Adopted::Illegal => Err(FollowEnd::Illegal { at: position }),
        Adopted::JournalFull => Err(FollowEnd::JournalFull),
        Adopted::DiskFault => Err(FollowEnd::DiskFault),
        Adopted::NoMemory => Err(FollowEnd::NoMemory),
    }
}

/// Compares an entry with the one that is held at its position, or adopts it behind the history.
fn place<D: Disk + Drop>(
    alloc: Global,
    office: &mut Office<D>,
    position: u32,
    entry: &Entry,
    piece: &[u8],
) -> Result<(), FollowEnd>
    requires none { office.old.doubt ≡ None }
    requires record { IsRecord piece.now entry.now }
    requires within { position ≤ length office.old.office.history }
    ensures there { OnOk result
        (IsThere office.old.office position entry.now office.new.office) }
    ensures none { OnOk result (office.new.doubt ≡ None) }
    ensures out { IfErr result (IsOutOf office.old.office position entry.now office.new.office
        office.new.doubt) }
    ensures moments { LeavesOnly D.senses office.old.disk office.new.disk
        (LeavesPlacing office.old.office position entry.now) }
    ensures within { OnOk result (position + 1 ≤ length office.new.office.history) }
    ensures cause { result ≡ Err ends.DiskFault
        → RoseBy D.senses.faults office.old.disk office.new.disk }
    ensures later { D.senses.faults office.old.disk ≤ D.senses.faults office.new.disk }
    ensures never { result ≡ Err ends.ReadFault → ⊥ }
{
    office.disk_stands();
    match office.core().record_at(position) {
        Some(held) => {
            if held == piece {
                Ok(())
            } else {
                Err(FollowEnd::Diverges { at: position })
            }
        }
        None => end_of(office.adopt(alloc, entry), position),
    }
}

/// Follows the entry at a position, and gives how many bytes were read then.
fn follow_entry<D: Disk + Drop, S: Source>(
    alloc: Global,
    office: &mut Office<D>,
    input: &mut S,
    at: u64,
    position: u32,
    piece: &mut Vec<u8>,
) -> Result<u64, FollowEnd>
    requires at { at ≤ MAX_FEEDS_BYTES }
    requires none { office.old.doubt ≡ None }
    requires within { position ≤ length office.old.office.history }
    ensures goes_on { (count : ℕ) → IfOk result (λ now. GoesOn D.senses
        (Inside (suc count) position) (point office.old at (S.left input.old) (S.faults input.old))
        (Inside count (suc position)) (point office.new now (S.left input.new)
        (S.faults input.new))) }
    ensures ended { (count : ℕ) → IfErr result (λ end. EndsFrom D.senses
        (Inside (suc count) position) (point office.old at (S.left input.old) (S.faults input.old))
        end office.new (S.faults input.new)) }
    ensures bound { IfOk result (λ now. now ≤ MAX_FEEDS_BYTES) }
    ensures progress { IfOk result (λ now. at + 4 ≤ now) }
    ensures within { OnOk result (position + 1 ≤ length office.new.office.history) }
{
    office.disk_stands();
    let entry = match next_entry(alloc, input, at, piece) {
        Ok(entry) => entry,
        Err(end) => return Err(end),
    };
    let placed = place(alloc, office, position, &entry, piece);
    drop(entry);
    match placed {
        Ok(()) => Ok(at + 4 + piece.len() as u64),
        Err(end) => Err(end),
    }
}

/// Follows so many entries of a feed, the first of which is at that position, and gives how many
/// bytes were read then.
pub(crate) fn follow_entries<D: Disk + Drop, S: Source>(
    alloc: Global,
    office: &mut Office<D>,
    input: &mut S,
    at: u64,
    first: u32,
    count: u32,
    piece: &mut Vec<u8>,
) -> Result<u64, FollowEnd>
    requires at { at ≤ MAX_FEEDS_BYTES }
    requires none { office.old.doubt ≡ None }
    requires within { first ≤ length office.old.office.history }
    ensures goes_on { IfOk result (λ now. GoesOn D.senses
        (Inside count first) (point office.old at (S.left input.old) (S.faults input.old))
        Between (point office.new now (S.left input.new) (S.faults input.new))) }
    ensures ended { IfErr result (λ end. EndsFrom D.senses
        (Inside count first) (point office.old at (S.left input.old) (S.faults input.old))
        end office.new (S.faults input.new)) }
    ensures bound { IfOk result (λ now. (at ≤ now) × (now ≤ MAX_FEEDS_BYTES)) }
{
    office.disk_stands();
    let mut now = at;
    let mut position = first;
    let mut more = count;
    'following: while more > 0 {
        match follow_entry(alloc, office, input, now, position, piece) {
            Ok(read) => now = read,
            Err(end) => return Err(end),
        }
        let _held = office.length();
        position += 1;
        more -= 1;
    }
    Ok(now)
}
