//! Feeds, one after another.
ghost use Rattle.std.specs.Prelude.{◌≡◌, ◌+◌, ◌≤◌, None, ℕ, length, Err, IfErr, IfOk, OnOk};
ghost use Rattle.office_outside.specs.Faults.{RoseBy};
ghost use Rattle.entry_records.specs.declared.limits.TheConstants.{MAX_FEEDS_BYTES};
ghost use Rattle.follow_terms.specs.declared.FollowEnd.TheVariants as ends;
ghost use Rattle.follow_terms.specs.Follows.{Between};
ghost use Rattle.office_follow.specs.Heads.{IsHeadRead, LacksHead, head_of};
ghost use Rattle.office_follow.specs.Points.{EndsFrom, GoesOn, point};

use crate::entries::follow_entries;
use crate::pieces::{numeral, take_piece};
use follow_terms::FollowEnd;
use office_core::Core;
use office_keep::Office;
use office_outside::{Disk, Source};
use std::alloc::Global;

/// How many bytes the head of a feed has.
const HEAD: usize = 20;

/// The first position of a feed and its count, by the bytes of its head, which stand at a place.
fn head_of(core: &Core, at: u64, head: &[u8]) -> Result<(u32, u32), FollowEnd>
    requires { length head.now ≡ 20 }
    ensures { result ≡ head_of core.now.office at head.now }
{
    if &head[..8] != b"OSLOFEED".as_slice() {
        return Err(FollowEnd::Broken { at });
    }
    let origin = numeral(head, 8);
    if origin != core.origin() {
        return Err(FollowEnd::OtherOrigin { origin });
    }
    let first = numeral(head, 12);
    if core.length() < first {
        return Err(FollowEnd::Gap { at: first });
    }
    Ok((first, numeral(head, 16)))
}

/// The first position of the next feed, and its count.
fn next_head<S: Source>(
    core: &Core,
    input: &mut S,
    at: u64,
    piece: &mut Vec<u8>,
) -> Result<(u32, u32), FollowEnd>
    requires { at ≤ MAX_FEEDS_BYTES }
    ensures read { IfOk result (λ head. IsHeadRead core.now.office at head (S.left input.old)
        (S.left input.new)) }
    ensures within { IfOk result (λ head. head.0 ≤ length core.now.office.history) }
    ensures bound { OnOk result (at + 20 ≤ MAX_FEEDS_BYTES) }
    ensures lacks { IfErr result (LacksHead core.now.office at (S.left input.old)) }
    ensures cause { result ≡ Err ends.ReadFault → RoseBy S.faults input.old input.new }
    ensures never { result ≡ Err ends.DiskFault → ⊥ }
    ensures later { S.faults input.old ≤ S.faults input.new }
{
    match take_piece(input, at, HEAD, piece) {
        Ok(true) => head_of(core, at, piece),
        Ok(false) => Err(FollowEnd::Done),
        Err(end) => Err(end),
    }
}

/// Follows the next feed, and gives how many bytes were read then.
pub(crate) fn follow_feed<D: Disk + Drop, S: Source>(
    alloc: Global,
    office: &mut Office<D>,
    input: &mut S,
    at: u64,
    piece: &mut Vec<u8>,
) -> Result<u64, FollowEnd>
    requires at { at ≤ MAX_FEEDS_BYTES }
    requires none { office.old.doubt ≡ None }
    ensures goes_on { IfOk result (λ now. GoesOn D.senses
        Between (point office.old at (S.left input.old) (S.faults input.old))
        Between (point office.new now (S.left input.new) (S.faults input.new))) }
    ensures ended { IfErr result (λ end. EndsFrom D.senses
        Between (point office.old at (S.left input.old) (S.faults input.old))
        end office.new (S.faults input.new)) }
    ensures bound { IfOk result (λ now. (at + 20 ≤ now) × (now ≤ MAX_FEEDS_BYTES)) }
{
    office.disk_stands();
    match next_head(office.core(), input, at, piece) {
        Ok((first, count)) => {
            follow_entries(alloc, office, input, at + HEAD as u64, first, count, piece)
        }
        Err(end) => Err(end),
    }
}
