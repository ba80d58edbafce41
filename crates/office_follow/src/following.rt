//! The following of an input.
ghost use Rattle.std.specs.Prelude.{◌≡◌, None};
ghost use Rattle.follow_terms.specs.Follows.{Between};
ghost use Rattle.office_follow.specs.Followed.{HasFollowedInput, LeadsTo};
ghost use Rattle.office_follow.specs.Points.{EndsFrom, point};

use crate::feeds::follow_feed;
use follow_laws::laws;
use follow_terms::FollowEnd;
use office_keep::Office;
use office_outside::{Disk, Source};
use slo_limits::MAX_RECORD_BYTES;
use std::alloc::Global;

/// Follows the feeds of an input to its end, or to what ends it before: takes each entry behind the
/// history, and compares each one of a position that the office holds.
///
/// Room for a piece is taken before the first read. Entries that were taken stay, whatever the end.
pub fn follow<D: Disk + Drop, S: Source>(
    alloc: Global,
    office: &mut Office<D>,
    input: &mut S,
) -> FollowEnd
    requires { office.old.doubt ≡ None }
    ensures followed { HasFollowedInput D.senses office.old (S.left input.old)
        (S.faults input.old) result office.new (S.faults input.new) }
    ensures leads { LeadsTo D.senses office.old (S.left input.old) result office.new }
{
    laws::true_feeds_lead_to_the_history();
    let end = follow_all(alloc, office, input);
    office.disk_stands();
    end
}

fn follow_all<D: Disk + Drop, S: Source>(
    alloc: Global,
    office: &mut Office<D>,
    input: &mut S,
) -> FollowEnd
    requires { office.old.doubt ≡ None }
    ensures { EndsFrom D.senses Between
        (point office.old 0 (S.left input.old) (S.faults input.old)) result office.new
        (S.faults input.new) }
{
    office.disk_stands();
    let mut piece: Vec<u8> = Vec::new(alloc);
    if piece.reserve(MAX_RECORD_BYTES).is_err() {
        return FollowEnd::NoMemory;
    }
    let mut at = 0;
    'following: loop {
        match follow_feed(alloc, office, input, at, &mut piece) {
            Ok(now) => at = now,
            Err(end) => return end,
        }
    }
}
