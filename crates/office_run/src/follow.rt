//! `follow`: opens the journal, and follows the feeds of the input over it.
ghost use Rattle.std.specs.Prelude.{◌≡◌, ◌≢◌, IfOk, string_bytes};
ghost use Rattle.office_outside.specs.Faults.{RoseBy};
ghost use Rattle.journal_commands.specs.Following.{EndsFollowing, follow_world};
ghost use Rattle.journal_commands.specs.declared.FollowingEnd.{FollowingEnd};
ghost use Rattle.office_run.specs.Follow.{SettledFollow, SettledLine, SettledStop};
ghost use Rattle.office_run.specs.Follow.{numbered_line as numbered_line_def};
ghost use Rattle.office_run.specs.Follow.{origin_line as origin_line_def};

use crate::ending::{DISK_FAULT, DONE, NO_MEMORY, READ_FAULT, REFUSED, USAGE, WRITE_FAULT};
use crate::faults_sink::{tell_as, tell_status};
use crate::running::RunEnd;
use crate::unopened::settle_unopened;
use follow_terms::FollowEnd;
use journal_commands::{FollowingEnd, follow_journal};
use office_outside::{Disk, Sink, Source};
use std::alloc::{AllocError, Global};

/// The line of a refusal that names a place or a position.
fn numbered_line(alloc: Global, words: &str, number: u64) -> Result<String, AllocError>
    ensures { IfOk result (λ line. string_bytes line ≡ numbered_line_def words.now number) }
{
    format!(in alloc; "slo_office: {words} at {number}\n")
}

/// The line for the feed of another office.
fn origin_line(alloc: Global, origin: u32) -> Result<String, AllocError>
    ensures { IfOk result (λ line. string_bytes line ≡ origin_line_def origin) }
{
    format!(in alloc; "slo_office: other origin {origin}\n")
}

/// The status of a refusal that names a number, whose line the faults sink is told.
fn settle_numbered<E: Sink>(alloc: Global, words: &str, number: u64, faults: &mut E) -> u8
    ensures { SettledLine (numbered_line_def words.now number) result (E.held faults.old)
        (E.held faults.new) (E.faults faults.old) (E.faults faults.new) }
{
    match numbered_line(alloc, words, number) {
        Ok(line) => tell_as(faults, line.as_str(), REFUSED),
        Err(_) => tell_status(faults, NO_MEMORY),
    }
}

/// The status of the feed of another office, whose line the faults sink is told.
fn settle_origin<E: Sink>(alloc: Global, origin: u32, faults: &mut E) -> u8
    ensures { SettledLine (origin_line_def origin) result (E.held faults.old)
        (E.held faults.new) (E.faults faults.old) (E.faults faults.new) }
{
    match origin_line(alloc, origin) {
        Ok(line) => tell_as(faults, line.as_str(), REFUSED),
        Err(_) => tell_status(faults, NO_MEMORY),
    }
}

/// The status of an end of following, whose line the faults sink is told.
fn settle_stop<E: Sink>(alloc: Global, stop: FollowEnd, faults: &mut E) -> u8
    ensures { SettledStop stop result (E.held faults.old) (E.held faults.new)
        (E.faults faults.old) (E.faults faults.new) }
{
    match stop {
        FollowEnd::Done => DONE,
        FollowEnd::ReadFault => tell_status(faults, READ_FAULT),
        FollowEnd::TooLarge => tell_as(faults, "slo_office: input too large\n", REFUSED),
        FollowEnd::Cut => tell_as(faults, "slo_office: cut\n", REFUSED),
        FollowEnd::Broken { at } => settle_numbered(alloc, "feed broken", at, faults),
        FollowEnd::OtherOrigin { origin } => settle_origin(alloc, origin, faults),
        FollowEnd::Gap { at } => settle_numbered(alloc, "gap", at as u64, faults),
        FollowEnd::Diverges { at } => settle_numbered(alloc, "diverges", at as u64, faults),
        FollowEnd::Illegal { at } => settle_numbered(alloc, "illegal", at as u64, faults),
        FollowEnd::JournalFull => tell_as(faults, "slo_office: journal full\n", REFUSED),
        FollowEnd::DiskFault => tell_status(faults, DISK_FAULT),
        FollowEnd::NoMemory => tell_status(faults, NO_MEMORY),
    }
}

/// The status of an end, whose line the faults sink is told.
fn settle_follow<E: Sink>(alloc: Global, end: FollowingEnd, faults: &mut E) -> u8
    ensures { SettledFollow end result (E.held faults.old) (E.held faults.new)
        (E.faults faults.old) (E.faults faults.new) }
{
    match end {
        FollowingEnd::Done => DONE,
        FollowingEnd::Stopped(stop) => settle_stop(alloc, stop, faults),
        FollowingEnd::WriteFault => tell_status(faults, WRITE_FAULT),
        FollowingEnd::NoMemory => tell_status(faults, NO_MEMORY),
        FollowingEnd::Unopened(why) => settle_unopened(alloc, why, faults),
    }
}

/// Runs `follow`.
pub fn run_follow<S: Source, K: Sink, E: Sink, D: Disk + Drop>(
    alloc: Global,
    input: &mut S,
    output: &mut K,
    faults: &mut E,
    disk: D,
) -> RunEnd<D>
    ensures settled { (end : FollowingEnd) × SettledFollow end result.status (E.held faults.old)
        (E.held faults.new) (E.faults faults.old) (E.faults faults.new)
        × EndsFollowing D.senses end (follow_world disk (S.left input.old) (S.faults input.old)
        (K.held output.old)) (follow_world result.disk (S.left input.new) (S.faults input.new)
        (K.held output.new)) }
    ensures silent { result.status ≡ DONE → E.held faults.new ≡ E.held faults.old }
    ensures read { result.status ≡ READ_FAULT → RoseBy S.faults input.old input.new }
    ensures write { result.status ≡ WRITE_FAULT → RoseBy K.faults output.old output.new }
    ensures disk { result.status ≡ DISK_FAULT → RoseBy D.senses.faults disk result.disk }
    ensures usable { result.status ≢ USAGE }
{
    let (end, disk) = follow_journal(alloc, disk, input, output);
    let status = settle_follow(alloc, end, faults);
    RunEnd { status, disk }
}
