//! The following of feeds over a journal's file.
ghost use Rattle.std.specs.Prelude.{◌≡◌, ◌≤◌, ◌⊎◌, IfOk, None, string_bytes};
ghost use Rattle.office_outside.specs.Faults.{RoseBy};
ghost use Rattle.office_outside.specs.Told.{Gained, GainedPrefix};
ghost use Rattle.follow_terms.specs.declared.FollowEnd.TheVariants as follow_ends;
ghost use Rattle.journal_commands.specs.Following.{EndsFollowing, EndsOverOffice, TellsEnd};
ghost use Rattle.journal_commands.specs.Following.{entries_line as entries_line_def, follow_world};

use crate::writing::write_out;
use follow_terms::FollowEnd;
use office_follow::follow;
use office_keep::{KeepFault, Office};
use office_outside::{Disk, Failed, Sink, Source};
use std::alloc::{AllocError, Global};

/// How the following of feeds over a journal ends.
#[derive(Clone, Copy, Debug, Drop, PartialEq, Eq)]
pub enum FollowingEnd {
    /// All was followed, and the output was told how many entries there are.
    Done,
    /// Following ended so, before the input did.
    Stopped(FollowEnd),
    /// All was followed; the output's count of faults rose while it was told.
    WriteFault,
    /// All was followed; memory was refused for the line that tells it.
    NoMemory,
    /// The journal wasn't opened.
    Unopened(KeepFault),
}

/// The line that tells how many entries there are.
fn entries_line(alloc: Global, entries: u32) -> Result<String, AllocError>
    ensures { IfOk result (λ text. string_bytes text ≡ entries_line_def entries) }
{
    format!(in alloc; "entries {entries}\n")
}

/// Tells how many entries there are.
fn tell_entries<K: Sink>(alloc: Global, entries: u32, output: &mut K) -> FollowingEnd
    ensures done { result ≡ FollowingEnd.Done
        → Gained (entries_line_def entries) (K.held output.old) (K.held output.new) }
    ensures part { result ≡ FollowingEnd.WriteFault
        → GainedPrefix (entries_line_def entries) (K.held output.old) (K.held output.new) }
    ensures memory { result ≡ FollowingEnd.NoMemory → output.new ≡ output.old }
    ensures cause { result ≡ FollowingEnd.WriteFault → RoseBy K.faults output.old output.new }
    ensures other { (result ≡ FollowingEnd.Done)
        ⊎ ((result ≡ FollowingEnd.WriteFault) ⊎ (result ≡ FollowingEnd.NoMemory)) }
    ensures later { K.faults output.old ≤ K.faults output.new }
{
    let Ok(line) = entries_line(alloc, entries) else {
        return FollowingEnd::NoMemory;
    };
    match write_out(output, line.as_bytes()) {
        Ok(()) => FollowingEnd::Done,
        Err(Failed) => FollowingEnd::WriteFault,
    }
}

/// Tells the end of following, where all was followed.
fn tell_end<K: Sink>(alloc: Global, end: FollowEnd, entries: u32, output: &mut K) -> FollowingEnd
    ensures tells { TellsEnd end entries result (K.held output.old) (K.held output.new) }
    ensures write { result ≡ FollowingEnd.WriteFault → RoseBy K.faults output.old output.new }
    ensures later { K.faults output.old ≤ K.faults output.new }
{
    match end {
        FollowEnd::Done => tell_entries(alloc, entries, output),
        FollowEnd::ReadFault
        | FollowEnd::TooLarge
        | FollowEnd::Cut
        | FollowEnd::Broken { .. }
        | FollowEnd::OtherOrigin { .. }
        | FollowEnd::Gap { .. }
        | FollowEnd::Diverges { .. }
        | FollowEnd::Illegal { .. }
        | FollowEnd::JournalFull
        | FollowEnd::DiskFault
        | FollowEnd::NoMemory => FollowingEnd::Stopped(end),
    }
}

/// Follows the input over an office, tells how that ended, and hands the disk back.
fn follow_over<D: Disk + Drop, S: Source, K: Sink>(
    alloc: Global,
    office: Office<D>,
    input: &mut S,
    output: &mut K,
) -> (FollowingEnd, D)
    requires { office.doubt ≡ None }
    ensures ends { EndsOverOffice D.senses office result.0
        (follow_world office.disk (S.left input.old) (S.faults input.old) (K.held output.old))
        (follow_world result.1 (S.left input.new) (S.faults input.new) (K.held output.new)) }
    ensures disk { result.0 ≡ FollowingEnd.Stopped follow_ends.DiskFault
        → RoseBy D.senses.faults office.disk result.1 }
    ensures read { result.0 ≡ FollowingEnd.Stopped follow_ends.ReadFault
        → RoseBy S.faults input.old input.new }
    ensures write { result.0 ≡ FollowingEnd.WriteFault → RoseBy K.faults output.old output.new }
{
    let mut office = office;
    let end = follow(alloc, &mut office, input);
    let told = tell_end(alloc, end, office.length(), output);
    (told, office.into_disk())
}

/// Opens the journal on a disk, follows the feeds of the input over it, tells the output how many
/// entries there are where all was followed, and hands the disk back.
pub fn follow_journal<D: Disk + Drop, S: Source, K: Sink>(
    alloc: Global,
    disk: D,
    input: &mut S,
    output: &mut K,
) -> (FollowingEnd, D)
    ensures ends { EndsFollowing D.senses result.0
        (follow_world disk (S.left input.old) (S.faults input.old) (K.held output.old))
        (follow_world result.1 (S.left input.new) (S.faults input.new) (K.held output.new)) }
    ensures untouched { (why : KeepFault) → result.0 ≡ FollowingEnd.Unopened why
        → (input.new ≡ input.old) × (output.new ≡ output.old) }
    ensures disk { result.0 ≡ FollowingEnd.Stopped follow_ends.DiskFault
        → RoseBy D.senses.faults disk result.1 }
    ensures unopened { result.0 ≡ FollowingEnd.Unopened KeepFault.DiskFault
        → RoseBy D.senses.faults disk result.1 }
    ensures read { result.0 ≡ FollowingEnd.Stopped follow_ends.ReadFault
        → RoseBy S.faults input.old input.new }
    ensures write { result.0 ≡ FollowingEnd.WriteFault → RoseBy K.faults output.old output.new }
{
    match Office::open(alloc, disk) {
        Ok(office) => follow_over(alloc, office, input, output),
        Err(failed) => (FollowingEnd::Unopened(failed.fault), failed.disk),
    }
}
