//! The serving of a session over a journal's file.
ghost use Rattle.std.specs.Prelude.{◌≡◌, None};
ghost use Rattle.office_outside.specs.Faults.{RoseBy};
ghost use Rattle.journal_commands.specs.Serving.{EndsServing, IsServed, session_outside};

use message_session::SessionEnd;
use office_keep::{KeepFault, Office};
use office_outside::{Clock, Disk, Sink, Source};
use office_session::session;
use own_counter::OwnCounter;
use std::alloc::Global;

/// How the serving of a journal ends.
#[derive(Clone, Copy, Debug, Drop, PartialEq, Eq)]
pub enum PipeEnd {
    /// A session was served, and ended so.
    Served(SessionEnd),
    /// The journal wasn't opened.
    Unopened(KeepFault),
}

/// Serves a session over an office, and hands the disk back.
fn serve<D: Disk + Drop, S: Source, K: Sink, C: Clock>(
    alloc: Global,
    office: Office<D>,
    input: &mut S,
    output: &mut K,
    clock: &mut C,
) -> (SessionEnd, D)
    requires { office.doubt ≡ None }
    ensures served { IsServed D.senses office
        result.0 (session_outside (S.left input.old) (C.to_come clock.old) (K.held output.old))
        (session_outside (S.left input.new) (C.to_come clock.new) (K.held output.new)) result.1 }
    ensures read { result.0 ≡ SessionEnd.ReadFault → RoseBy S.faults input.old input.new }
    ensures write { result.0 ≡ SessionEnd.WriteFault → RoseBy K.faults output.old output.new }
{
    office.disk_stands();
    let mut counter = OwnCounter::new(alloc, office);
    own_counter::laws::a_stop_leaves_what_was_kept::<D>();
    own_counter::laws::a_session_adds_what_is_asked::<D>();
    office_session::laws::own_places_stay_in_a_session::<OwnCounter<D>>();
    office_session::laws::what_is_seen_grows_in_a_session::<OwnCounter<D>>();
    let end = session(alloc, &mut counter, input, output, clock);
    let office = counter.give_back();
    office.disk_stands();
    let disk = office.into_disk();
    (end, disk)
}

/// Opens the journal on a disk, serves one session over it, and hands the disk back.
pub fn run_session<D: Disk + Drop, S: Source, K: Sink, C: Clock>(
    alloc: Global,
    disk: D,
    input: &mut S,
    output: &mut K,
    clock: &mut C,
) -> (PipeEnd, D)
    ensures ends { EndsServing D.senses result.0
        (session_outside (S.left input.old) (C.to_come clock.old) (K.held output.old))
        (session_outside (S.left input.new) (C.to_come clock.new) (K.held output.new)) disk
        result.1 }
    ensures untouched { (why : KeepFault) → result.0 ≡ PipeEnd.Unopened why →
        (input.new ≡ input.old) × (output.new ≡ output.old) × (clock.new ≡ clock.old) }
    ensures disk { result.0 ≡ PipeEnd.Unopened KeepFault.DiskFault →
        RoseBy D.senses.faults disk result.1 }
    ensures read { result.0 ≡ PipeEnd.Served SessionEnd.ReadFault →
        RoseBy S.faults input.old input.new }
    ensures write { result.0 ≡ PipeEnd.Served SessionEnd.WriteFault →
        RoseBy K.faults output.old output.new }
{
    match Office::open(alloc, disk) {
        Ok(office) => {
            let (end, disk) = serve(alloc, office, input, output, clock);
            (PipeEnd::Served(end), disk)
        }
        Err(failed) => (PipeEnd::Unopened(failed.fault), failed.disk),
    }
}
