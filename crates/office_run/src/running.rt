//! The top call.
ghost use Rattle.std.specs.Prelude.{◌≡◌, ◌⊎◌, ℕ, Some, None, map, string_bytes};
ghost use Rattle.office_outside.specs.Faults.{RoseBy};
ghost use Rattle.command_words.specs.Commands.{asked_of};
ghost use Rattle.command_words.specs.declared.Invocation.TheVariants.{Serve};
ghost use Rattle.turn_counter.specs.Turns.{TurnAsks};
ghost use Rattle.office_serving.specs.Serving.{serving_world};
ghost use Rattle.visit_workers.specs.Visits.{visit_senses};
ghost use Rattle.visit_workers.specs.Workers.{worker_senses};
ghost use Rattle.office_run.specs.Serve.{RunsServe};
ghost use Rattle.office_run.specs.Worlds.{IsOffClock, IsOffDisk, IsOffDoors, Runs, world};

use crate::answer::run_answer;
use crate::counters::run_counters;
use crate::ending::{DISK_FAULT, DONE, DOORS_FAULT, NO_MEMORY, READ_FAULT, USAGE, WRITE_FAULT};
use crate::export::run_export;
use crate::faults_sink::tell_status;
use crate::follow::run_follow;
use crate::generate::run_generate;
use crate::init::run_init;
use crate::migrate::run_migrate;
use crate::pipe::run_pipe;
use crate::report::run_report;
use crate::serve::run_serve;
use command_words::{Invocation, WordsFault, read_words};
use office_doors::{Door, Doors};
use office_outside::{Clock, Disk, Sink, Source};
use std::sync::Wait;
use std::thread::Threads;

/// What a run ends with: its status, and the disk, which is handed back.
#[derive(Drop)]
pub struct RunEnd<D: Drop> {
    pub status: u8,
    pub disk: D,
}

/// Runs the program on these words, and answers the status that it ends with.
///
/// `budget TARGET FROM TO` reads CSV records `source,minute,revision,good,total` and prints the
/// error budget of the minutes in [FROM, TO). `check` reads OpenSLO documents, judges whether
/// their objects can be defined together, and prints how many documents and objects there are.
/// Where the source tells its bytes, what is printed and what is refused is the definition's
/// answer on these bytes, however reads cut them. `init` and `init ORIGIN` make a journal on the
/// disk, whose history begins at the clock's reading or at ORIGIN, in minutes since
/// 1970-01-01T00:00Z, and print this origin. `migrate` opens the journal, upgrades its office, and
/// prints the place of the upgrade in its history, or that the office was upgraded before. `pipe`
/// opens the journal, and serves one session over the input and the output. `follow` opens the
/// journal, follows the feeds of the input over it, and prints how many entries there are.
/// `report` and `report AT` open the journal, and print the report over its history at the moment
/// or at AT. `generate N` plays the sample stream of number N over an office in memory, and prints
/// a summary. `counters SLI` reads CSV records of counters' readings,
/// `source,minute,revision,good,total`, and writes a sample row of the indicator SLI for each
/// difference between two of them, as it arises. `serve PORT` opens the journal, and serves it to
/// the visitors of the doors at this port, by four workers that take turns. `export K` opens the
/// journal, and prints part K of the requests that make its office anew. The disk is handed back.
pub fn run<
    R: AllocGlobal + Wait + Threads + Sync,
    S: Source,
    K: Sink,
    E: Sink,
    D: Disk + Send + Drop,
    C: Clock,
    A: Doors,
>(
    rt: &R,
    words: &[String],
    input: &mut S,
    output: &mut K,
    faults: &mut E,
    disk: D,
    clock: &mut C,
    doors: &mut A,
) -> RunEnd<D>
    // What it does, by what the words ask for.
    ensures runs { Runs D.senses (asked_of (map string_bytes words.now)) result.status
        (world (S.left input.old) (S.faults input.old) (K.held output.old) (K.faults output.old)
        (E.held faults.old) (E.faults faults.old) (C.to_come clock.old) disk)
        (world (S.left input.new) (S.faults input.new) (K.held output.new) (K.faults output.new)
        (E.held faults.new) (E.faults faults.new) (C.to_come clock.new) result.disk) }

    // `serve` serves the journal to the visitors of doors at its port, which are asked for once;
    // want of memory may come before.
    ensures serves { (port : ℕ) → asked_of (map string_bytes words.now) ≡ Some (Serve port)
        → ((result.status ≡ NO_MEMORY) × (doors.new ≡ doors.old) × (result.disk ≡ disk))
        ⊎ RunsServe D.senses (worker_senses (TurnAsks D.senses)
        (visit_senses A.One.In.left A.One.In.faults A.One.Out.held A.One.Out.faults
        A.One.Time.to_come) (λ d. A.One.told d) (λ d. A.One.faults d)) port result.status
        (E.held faults.old) (E.held faults.new) (E.faults faults.old) (E.faults faults.new)
        (serving_world (A.told doors.old) (A.ports doors.old) (K.held output.old))
        (serving_world (A.told doors.new) (A.ports doors.new) (K.held output.new)) disk
        result.disk }

    // USAGE: where the words are no form of a command, and only there; want of memory may come in
    // its place. The input stays as it was.
    ensures usage { result.status ≡ USAGE → asked_of (map string_bytes words.now) ≡ None }
    ensures formless { asked_of (map string_bytes words.now) ≡ None →
        (result.status ≡ USAGE) ⊎ (result.status ≡ NO_MEMORY) }
    ensures untouched { result.status ≡ USAGE → input.new ≡ input.old }

    // `budget`, `check`, `generate` and `counters` don't call the disk, nor read the clock, and
    // `follow` and `export` don't read it.
    ensures off_disk { IsOffDisk (asked_of (map string_bytes words.now)) → result.disk ≡ disk }
    ensures clockless { IsOffClock (asked_of (map string_bytes words.now)) → clock.new ≡ clock.old }

    // The doors are for `serve` alone.
    ensures doorless { IsOffDoors (asked_of (map string_bytes words.now)) → doors.new ≡ doors.old }

    // A run that is done tells nothing. A fault's status has that object's count as its cause.
    ensures silent { result.status ≡ DONE → E.held faults.new ≡ E.held faults.old }
    ensures read { result.status ≡ READ_FAULT → RoseBy S.faults input.old input.new }
    ensures write { result.status ≡ WRITE_FAULT → RoseBy K.faults output.old output.new }
    ensures disk { result.status ≡ DISK_FAULT → RoseBy D.senses.faults disk result.disk }
    ensures doors { result.status ≡ DOORS_FAULT → RoseBy A.faults doors.old doors.new }
{
    let alloc = rt.alloc();
    match read_words(alloc, words) {
        Err(WordsFault::Usage) => {
            let status = tell_status(faults, USAGE);
            RunEnd { status, disk }
        }
        Err(WordsFault::NoMemory) => {
            let status = tell_status(faults, NO_MEMORY);
            RunEnd { status, disk }
        }
        Ok(Invocation::Answer(command)) => {
            let status = run_answer(alloc, command, input, output, faults);
            RunEnd { status, disk }
        }
        Ok(Invocation::Generate(number)) => {
            let status = run_generate(alloc, number, output, faults);
            RunEnd { status, disk }
        }
        Ok(Invocation::Counters(order)) => {
            let status = run_counters(alloc, order.sli, input, output, faults);
            RunEnd { status, disk }
        }
        Ok(Invocation::Init(origin)) => run_init(alloc, origin, output, faults, disk, clock),
        Ok(Invocation::Migrate) => run_migrate(alloc, output, faults, disk, clock),
        Ok(Invocation::Export(part)) => run_export(alloc, part, output, faults, disk),
        Ok(Invocation::Pipe) => run_pipe(alloc, input, output, faults, disk, clock),
        Ok(Invocation::Follow) => run_follow(alloc, input, output, faults, disk),
        Ok(Invocation::Report(at)) => run_report(alloc, at, output, faults, disk, clock),
        Ok(Invocation::Serve(port)) => run_serve(rt, alloc, port, output, faults, disk, doors),
    }
}
