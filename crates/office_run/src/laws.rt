//! The laws of statuses: what a status of `counters`, `export`, `follow`, `generate`, `init`,
//! `migrate`, `pipe`, `report` and `serve` says.
ghost use Rattle.std.specs.Prelude.{◌≡◌, ◌≢◌, ◌<◌, ◌≤◌, ℕ, List, Option, Some};
ghost use Rattle.message_session.specs.Sessions.{Reads};
ghost use Rattle.office_outside.specs.Told.{Gained};
ghost use Rattle.counters_command.specs.Answer.{EndsOver};
ghost use Rattle.counters_command.specs.Laws.{GainsDifferences};
ghost use Rattle.counters_command.specs.declared.CountersEnd.TheVariants.{Refused};
ghost use Rattle.counters_command.specs.declared.CountersFault.{CountersFault};
ghost use Rattle.object_terms.specs.declared.Kind.{Kind};
ghost use Rattle.journal_commands.specs.Exporting.{IsTooLarge, IsWritten};
ghost use Rattle.journal_commands.specs.Making.{HasHeader, origin_by};
ghost use Rattle.journal_commands.specs.Reporting.{IsPrinted, IsUnprinted, OpensTo};
ghost use Rattle.office_keep.specs.Opening.{IsBad};
ghost use Rattle.turn_counter.specs.Turns.{TurnAsks};
ghost use Rattle.visit_workers.specs.Visits.{visit_senses};
ghost use Rattle.visit_workers.specs.Workers.{worker_senses};
ghost use Rattle.office_run.specs.Follow.{LeadsRun};
ghost use Rattle.office_run.specs.Generate.{PrintsSummary};
ghost use Rattle.office_run.specs.Migrate.{IsMigrated, IsUnmigrated};
ghost use Rattle.office_run.specs.Serve.{ServeStatusesSay};
ghost use Rattle.office_run.specs.Worlds.{RunsCounters, RunsExport, RunsFollow, RunsGenerate};
ghost use Rattle.office_run.specs.Worlds.{RunsInit, RunsMigrate};
ghost use Rattle.office_run.specs.Worlds.{RunsPipe, RunsReport, World};

use crate::ending::{BAD_FILE, DONE, REFUSED};
use office_doors::{Door, Doors};
use office_outside::Disk;

/// `counters` is done only where the records of all bytes were taken and their rows written, which
/// are the differences from scratch. It ends with the status of a refusal only where the bytes are
/// too many, and then no row is written, or where a record is the first that isn't taken, and then
/// just the rows of those before it are.
pub fn statuses_of_counters<D: Disk + Drop>()
    ensures done { (sli : List ℕ) (status : ℕ) (before after : World D) →
        RunsCounters sli status before after → status ≡ DONE → (bytes : List ℕ) →
        before.left ≡ Some bytes → GainsDifferences sli bytes before.held after.held }
    ensures refused { (sli : List ℕ) (status : ℕ) (before after : World D) →
        RunsCounters sli status before after → status ≡ REFUSED → (bytes : List ℕ) →
        before.left ≡ Some bytes → (fault : CountersFault)
        × EndsOver sli bytes (Refused fault) before.held after.held }
    ensures file { (sli : List ℕ) (status : ℕ) (before after : World D) →
        RunsCounters sli status before after → status ≢ BAD_FILE }
{}

/// `export` ends with the status of a bad file only where the file has no header, or is damaged. It
/// ends with that of a refusal only where it names the first object that is too large of the office
/// for which the file stands, and is done only where just the part's requests were written.
pub fn statuses_of_export<D: Disk + Drop>()
    ensures bad_file { (part status : ℕ) (before after : World D)
        → RunsExport D.senses part status before after → status ≡ BAD_FILE → (file : List ℕ)
        → D.senses.content before.disk ≡ Some file → IsBad file }
    ensures refused { (part status : ℕ) (before after : World D)
        → RunsExport D.senses part status before after → status ≡ REFUSED → (kind : Kind)
        × (name : List ℕ) × OpensTo D.senses (IsTooLarge kind name before.held after.held)
        before.disk after.disk }
    ensures done { (part status : ℕ) (before after : World D)
        → RunsExport D.senses part status before after → status ≡ DONE
        → OpensTo D.senses (IsWritten part before.held after.held) before.disk after.disk }
{}

/// `follow` ends with the status of a bad file only where the file has no header, or is damaged.
/// Over feeds of fronts of a legal history, where the file stands for a front of it, it leads to
/// that history.
pub fn statuses_of_follow<D: Disk + Drop>()
    ensures bad_file { (status : ℕ) (before after : World D)
        → RunsFollow D.senses status before after → status ≡ BAD_FILE → (file : List ℕ)
        → D.senses.content before.disk ≡ Some file → IsBad file }
    ensures leads { (status : ℕ) (before after : World D) → RunsFollow D.senses status before after
        → LeadsRun D.senses status before.disk after.disk before.left }
{
    office_keep::laws::one_history();
}

/// `generate` is done only where the summary of the stream was printed.
pub fn statuses_of_generate<D: Disk + Drop>()
    ensures { (number status : ℕ) (before after : World D) →
        RunsGenerate number status before after → status ≡ DONE →
        PrintsSummary Gained number before.held after.held }
{}

/// `init` ends with the status of a bad file only where a header stands in the file, and with that
/// of a refusal exactly where the origin that was asked for is above the clock's reading.
pub fn statuses_of_init<D: Disk + Drop>()
    ensures bad_file { (origin : Option ℕ) (status : ℕ) (before after : World D)
        → RunsInit D.senses origin status before after → status ≡ BAD_FILE → (file : List ℕ)
        → D.senses.content before.disk ≡ Some file → HasHeader file }
    ensures refused { (origin : Option ℕ) (status : ℕ) (before after : World D)
        → RunsInit D.senses origin status before after → status ≡ REFUSED → (reading : ℕ)
        × Reads reading before.to_come after.to_come × (reading < origin_by origin reading) }
    ensures taken { (origin : Option ℕ) (status : ℕ) (before after : World D)
        → RunsInit D.senses origin status before after → status ≢ REFUSED → (reading : ℕ)
        × Reads reading before.to_come after.to_come × (origin_by origin reading ≤ reading) }
{}

/// `migrate` ends with the status of a bad file only where the file has no header, or is damaged.
/// It ends with that of a refusal only where the moment isn't below the end of the office's range
/// or the journal is full, and the office is as it was. It is done only where the file stands for
/// an office that is upgraded, now or before, and the output tells which.
pub fn statuses_of_migrate<D: Disk + Drop>()
    ensures bad_file { (status : ℕ) (before after : World D) → RunsMigrate D.senses status before
        after → status ≡ BAD_FILE → (file : List ℕ) → D.senses.content before.disk ≡ Some file
        → IsBad file }
    ensures refused { (status : ℕ) (before after : World D) → RunsMigrate D.senses status before
        after → status ≡ REFUSED → (reading : ℕ) × Reads reading before.to_come after.to_come
        × IsUnmigrated D.senses reading before.held after.held before.disk after.disk }
    ensures done { (status : ℕ) (before after : World D) → RunsMigrate D.senses status before after
        → status ≡ DONE → (reading : ℕ) × Reads reading before.to_come after.to_come
        × IsMigrated D.senses reading before.held after.held before.disk after.disk }
{}

/// `pipe` ends with the status of a bad file only where the file has no header, or is damaged.
pub fn statuses_of_pipe<D: Disk + Drop>()
    ensures { (status : ℕ) (before after : World D) → RunsPipe D.senses status before after
        → status ≡ BAD_FILE → (file : List ℕ) → D.senses.content before.disk ≡ Some file
        → IsBad file }
{}

/// `report` ends with the status of a bad file only where the file has no header, or is damaged. It
/// ends with that of a refusal only where its minute is out of the range of the office for which
/// the file stands, and is done only where this minute is in range and the report was printed.
pub fn statuses_of_report<D: Disk + Drop>()
    ensures bad_file { (at : Option ℕ) (status : ℕ) (before after : World D)
        → RunsReport D.senses at status before after → status ≡ BAD_FILE → (file : List ℕ)
        → D.senses.content before.disk ≡ Some file → IsBad file }
    ensures refused { (at : Option ℕ) (status : ℕ) (before after : World D)
        → RunsReport D.senses at status before after → status ≡ REFUSED → (reading : ℕ)
        × Reads reading before.to_come after.to_come
        × OpensTo D.senses (IsUnprinted at reading before.held after.held) before.disk after.disk }
    ensures done { (at : Option ℕ) (status : ℕ) (before after : World D)
        → RunsReport D.senses at status before after → status ≡ DONE → (reading : ℕ)
        × Reads reading before.to_come after.to_come × OpensTo D.senses
        (IsPrinted Gained at reading before.held after.held) before.disk after.disk }
{}

/// `serve` ends with the status of a bad file only where the file has no header, or is damaged, and
/// is done only where the office for which the file stands was served until each door had handed
/// out all its visits. It refuses nothing.
pub fn statuses_of_serve<D: Disk + Drop, S: Doors>()
    ensures { ServeStatusesSay D.senses (worker_senses (TurnAsks D.senses)
        (visit_senses S.One.In.left S.One.In.faults S.One.Out.held S.One.Out.faults
        S.One.Time.to_come) (λ d. S.One.told d) (λ d. S.One.faults d)) }
{}
