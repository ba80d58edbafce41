//! A machine and its journal.
ghost use Rattle.std.specs.Prelude.{◌≡◌, ◌<◌, ◌≤◌, ◌⊎◌, [], List, ℕ, Option, Some, None, IfOk};
ghost use Rattle.std.specs.Prelude.{IfErr, length, take};
ghost use Rattle.slo_limits.specs.declared.TheConstants.{MAX_ENTRIES, MAX_MINUTE};
ghost use Rattle.office_outside.specs.Disk.{All, IsQuiet, LeavesOnly};
ghost use Rattle.office_outside.specs.Faults.{RoseBy};
ghost use Rattle.office_counter.specs.Steps.{HasRevisionsIn};
ghost use Rattle.slo_journal.specs.Front.{HasNoHeader, IsHeader, IsMaking};
ghost use Rattle.record_form.specs.Ranges.{FitsRecord};
ghost use Rattle.office_keep.specs.Adopting.{Adopts, IsBlamedFor, LeavesAdopting};
ghost use Rattle.office_keep.specs.Files.{OfficeIsWhole};
ghost use Rattle.office_keep.specs.Office.{IsBlamed, LeavesBy, Performs, SettlesBy, StandsSettled};
ghost use Rattle.office_keep.specs.Opening.{IsFoundOn, IsOpened};
ghost use Rattle.office_keep.specs.declared.fault.KeepFault.TheVariants.{AlreadyThere, DiskFault};
ghost use Rattle.office_keep.specs.declared.fault.KeepFault.TheVariants.{NoMemory};

use crate::adopting::adopt;
use crate::fault::{fault_of_create, fault_of_open};
use crate::opening::load;
use crate::steps::change;
use crate::{Adopted, KeepFailed, KeepFault};
use office_core::{Core, Prepared};
use office_outside::Disk;
use record_form::{Entry, Outcome, Request, laws};
use slo_journal::{Journal, create, open};
use slo_limits::RANGE_MINUTES;
use std::alloc::Global;
use std::marker::Model;

/// An office that keeps its history on a disk. It is seen as its origin and history, the entry in
/// doubt if there is one, and the disk.
#[derive(Drop)]
pub struct Office<D: Disk + Drop> {
    core: Core,
    journal: Journal<D>,
    /// The entry in doubt, for which the machine has room.
    doubt: Option<Prepared>,
}

impl<D: Disk + Drop> Model for Office<D> {
    ghost use Rattle.office_keep.specs.Office.{OfficeOn};
    ghost use Rattle.office_keep.specs.Steps.{OfficeIsKept, office_on};

    ghost Value = { OfficeOn D };

    ghost view = { λ o. office_on o.core o.doubt o.journal };

    // Each image of the disk stands for the history, or for it with the entry in doubt.
    ghost invariant = { λ o. OfficeIsKept D.senses o.core o.doubt o.journal };
}

impl<D: Disk + Drop> Office<D> {
    /// Makes a journal without entries on a disk, whose history begins at a minute since
    /// 1970-01-01T00:00Z. It takes its memory before it touches the disk.
    pub fn create(alloc: Global, disk: D, origin: u32) -> Result<Office<D>, KeepFailed<D>>
        requires origin { origin ≤ MAX_MINUTE }
        ensures made { IfOk result (λ office.
            (office.office ≡ record { origin = origin; history = [] }) × (office.doubt ≡ None)) }
        ensures none_before { IfOk result (λ _. (file : List ℕ) → D.senses.content disk ≡ Some file
            → HasNoHeader file) }
        ensures moments { IfOk result (λ office. IsMaking D.senses origin disk office.disk) }
        ensures already_there { IfErr result (λ e. e.fault ≡ AlreadyThere
            → (file : List ℕ) → D.senses.content disk ≡ Some file
            → (o : ℕ) × IsHeader o (take 13 file)) }
        ensures untouched { IfErr result (λ e. e.fault ≡ AlreadyThere
            → IsQuiet D.senses disk e.disk) }
        ensures fault { IfErr result (λ e. e.fault ≡ DiskFault → IsQuiet D.senses disk e.disk
            ⊎ IsMaking D.senses origin disk e.disk) }
        ensures no_memory { IfErr result (λ e. e.fault ≡ NoMemory → e.disk ≡ disk) }
        ensures others { IfErr result (λ e.
            (e.fault ≡ DiskFault) ⊎ ((e.fault ≡ AlreadyThere) ⊎ (e.fault ≡ NoMemory))) }
        ensures cause { IfErr result (λ e. e.fault ≡ DiskFault
            → RoseBy D.senses.faults disk e.disk) }
        ensures later { IfOk result (λ office. D.senses.faults disk ≤ D.senses.faults office.disk) }
        ensures later_err { IfErr result (λ e. D.senses.faults disk ≤ D.senses.faults e.disk) }
    {
        let Ok(core) = Core::new(alloc, origin) else {
            return Err(KeepFailed {
                fault: KeepFault::NoMemory,
                disk,
            });
        };
        match create(disk, origin) {
            Ok(journal) => Ok(Office {
                core,
                journal,
                doubt: None,
            }),
            Err(failed) => {
                drop(core);
                Err(KeepFailed {
                    fault: fault_of_create(failed.fault),
                    disk: failed.disk,
                })
            }
        }
    }

    /// Opens a journal's file. It writes nothing. Once all is read it syncs, so that the office
    /// stands on bytes of which a stop leaves no others.
    pub fn open(alloc: Global, disk: D) -> Result<Office<D>, KeepFailed<D>>
        ensures opened { IfOk result (λ office. IsOpened D.senses disk office) }
        ensures found { IfErr result (λ e. IsFoundOn D.senses e.fault disk) }
        ensures others { IfErr result (λ e. e.fault ≡ AlreadyThere → ⊥) }
        ensures quiet_err { IfErr result (λ e. IsQuiet D.senses disk e.disk) }
        ensures cause { IfErr result (λ e. e.fault ≡ DiskFault
            → RoseBy D.senses.faults disk e.disk) }
        ensures later { IfOk result (λ office. D.senses.faults disk ≤ D.senses.faults office.disk) }
        ensures later_err { IfErr result (λ e. D.senses.faults disk ≤ D.senses.faults e.disk) }
    {
        let mut scan = match open(alloc, disk) {
            Ok(scan) => scan,
            Err(failed) => {
                return Err(KeepFailed {
                    fault: fault_of_open(failed.fault),
                    disk: failed.disk,
                });
            }
        };
        let Ok(mut core) = Core::new(alloc, scan.origin()) else {
            return Err(KeepFailed {
                fault: KeepFault::NoMemory,
                disk: scan.give_back(),
            });
        };
        match load(alloc, &mut core, &mut scan) {
            Ok(()) => {
                core.is_legal();
                match scan.ready() {
                    Ok(journal) => Ok(Office {
                        core,
                        journal,
                        doubt: None,
                    }),
                    Err(failed) => {
                        drop(core);
                        Err(KeepFailed {
                            fault: KeepFault::DiskFault,
                            disk: failed.disk,
                        })
                    }
                }
            }
            Err(fault) => {
                drop(core);
                Err(KeepFailed {
                    fault,
                    disk: scan.give_back(),
                })
            }
        }
    }

    /// Each image of the disk stands for the history, or for it with the entry in doubt; and the
    /// history is legal. No work.
    pub fn disk_stands(&self)
        ensures stands { All (StandsSettled self.now.office self.now.doubt)
            (D.senses.images self.now.disk) }
        ensures whole { OfficeIsWhole self.now.office }
    {
        self.core.is_legal();
    }

    /// There are fewer entries than a history may have: a journal is full before. No work.
    pub fn entries_are_few(&self)
        ensures { length self.now.office.history < MAX_ENTRIES }
    {
        laws::records_have_sizes();
        self.core.is_legal();
        let _ = self.journal.tail();
    }

    /// The machine.
    pub fn core(&self) -> &Core
        ensures { result.now.office ≡ self.now.office }
    {
        &self.core
    }

    /// How many entries there are.
    pub fn length(&self) -> u32
        ensures { result ≡ length self.now.office.history }
    {
        self.core.length()
    }

    /// The machine and the disk.
    pub fn give_back(self) -> (Core, D)
        ensures office { result.0.office ≡ self.office }
        ensures disk { result.1 ≡ self.disk }
    {
        (self.core, self.journal.give_back())
    }

    /// The disk. The machine is let go.
    pub fn into_disk(self) -> D
        ensures { result ≡ self.disk }
    {
        let (core, disk) = self.give_back();
        drop(core);
        disk
    }

    /// Performs a request that was read at this reading of the clock, in minutes since
    /// 1970-01-01T00:00Z. A moment past the range is told first. A change then settles what is in
    /// doubt, and is judged; a query touches neither the disk nor what is in doubt.
    pub fn perform(&mut self, alloc: Global, reading: u32, request: &Request) -> Outcome
        requires reading { reading ≤ MAX_MINUTE }
        requires revisions { HasRevisionsIn request.now }
        ensures ended { (place : Option ℕ)
            × Performs self.old reading request.now result place self.new }
        ensures any_moment { LeavesOnly D.senses self.old.disk self.new.disk
            (LeavesBy self.old reading request.now self.new) }
        ensures stands { All (StandsSettled self.new.office self.new.doubt)
            (D.senses.images self.new.disk) }
        ensures whole { OfficeIsWhole self.new.office }
        ensures after_settling { SettlesBy D.senses self.old reading request.now self.new }
        ensures cause { IsBlamed (D.senses.faults self.old.disk) (D.senses.faults self.new.disk)
            result }
    {
        let (outcome, _place) = self.act(alloc, reading, request);
        outcome
    }

    /// Performs a request as `perform` does, and tells the place in the history of the entry that
    /// this call added, if it added one. An entry that was in doubt isn't this call's.
    pub fn act(&mut self, alloc: Global, reading: u32, request: &Request) -> (Outcome, Option<u32>)
        requires reading { reading ≤ MAX_MINUTE }
        requires revisions { HasRevisionsIn request.now }
        ensures ended { Performs self.old reading request.now result.0 result.1 self.new }
        ensures any_moment { LeavesOnly D.senses self.old.disk self.new.disk
            (LeavesBy self.old reading request.now self.new) }
        ensures stands { All (StandsSettled self.new.office self.new.doubt)
            (D.senses.images self.new.disk) }
        ensures whole { OfficeIsWhole self.new.office }
        ensures after_settling { SettlesBy D.senses self.old reading request.now self.new }
        ensures cause { IsBlamed (D.senses.faults self.old.disk) (D.senses.faults self.new.disk)
            result.0 }
    {
        let done = self.do_in_range(alloc, reading, request);
        self.disk_stands();
        done
    }

    /// Adopts an entry of another office, with its own moment: writes it and adds it, where it may
    /// follow the history.
    pub fn adopt(&mut self, alloc: Global, entry: &Entry) -> Adopted
        requires none { self.old.doubt ≡ None }
        requires fits { FitsRecord entry.now }
        ensures ended { Adopts self.old entry.now result self.new }
        ensures any_moment { LeavesOnly D.senses self.old.disk self.new.disk
            (LeavesAdopting self.old.office entry.now) }
        ensures stands { All (StandsSettled self.new.office self.new.doubt)
            (D.senses.images self.new.disk) }
        ensures whole { OfficeIsWhole self.new.office }
        ensures cause { IsBlamedFor (D.senses.faults self.old.disk) (D.senses.faults self.new.disk)
            result }
    {
        let adopted = self.adopt_alone(alloc, entry);
        self.disk_stands();
        adopted
    }

    fn adopt_alone(&mut self, alloc: Global, entry: &Entry) -> Adopted
        requires none { self.old.doubt ≡ None }
        requires fits { FitsRecord entry.now }
        ensures ended { Adopts self.old entry.now result self.new }
        ensures any_moment { LeavesOnly D.senses self.old.disk self.new.disk
            (LeavesAdopting self.old.office entry.now) }
        ensures cause { IsBlamedFor (D.senses.faults self.old.disk) (D.senses.faults self.new.disk)
            result }
    {
        adopt(
            alloc,
            &mut self.core,
            &mut self.journal,
            &mut self.doubt,
            entry,
        )
    }

    /// Tells a moment past the range, or does what is asked.
    fn do_in_range(
        &mut self,
        alloc: Global,
        reading: u32,
        request: &Request,
    ) -> (Outcome, Option<u32>)
        requires reading { reading ≤ MAX_MINUTE }
        requires revisions { HasRevisionsIn request.now }
        ensures ended { Performs self.old reading request.now result.0 result.1 self.new }
        ensures any_moment { LeavesOnly D.senses self.old.disk self.new.disk
            (LeavesBy self.old reading request.now self.new) }
        ensures after_settling { SettlesBy D.senses self.old reading request.now self.new }
        ensures cause { IsBlamed (D.senses.faults self.old.disk) (D.senses.faults self.new.disk)
            result.0 }
    {
        self.core.is_legal();
        let moment = self.core.moment(reading);
        if !self.core.in_range(moment) {
            let end = self.core.origin() + RANGE_MINUTES;
            return (
                Outcome::ClockRange {
                    end,
                    reading: moment,
                },
                None,
            );
        }
        match request {
            Request::Ask(query) => (self.core.answer(alloc, moment, query), None),
            Request::Change(command) => change(
                alloc,
                &mut self.core,
                &mut self.journal,
                &mut self.doubt,
                reading,
                command,
            ),
        }
    }
}

/// Lets a machine go whose disk was taken from it. A caller that does it itself proves the dropping
/// of each type inside anew.
pub fn let_go(core: Core) {
    drop(core);
}
