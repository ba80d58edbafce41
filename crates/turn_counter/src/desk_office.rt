//! An office that lies at a desk.
ghost use Rattle.std.specs.Prelude.{◌≡◌, ◌<◌, All, IfErr, IfOk, flat_map, length};
ghost use Rattle.turn_desk.specs.Histories.{Distinct, Extends};
ghost use Rattle.turn_desk.specs.Passes.{newcomer};
ghost use Rattle.turn_desk.specs.Sources.{Accounts, AreAll, own_of, raised_of};
ghost use Rattle.turn_desk.specs.declared.Opening.{Opening};
ghost use Rattle.turn_counter.specs.Seen.{ledger_of};

use office_keep::Office;
use office_outside::Disk;
use std::alloc::Global;
use std::marker::Model;
use std::sync::Wait;
use turn_desk::{Desk, Ledgered, Pass};

/// An office as a value that takes turns. It is seen as the office.
#[derive(Drop)]
pub struct DeskOffice<D: Disk + Drop> {
    pub(crate) office: Office<D>,
}

impl<D: Disk + Drop> Model for DeskOffice<D> {
    ghost use Rattle.office_keep.specs.Office.{OfficeOn};

    ghost Value = { OfficeOn D };

    ghost view = { λ held. held.office };
}

impl<D: Disk + Drop> Ledgered for DeskOffice<D> {
    ghost use Rattle.turn_counter.specs.Seen.{ledger_of};

    ghost ledger = { ledger_of D.senses };

    fn length(&self) -> u64 {
        u64::from(self.office.length())
    }
}

/// Lays an office at a desk with so many passes, which have seen the office's history and made none
/// of it. Where memory runs out the office comes back.
pub fn open_desk<D: Disk + Drop>(
    alloc: Global,
    office: Office<D>,
    passes: u32,
) -> Result<(Desk<DeskOffice<D>>, Vec<Pass<DeskOffice<D>>>), Office<D>>
    requires { 0 < passes }
    ensures count { IfOk result (λ made. length made.1.items ≡ passes) }
    ensures passes { IfOk result (λ made. All
        (λ p. p ≡ newcomer made.0 (ledger_of D.senses office) passes) made.1.items) }
    ensures err { IfErr result (λ back. back ≡ office) }
{
    match Desk::new(alloc, DeskOffice { office }, passes) {
        Ok(made) => Ok(made),
        Err(failed) => Err(failed.value.office),
    }
}

/// Waits for the turn a last time, and hands out the office. Its history begins with what each pass
/// has seen. Each own place of the passes lies in it, and none stands twice. If the passes are all
/// that the desk was opened for, each entry behind its opening is one of theirs.
pub fn close_desk<R: Wait, D: Disk + Drop>(
    rt: &R,
    desk: Desk<DeskOffice<D>>,
    passes: Vec<Pass<DeskOffice<D>>>,
) -> Office<D>
    requires some { 0 < length passes.items }
    requires desk { All (λ p. p.desk ≡ desk) passes.items }
    ensures root { All (λ p. p.root ≡ (ledger_of D.senses result).root) passes.items }
    ensures seen { All (λ p. Extends p.seen (ledger_of D.senses result).history) passes.items }
    ensures within { All (λ k. k < length (ledger_of D.senses result).history)
        (flat_map (λ p. p.own) passes.items) }
    ensures apart { Distinct (flat_map (λ p. p.own) passes.items) }
    ensures no_other { (opening : Opening) → AreAll opening passes.items → Accounts opening
        (own_of passes.items) (raised_of passes.items) (ledger_of D.senses result).history }
{
    desk.close(rt, passes).office
}
