//! A counter over an office of its own.
ghost use Rattle.std.specs.Prelude.{◌≡◌, ◌≤◌, ◌<◌, [], length, vec_capacity};
ghost use Rattle.slo_limits.specs.declared.TheConstants.{MAX_MINUTE};
ghost use Rattle.office_counter.specs.Steps.{HasRevisionsIn};
ghost use Rattle.own_counter.specs.Own.{OwnAsks, places_with, own_on};

use office_counter::Counter;
use office_keep::Office;
use office_outside::Disk;
use record_form::{Outcome, Request};
use std::alloc::Global;
use std::marker::Model;

/// Answers requests over an office that nobody else changes. It is seen as the office and the
/// places of its own entries in the office's history.
#[derive(Drop)]
pub struct OwnCounter<D: Disk + Drop> {
    office: Office<D>,
    own: Vec<u32>,
}

impl<D: Disk + Drop> Model for OwnCounter<D> {
    ghost use Rattle.own_counter.specs.Own.{OwnOn, own_on};

    ghost Value = { OwnOn D };

    ghost view = { λ c. own_on c.office c.own.items };
}

impl<D: Disk + Drop> OwnCounter<D> {
    /// A counter that has added nothing yet.
    pub fn new(alloc: Global, office: Office<D>) -> OwnCounter<D>
        ensures { result ≡ own_on office [] }
    {
        OwnCounter {
            office,
            own: Vec::new(alloc),
        }
    }

    /// The places of its own entries, in order.
    pub fn own(&self) -> &[u32]
        ensures { result.now ≡ self.now.own }
    {
        self.own.as_slice()
    }

    /// The office.
    pub fn give_back(self) -> Office<D>
        ensures { result ≡ self.kept }
    {
        self.office
    }
}

/// Notes the place of an entry that was added, where there is one.
fn note(own: &mut Vec<u32>, place: Option<u32>)
    requires { length own.old.items < vec_capacity own.old }
    ensures { own.new.items ≡ places_with place own.old.items }
{
    if let Some(place) = place {
        let _ = own.push(place);
    }
}

/// Asks the office. Room for the place of an entry comes first.
fn ask_alone<D: Disk + Drop>(
    alloc: Global,
    office: &mut Office<D>,
    own: &mut Vec<u32>,
    reading: u32,
    request: &Request,
) -> Outcome
    requires reading { reading ≤ MAX_MINUTE }
    requires revisions { HasRevisionsIn request.now }
    ensures { OwnAsks D.senses (own_on office.old own.old.items) reading request.now result
        (own_on office.new own.new.items) }
{
    if own.reserve(1).is_err() {
        office.disk_stands();
        return Outcome::NoMemory;
    }
    let (outcome, place) = office.act(alloc, reading, request);
    note(own, place);
    outcome
}

impl<D: Disk + Drop> Counter for OwnCounter<D> {
    ghost use Rattle.own_counter.specs.Own.{OwnAsks, standing_of};
    ghost use Rattle.own_counter.specs.Stepping.{own_steps};

    ghost asks = { OwnAsks D.senses };

    ghost standing = { λ c. standing_of D.senses c };

    fn ask(&mut self, alloc: Global, reading: u32, request: &Request) -> Outcome {
        ask_alone(alloc, &mut self.office, &mut self.own, reading, request)
    }

    ghost steps = { own_steps D.senses };
}
