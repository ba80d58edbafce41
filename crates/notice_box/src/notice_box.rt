//! The box in which notices wait.
ghost use Rattle.std.specs.Prelude.{◌≡◌, ◌⊎◌, ℕ, ◌+◌, ◌-◌, ◌<◌, ◌≤◌, ◌++◌, ◌∷◌, [], true, IfOk};
ghost use Rattle.std.specs.Prelude.{OnErr, OnOk, length, slice_get, take};
ghost use Rattle.notice_box.specs.Box.{AreNumbered, IsNext, after_taking, count_waiting};
ghost use Rattle.notice_box.specs.Box.{notices_of, waiting_in, waits};

use crate::links::{Link, come_from, go_on, let_go, link_at, notice_at, waits_at};
use crate::notice::Notice;
use std::alloc::{AllocError, Global};
use std::marker::Model;

/// There is no notice of that number: it is 0 or above the count of notices made.
#[derive(Clone, Copy, Debug, PartialEq, Eq)]
pub struct UnknownNotice;

/// All notices that were made, each waiting until it is taken. The waiting ones are linked with one
/// another, so that it doesn't matter how many were taken.
#[derive(Drop)]
pub struct NoticeBox {
    // Each with whether it waits, in the order of their numbers.
    made: Vec<(Notice, bool)>,
    links: Vec<Link>,
    first: Option<u32>,
    last: Option<u32>,
    waiting: u32,
}

impl Model for NoticeBox {
    ghost use Rattle.std.specs.Prelude.{◌-◌, min, vec_capacity, vec_len};
    ghost use Rattle.notice_box.specs.Box.{Made};
    ghost use Rattle.notice_box.specs.Links.{NoticesAreKept};

    ghost Value = { Made };

    ghost view = { λ a. record {
      made = a.made.items;
      spare = min
          (vec_capacity a.made - vec_len a.made) (vec_capacity a.links - vec_len a.links);
    } };

    ghost invariant = { λ a. NoticesAreKept a.made.items a.links.items a.first a.last a.waiting };
}

impl NoticeBox {
    /// No notices yet. Takes no memory.
    pub fn new(alloc: Global) -> NoticeBox
        ensures { result.made ≡ [] }
    {
        NoticeBox {
            made: Vec::new(alloc),
            links: Vec::new(alloc),
            first: None,
            last: None,
            waiting: 0,
        }
    }

    /// Makes room for so many notices more. After an error the notices are as before.
    pub fn reserve(&mut self, places: u32) -> Result<(), AllocError>
        ensures made { self.new.made ≡ self.old.made }
        ensures spare { OnOk result (places ≤ self.new.spare) }
    {
        self.made.reserve(places as usize)?;
        self.links.reserve(places as usize)
    }

    /// How many notices were made.
    pub fn count(&self) -> u32
        ensures { result ≡ length self.now.made }
    {
        self.made.len() as u32
    }

    /// How many notices wait.
    pub fn waiting(&self) -> u32
        ensures { result ≡ count_waiting self.now.made }
    {
        self.waiting
    }

    /// No work: notices are numbered from 1, one after another.
    pub fn numbered(&self)
        ensures { AreNumbered 1 (notices_of self.now.made) }
    {
        let _waiting = self.waiting;
    }

    /// The notice at a place of the list, from 0, and whether it waits. None exactly where the
    /// place isn't below the list's length.
    pub fn notice_at(&self, place: u32) -> Option<(Notice, bool)>
        ensures { result ≡ slice_get self.now.made place }
    {
        self.made.get(place as usize).copied()
    }

    /// The first place at which a notice waits.
    pub fn first_place(&self) -> Option<u32>
        ensures { IsNext (waits self.now.made) 0 result }
    {
        self.first
    }

    /// The first place behind one at which a notice waits, without a look at those between.
    pub fn next_place(&self, place: u32) -> Option<u32>
        requires { waits self.now.made place ≡ true }
        ensures { IsNext (waits self.now.made) (place + 1) result }
    {
        link_at(&self.links, place).later
    }

    /// The first notices that wait, `most` of them or as many as there are.
    pub fn first_waiting(&self, alloc: Global, most: usize) -> Result<Vec<Notice>, AllocError>
        ensures { IfOk result (λ notices. notices.items ≡ take most (waiting_in self.now.made)) }
    {
        let mut notices = Vec::new(alloc);
        let mut next = self.first;
        for _count in 0..most {
            match next {
                Some(place) => {
                    notices.push(notice_at(&self.made, place))?;
                    next = link_at(&self.links, place).later;
                }
                None => return Ok(notices),
            }
        }
        Ok(notices)
    }

    /// Adds the notice of the next number, which waits. There is room for it.
    pub fn push(&mut self, value: Notice)
        requires room { 0 < self.old.spare }
        requires number { value.number ≡ length self.old.made + 1 }
        ensures made { self.new.made ≡ self.old.made ++ (value, true) ∷ [] }
        ensures spare { self.old.spare ≤ self.new.spare + 1 }
        ensures waiting { count_waiting self.new.made ≡ count_waiting self.old.made + 1 }
    {
        let place = value.number - 1;
        let link = Link {
            earlier: self.last,
            later: None,
        };
        self.first = go_on(&mut self.links, self.first, self.last, Some(place));
        self.last = Some(place);
        self.links.extend_from_slice(&[link]).unwrap();
        self.made.extend_from_slice(&[(value, true)]).unwrap();
        self.waiting += 1;
    }

    /// Takes the notice of a number: true where it waited, false where it was taken before.
    pub fn take(&mut self, number: u32) -> Result<bool, UnknownNotice>
        ensures unknown { OnErr result ((number ≡ 0) ⊎ (length self.old.made < number)) }
        ensures known { OnOk result ((0 < number) × (number ≤ length self.old.made)) }
        ensures unchanged { OnErr result (self.new ≡ self.old) }
        ensures waited { IfOk result (λ waited. waited ≡ waits self.old.made (number - 1)) }
        ensures made { OnOk result (self.new.made ≡ after_taking self.old.made number) }
        ensures spare { self.new.spare ≡ self.old.spare }
        ensures one { count_waiting self.old.made ≤ count_waiting self.new.made + 1 }
    {
        if number == 0 || number > self.count() {
            return Err(UnknownNotice);
        }
        let place = number - 1;
        if !waits_at(&self.made, place) {
            return Ok(false);
        }
        let link = link_at(&self.links, place);
        self.first = go_on(&mut self.links, self.first, link.earlier, link.later);
        self.last = come_from(&mut self.links, self.last, link.later, link.earlier);
        let_go(&mut self.made, place);
        self.waiting -= 1;
        Ok(true)
    }
}
