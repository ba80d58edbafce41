//! A door over visits in memory, which tells what becomes of them.
ghost use Rattle.std.specs.Prelude.{◌+◌, ◌≤◌, length, vec_capacity};

use crate::calls::Calls;
use crate::{Door, Given, Visit};
use office_outside::{Failed, MemoryClock, MemorySource, Sink};
use std::alloc::{AllocError, Global};
use std::collections::VecDeque;

/// A visit in memory, whose answers go to a K.
pub type MemoryVisit<K> = Visit<MemorySource, K, MemoryClock>;

/// A door over visits in memory. It keeps those that came back. Room for them is made with the
/// door, so that `next` fails exactly where it is to, and `end` grows nothing.
#[derive(Drop)]
pub struct MemoryDoor<K: Drop> {
    left: VecDeque<MemoryVisit<K>>,
    handed: Given<MemoryVisit<K>>,
    back: Vec<MemoryVisit<K>>,
    ended: bool,
    calls: Calls,
    ghost room: { length handed.items + length left.items ≤ vec_capacity back },
    ghost within: { length back.items ≤ length handed.items },
}

impl<K: Drop> MemoryDoor<K> {
    ghost use Rattle.std.specs.Prelude.{◌≡◌, IfOk};
    ghost use Rattle.office_doors.specs.DoorMemory.{book_of, calls_of, fresh_book};
    ghost use Rattle.office_doors.specs.Calls.{numbered};

    /// A door that hands out these visits, in order. The calls of `next` whose numbers are in
    /// `failing`, counted from 0, fail.
    pub fn new(
        alloc: Global,
        visits: Vec<MemoryVisit<K>>,
        failing: Vec<u64>,
    ) -> Result<MemoryDoor<K>, AllocError>
        ensures book { IfOk result (λ door. book_of door ≡ fresh_book visits.items) }
        ensures calls { IfOk result (λ door. calls_of door ≡ numbered failing.items) }
    {
        let back = Vec::with_capacity(alloc, visits.len())?;
        Ok(MemoryDoor::over(visits.into(), back, failing))
    }

    /// A door over these visits, with room for those that come back.
    pub(crate) fn over(
        left: VecDeque<MemoryVisit<K>>,
        back: Vec<MemoryVisit<K>>,
        failing: Vec<u64>,
    ) -> MemoryDoor<K>
        requires none { length back.items ≡ 0 }
        requires room { length left.items ≤ vec_capacity back }
        ensures book { book_of result ≡ fresh_book left.items }
        ensures calls { calls_of result ≡ numbered failing.items }
    {
        MemoryDoor {
            left,
            handed: Given::new(),
            back,
            ended: false,
            calls: Calls::new(failing),
        }
    }

    /// The visits that came back, in order.
    pub fn back(&self) -> &[MemoryVisit<K>]
        ensures { result.now ≡ (book_of self.now).back }
    {
        &self.back
    }

    /// Whether its last answer to `next` was that there are no more.
    pub fn ended(&self) -> bool
        ensures { result ≡ (book_of self.now).ended }
    {
        self.ended
    }

    /// How many calls of `next` failed.
    pub fn faults(&self) -> u64
        ensures { result ≡ (calls_of self.now).faults }
    {
        self.calls.faults()
    }
}

impl<K: Sink + Send + Drop> Door for MemoryDoor<K> {
    ghost use Rattle.std.specs.Prelude.{◌≡◌, ◌↔◌, Some, None, IfOk, IfSome, OnErr, OnOk, IsErr};
    ghost use Rattle.std.specs.Prelude.{Contains};
    ghost use Rattle.office_outside.specs.Faults.{HasCause};
    ghost use Rattle.office_doors.specs.Books.{HandsOut, FindsNone, FailsToHand, TakesBack};
    ghost use Rattle.office_doors.specs.Books.{HasOneOut};
    ghost use Rattle.office_doors.specs.Calls.{after_call, after_failure};
    ghost use Rattle.office_doors.specs.DoorMemory.{book_of, calls_of};

    type In = MemorySource;

    type Out = K;

    type Time = MemoryClock;

    ghost told = { λ d. Some (book_of d) };

    ghost faults = { λ d. (calls_of d).faults };

    /// Fails exactly at the calls that are to fail. It takes no memory.
    fn next(&mut self) -> Result<Option<MemoryVisit<K>>, Failed>
        ensures some { IfOk result (λ next. IfSome next
            (λ visit. HandsOut visit (book_of self.old) (book_of self.new))) }
        ensures none { IfOk result (λ next. next ≡ None
            → FindsNone (book_of self.old) (book_of self.new)) }
        ensures failed { OnErr result (FailsToHand (book_of self.old) (book_of self.new)) }
        ensures cause { HasCause (calls_of self.old).faults (calls_of self.new).faults result }

        ensures failing { IsErr result
            ↔ Contains (calls_of self.old).failing (calls_of self.old).calls }
        ensures done { OnOk result (calls_of self.new ≡ after_call (calls_of self.old)) }
        ensures after_failure { OnErr result
            (calls_of self.new ≡ after_failure (calls_of self.old)) }
    {
        if self.calls.note().is_err() {
            self.ended = false;
            return Err(Failed);
        }
        let next = self.left.pop_front();
        self.ended = next.is_none();
        if let Some(visit) = &next {
            self.handed = self.handed.and(visit);
        }
        Ok(next)
    }

    fn end(&mut self, visit: MemoryVisit<K>)
        requires out { HasOneOut (book_of self.old) }
        ensures back { TakesBack visit (book_of self.old) (book_of self.new) }
        ensures faults { (calls_of self.new).faults ≡ (calls_of self.old).faults }

        ensures calls { calls_of self.new ≡ calls_of self.old }
    {
        let _ = self.back.push(visit);
    }

    ghost within = { λ d. d.within };
}
