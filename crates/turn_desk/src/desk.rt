//! The desk: how it is made, taken in turns, and closed.
ghost use Rattle.std.specs.Prelude.{◌≡◌, IfOk, IfErr, ◌++◌, ◌-◌, ◌<◌, false, length, All, flat_map};
ghost use Rattle.turn_desk.specs.Histories.{Extends, Comparable, Distinct};
ghost use Rattle.turn_desk.specs.Passes.{guest_of, newcomer, pass_of_both, with_guest, with_parts};
ghost use Rattle.turn_desk.specs.Sources.{Accounts, AreAll, own_of, raised_of};
ghost use Rattle.turn_desk.specs.Turns.{TookTurn};
ghost use Rattle.turn_desk.specs.declared.view.Opening.{Opening};

use crate::bell::Bell;
use crate::ledgered::{Call, Ledgered};
use crate::pass::Pass;
use crate::rule::{Another, Both, Compare, Deal, Opened, Turns};
use crate::turn::{MARK, give_back, take_out};
use crate::view::View;
use atomic_table::{Refused, Table};
use std::alloc::{AllocFailed, Global};
use std::marker::{Brand, Model};
use std::snapshot::Snapshot;
use std::sync::Wait;

/// A value at which threads take turns, each by a pass. Contracts see which desk it is.
#[derive(Drop)]
pub struct Desk<T: Ledgered + Drop> {
    table: Table<Option<T>, View, Opened<T>, Turns, Global>,
    bell: Bell,
}

impl<T: Ledgered + Drop> Model for Desk<T> {
    ghost use Rattle.atomic_table.specs.Seated.{TableId};
    ghost use Rattle.turn_desk.specs.Rule.{IsDesk};

    ghost Value = { TableId };

    ghost view = { λ d. d.table.shared.table_id };

    ghost invariant = { λ d. IsDesk d.table.shared.table_id };
}

/// There was no memory. The value comes back.
#[derive(Drop)]
pub struct DeskFailed<T> {
    pub value: T,
}

impl<T: Ledgered + Drop> Desk<T> {
    /// A desk over the value, and so many passes, which have seen the value's history and made none
    /// of it. It fails only where memory runs out.
    pub fn new(
        alloc: Global,
        value: T,
        passes: u32,
    ) -> Result<(Desk<T>, Vec<Pass<T>>), DeskFailed<T>>
        requires { 0 < passes }
        ensures count { IfOk result (λ made. length made.1.items ≡ passes) }
        ensures passes { IfOk result (λ made. All
            (λ p. p ≡ newcomer made.0 (T.ledger value) passes) made.1.items) }
        ensures err { IfErr result (λ failed. failed.value ≡ value) }
    {
        let mut list = Vec::new(alloc);
        if list.reserve(passes as usize).is_err() {
            return Err(DeskFailed { value });
        }
        match Desk::with_pass(alloc, value, passes) {
            Ok((desk, mut pass)) => {
                for _ in 1..passes {
                    let more = desk.deal(&mut pass);
                    let _ = list.push(more);
                }
                let _ = list.push(pass);
                Ok((desk, list))
            }
            Err(failed) => Err(failed),
        }
    }

    /// A desk over the value that is opened for so many passes, and one that stands for all.
    fn with_pass(alloc: Global, value: T, passes: u32) -> Result<(Desk<T>, Pass<T>), DeskFailed<T>>
        requires { 0 < passes }
        ensures pass { IfOk result (λ made. made.1
            ≡ with_parts passes (newcomer made.0 (T.ledger value) passes)) }
        ensures err { IfErr result (λ failed. failed.value ≡ value) }
    {
        let about = Opened {
            value: Snapshot::of(&value),
            passes,
        };
        let length = value.length();
        let mut slots = Vec::new(alloc);
        if let Err(AllocFailed { value }) = slots.push(Some(value)) {
            let Some(value) = value else { unreachable!() };
            return Err(DeskFailed { value });
        }
        match Table::new(alloc, &[0, length], slots, &about) {
            Ok((table, seat)) => {
                let bell = Bell::new();
                Ok((Desk { table, bell }, Pass { seat }))
            }
            Err(Refused { mut slots }) => {
                let Some(Some(value)) = slots.pop() else {
                    unreachable!()
                };
                Err(DeskFailed { value })
            }
        }
    }

    /// Waits for the turn, and makes the call on the value.
    pub fn with_turn<R: Wait, C: Call<T>>(&self, rt: &R, pass: &mut Pass<T>, call: &mut C) -> C::Out
        requires { pass.old.desk ≡ self.now }
        ensures desk { pass.new.desk ≡ pass.old.desk }
        ensures seen { Extends pass.old.seen pass.new.seen }
        ensures turn { TookTurn T.ledger C.then C.added call.old result call.new pass.old pass.new }
    {
        let board = &self.table.shared;
        let mut value = take_out(rt, board, &self.bell, &mut pass.seat);
        let asked = Snapshot::of(&*call);
        let before = Snapshot::of(&value);
        let out = call.act(&mut value);
        give_back::<T, C, Brand>(
            board,
            &self.bell,
            &mut pass.seat,
            value,
            asked,
            before,
            &out,
        );
        out
    }

    /// One of the passes for which the desk is opened, in place of a part of this one.
    fn deal(&self, pass: &mut Pass<T>) -> Pass<T>
        requires desk { pass.old.desk ≡ self.now }
        requires more { 1 < pass.old.parts }
        ensures less { pass.new ≡ with_parts (pass.old.parts - 1) pass.old }
        ensures new { result ≡ with_parts 1 (guest_of pass.old) }
    {
        let seat = self.table.shared.split_seat::<Deal>(&mut pass.seat);
        Pass { seat }
    }

    /// A further pass that has seen as much, and made none of it. The pass stays as it was, but for
    /// the mark that one was split off it: the desk wasn't opened for the further one, so that it
    /// may be dropped unseen.
    pub fn split(&self, pass: &mut Pass<T>) -> Pass<T>
        requires { pass.old.desk ≡ self.now }
        ensures same { pass.new ≡ with_guest pass.old }
        ensures new { result ≡ guest_of pass.old }
    {
        let seat = self.table.shared.split_seat::<Another>(&mut pass.seat);
        Pass { seat }
    }

    /// One pass for two, which has seen the longer history, made what both made, and stands for
    /// both.
    pub fn join(&self, pass: &mut Pass<T>, other: Pass<T>)
        requires own { pass.old.desk ≡ self.now }
        requires other { other.desk ≡ self.now }
        ensures both { pass.new ≡ pass_of_both pass.old other }
        ensures one_root { other.root ≡ pass.old.root }
        ensures one_history { Comparable pass.old.seen other.seen }
        ensures within { All (λ p. p < length pass.new.seen) pass.new.own }
        ensures apart { Distinct pass.new.own }
    {
        let Pass { seat } = other;
        self.table.shared.join_seat::<Both>(&mut pass.seat, seat);
        self.table.shared.load::<Compare>(&mut pass.seat, MARK);
    }

    /// One pass for all of them.
    fn gather(&self, mut passes: Vec<Pass<T>>) -> Pass<T>
        requires some { 0 < length passes.items }
        requires desk { All (λ p. p.desk ≡ self.now) passes.items }
        ensures desk { result.desk ≡ self.now }
        ensures root { All (λ p. p.root ≡ result.root) passes.items }
        ensures seen { All (λ p. Extends p.seen result.seen) passes.items }
        ensures own { result.own ≡ own_of passes.items }
        ensures raised { result.raised ≡ raised_of passes.items }
        ensures all { (opening : Opening) → AreAll opening passes.items
            → (result.opening ≡ opening) × (result.parts ≡ opening.passes)
            × (result.has_split ≡ false) }
    {
        let Some(mut pass) = passes.pop() else {
            unreachable!()
        };
        while let Some(mut next) = passes.pop() {
            self.join(&mut next, pass);
            pass = next;
        }
        pass
    }

    /// Waits for the turn a last time, and hands out the value. Its history begins with what each
    /// pass has seen. Each own position of the passes lies in it, and no position stands twice. If
    /// the passes are all that the desk was opened for, each entry behind its opening is one of
    /// theirs.
    pub fn close<R: Wait>(self, rt: &R, passes: Vec<Pass<T>>) -> T
        requires some { 0 < length passes.items }
        requires desk { All (λ p. p.desk ≡ self) passes.items }
        ensures root { All (λ p. p.root ≡ (T.ledger result).root) passes.items }
        ensures seen { All (λ p. Extends p.seen (T.ledger result).history) passes.items }
        ensures within { All (λ k. k < length (T.ledger result).history)
            (flat_map (λ p. p.own) passes.items) }
        ensures apart { Distinct (flat_map (λ p. p.own) passes.items) }
        ensures no_other { (opening : Opening) → AreAll opening passes.items → Accounts opening
            (own_of passes.items) (raised_of passes.items) (T.ledger result).history }
    {
        let pass = self.gather(passes);
        let Pass { mut seat } = pass;
        self.table.shared.load::<Compare>(&mut seat, MARK);
        take_out(rt, &self.table.shared, &self.bell, &mut seat)
    }
}
