//! A line that remembers the condition of an alert.
ghost use Rattle.std.specs.Prelude.{◌≡◌, ℕ, Bool, true, ◌+◌, ◌-◌, ◌*◌, ◌^◌, [], IfSome, OnOk};
ghost use Rattle.std.specs.Prelude.{is_none, ◌<◌, ◌≤◌, ◌==◌, ◌&&◌, nat_le, nat_lt, IfOk, IsTrue};
ghost use Rattle.std.specs.Prelude.{is_some, None, Some, max, min};
ghost use Rattle.std.specs.Prelude.{if◌then◌else◌};
ghost use Rattle.slo_limits.specs.declared.TheConstants.{WHOLE};
ghost use Rattle.burn_core.specs.Alert.{IsRule, wait_of};
ghost use Rattle.burn_core.specs.Timeline.{AreSpansOf, is_active, state_of};
ghost use Rattle.window_sums.specs.Slices.{CountedDays, leaf_at, width_of};
ghost use Rattle.alert_line.specs.Cursor.{IsAt, IsBehind, lag_of};
ghost use Rattle.alert_line.specs.Laws.{HasForgotten};
ghost use Rattle.alert_line.specs.Learnt.{HasLearnt, IsLearnt, IsRun, start_of, unknown_in};
ghost use Rattle.alert_line.specs.Line.{Agrees, IsMinute, SameAlert, active_on, condition_on};
ghost use Rattle.alert_line.specs.Line.{den_before, knowledge};
ghost use Rattle.alert_line.specs.Summed.{AreSummedAt};

use crate::cursor::Cursor;
use crate::minutes::{alike_from, forget_in, keep, kept_at};
use crate::spans::{Spans, note_minute, note_stretch};
use crate::summed::SummedWindows;
use burn_core::{AlertRule, State};
use exact_fraction::Decimal;
use slo_limits::RANGE_MINUTES;
use std::alloc::{AllocError, Global};
use std::marker::Model;
use std::sync::ledger::Ledger;
use sum_pages::Steps;
use window_sums::WindowSums;

/// Over how many minutes that were known windows are moved on. Over more it is cheaper to sum anew.
const MOST_MOVES: u32 = 32;

/// What is known of the condition of an alert, for each minute from its origin on.
#[derive(Drop)]
pub struct AlertLine {
    rule: AlertRule,
    target: Decimal,
    origin: u32,
    bytes: Vec<u8>,
}

impl Model for AlertLine {
    ghost use Rattle.std.specs.Prelude.{vec_capacity};
    ghost use Rattle.alert_line.specs.Line.{IsLine, Line};

    ghost Value = { Line };

    ghost view = { λ a. record {
      rule = a.rule;
      target = a.target;
      origin = a.origin;
      bytes = a.bytes.items;
      room = vec_capacity a.bytes;
    } };

    ghost invariant = { λ a. IsLine (record {
      rule = a.rule;
      target = a.target;
      origin = a.origin;
      bytes = a.bytes.items;
      room = vec_capacity a.bytes;
    }) };
}

impl AlertLine {
    /// A line that knows nothing yet. Takes room of 512 KiB, of which it writes as much as lies up
    /// to the last minute that it comes to know. The target is below 1, a threshold at most 10,000,
    /// a lookback and a wait at most 30 days.
    pub fn new(
        alloc: Global,
        origin: u32,
        rule: AlertRule,
        target: Decimal,
    ) -> Result<AlertLine, AllocError>
        requires rule { IsRule rule }
        requires target { target < WHOLE }
        ensures rule { IfOk result (λ line. line.rule ≡ rule) }
        ensures target { IfOk result (λ line. line.target ≡ target) }
        ensures origin { IfOk result (λ line. line.origin ≡ origin) }
        ensures unknown { IfOk result (λ line. (minute : ℕ) → knowledge line minute ≡ None) }
        ensures agrees { IfOk result (λ line. (sums : CountedDays) → Agrees line sums) }
    {
        let bytes = Vec::with_capacity(alloc, (RANGE_MINUTES / 4) as usize)?;
        Ok(AlertLine {
            rule,
            target,
            origin,
            bytes,
        })
    }

    /// The condition of a minute as far as it is known. None exactly where the minute is unknown
    /// or out of the line's range.
    pub fn known_at(&self, minute: u32) -> Option<bool>
        ensures { result ≡ knowledge self.now minute }
    {
        if minute < self.origin {
            return None;
        }
        kept_at(&self.bytes, (minute - self.origin) as usize)
    }

    /// Whether nothing is known from a minute on, as far as the number of bytes tells it: it may
    /// say false where nothing is known.
    pub fn knows_nothing_from(&self, minute: u32) -> bool
        ensures { result ≡ true → (u : ℕ) → minute ≤ u → knowledge self.now u ≡ None }
    {
        4 * self.bytes.len() <= minute.saturating_sub(self.origin) as usize
    }

    /// For how many minutes from one on, up to another, the condition is known to hold, or known
    /// not to: looked up four minutes at a time, so it may tell fewer than there are.
    fn known_run(&self, holds: bool, from: u32, to: u32) -> u32
        requires begin { self.now.origin ≤ from }
        requires order { from ≤ to }
        requires end { to ≤ self.now.origin + RANGE_MINUTES }
        ensures within { from + result ≤ to }
        ensures known { (u : ℕ) → from ≤ u → u < from + result
            → knowledge self.now u ≡ Some holds }
    {
        let known = 4 * self.bytes.len();
        let first = (from - self.origin) as usize;
        let beyond = known <= first;
        if beyond {
            return 0;
        }
        let end = ((to - self.origin) as usize).min(known);
        alike_from(&self.bytes, first, end, holds) as u32
    }

    /// For how many minutes from one on, up to another, the condition is known alike, and whether
    /// it holds at them.
    fn known_alike(&self, from: u32, to: u32) -> (u32, bool)
        requires begin { self.now.origin ≤ from }
        requires order { from ≤ to }
        requires end { to ≤ self.now.origin + RANGE_MINUTES }
        ensures within { from + result.0 ≤ to }
        ensures known { (u : ℕ) → from ≤ u → u < from + result.0
            → knowledge self.now u ≡ Some result.1 }
    {
        let held = self.known_run(true, from, to);
        let some = 0 < held;
        if some {
            return (held, true);
        }
        let broken = self.known_run(false, from, to);
        (broken, false)
    }

    /// Forgets the minutes of [from, to), and no other.
    pub fn mark(&mut self, from: u32, to: u32)
        ensures alert { SameAlert self.old self.new }
        ensures forgotten { HasForgotten self.old self.new from to }
        ensures agrees { (sums : CountedDays) → Agrees self.old sums → Agrees self.new sums }
    {
        let known = 4 * self.bytes.len();
        let first = (from.saturating_sub(self.origin) as usize).min(known);
        let end = (to.saturating_sub(self.origin) as usize).min(known);
        if first < end {
            forget_in(&mut self.bytes, first, end);
        }
    }

    /// The condition of a minute, which is known afterwards. No step where it was known before,
    /// else at most 2,400.
    pub fn condition_at<L: Ledger>(
        &mut self,
        minute: u32,
        sums: &WindowSums,
        steps: &mut Steps<L>,
    ) -> bool
        requires minute { IsMinute self.old minute }
        requires agrees { Agrees self.old sums.now }
        ensures value { result ≡ condition_on self.old sums.now minute }
        ensures alert { SameAlert self.old self.new }
        ensures agrees { Agrees self.new sums.now }
        ensures known { (u : ℕ) → knowledge self.new u
            ≡ (if u == minute then Some result else knowledge self.old u) }
        ensures free { IsTrue (is_some (knowledge self.old minute)) → steps.new ≡ steps.old }
        ensures steps { steps.new ≤ steps.old + 2400 }
    {
        if let Some(holds) = self.known_at(minute) {
            return holds;
        }
        let mut cursor = Cursor::new(self.rule, minute, sums, steps);
        let holds = self.burns(&mut cursor, sums, steps);
        self.learn(minute, holds);
        holds
    }

    /// When the alert is active within [from, to): the longest stretches of active minutes. Each
    /// minute from `from` less the wait on is known afterwards. At most 2,400 steps for each of
    /// them that was unknown, and none for the others.
    pub fn intervals<L: Ledger>(
        &mut self,
        from: u32,
        to: u32,
        sums: &WindowSums,
        steps: &mut Steps<L>,
    ) -> Result<Spans, AllocError>
        requires order { from ≤ to }
        requires begin { self.old.origin ≤ from }
        requires end { to ≤ self.old.origin + RANGE_MINUTES }
        requires agrees { Agrees self.old sums.now }
        ensures value { IfOk result (λ spans. AreSpansOf
            (λ minute. active_on self.old sums.now minute ≡ true) from to spans.items) }
        ensures alert { SameAlert self.old self.new }
        ensures agrees { Agrees self.new sums.now }
        ensures kept { (u : ℕ) (holds : Bool) → knowledge self.old u ≡ Some holds
            → knowledge self.new u ≡ Some holds }
        ensures known { OnOk result (IsLearnt self.old self.new sums.now (start_of self.old from)
            to) }
        ensures steps { steps.new ≤ steps.old
            + 2400 * unknown_in self.old (start_of self.old from) (to - start_of self.old from) }
    {
        let wait = self.wait();
        let start = self.start(from);
        let mut spans = self.no_spans();
        let mut run = 0;
        let mut cursor = None;
        let mut minute = start;
        while minute < to {
            let (known, held) = self.known_alike(minute, to);
            let told = 0 < known;
            if told {
                let end = minute + known;
                let first = first_active(wait, run, from, minute);
                note_stretch(&mut spans, first, end, held)?;
                run = run_over(run, known, held);
                minute = end;
            } else {
                let holds = self.evaluate(minute, &mut cursor, sums, steps);
                run = next_run(run, holds);
                let active = is_active(wait, run, from, minute);
                note_minute(&mut spans, minute, active)?;
                minute += 1;
            }
        }
        Ok(spans)
    }

    /// How the alert stands at a minute. Afterwards the minutes that decide about it are known. At
    /// most 2,400 steps for each of them that was unknown, and 600 for the lookback.
    pub fn state_at<L: Ledger>(
        &mut self,
        minute: u32,
        sums: &WindowSums,
        steps: &mut Steps<L>,
    ) -> State
        requires minute { IsMinute self.old minute }
        requires agrees { Agrees self.old sums.now }
        ensures value { result ≡ state_of (active_on self.old sums.now minute)
            (den_before self.old sums.now minute) }
        ensures alert { SameAlert self.old self.new }
        ensures agrees { Agrees self.new sums.now }
        ensures kept { (u : ℕ) (holds : Bool) → knowledge self.old u ≡ Some holds
            → knowledge self.new u ≡ Some holds }
        ensures known { IsLearnt self.old self.new sums.now (start_of self.old minute)
            (minute + 1) }
        ensures steps { steps.new ≤ steps.old + 600
            + 2400 * unknown_in self.old (start_of self.old minute)
            (minute + 1 - start_of self.old minute) }
    {
        let mut summed = SummedWindows::new();
        self.state_with(minute, sums, &mut summed, steps)
    }

    /// The same, by windows that were summed up at the minute over sums with the same leaves, as
    /// far as there are some of the rule. Those that weren't are kept for the next line.
    pub fn state_with<L: Ledger>(
        &mut self,
        minute: u32,
        sums: &WindowSums,
        summed: &mut SummedWindows,
        steps: &mut Steps<L>,
    ) -> State
        requires minute { IsMinute self.old minute }
        requires agrees { Agrees self.old sums.now }
        requires summed { AreSummedAt (width_of sums.now.method) (leaf_at sums.now) minute
            summed.old }
        ensures value { result ≡ state_of (active_on self.old sums.now minute)
            (den_before self.old sums.now minute) }
        ensures alert { SameAlert self.old self.new }
        ensures agrees { Agrees self.new sums.now }
        ensures kept { (u : ℕ) (holds : Bool) → knowledge self.old u ≡ Some holds
            → knowledge self.new u ≡ Some holds }
        ensures known { IsLearnt self.old self.new sums.now (start_of self.old minute)
            (minute + 1) }
        ensures summed { AreSummedAt (width_of sums.now.method) (leaf_at sums.now) minute
            summed.new }
        ensures steps { steps.new ≤ steps.old + 600
            + 2400 * unknown_in self.old (start_of self.old minute)
            (minute + 1 - start_of self.old minute) }
    {
        let active = self.active_at(minute, sums, summed, steps);
        self.state_where(active, minute, sums, steps)
    }

    /// How the alert stands at a minute at which it is active or isn't. Only where it isn't the
    /// lookback is asked for events.
    fn state_where<L: Ledger>(
        &self,
        active: bool,
        minute: u32,
        sums: &WindowSums,
        steps: &mut Steps<L>,
    ) -> State
        ensures value { result ≡ state_of active (den_before self.now sums.now minute) }
        ensures steps { steps.new ≤ steps.old + 600 }
    {
        if active {
            return State::Breaching;
        }
        if self.is_silent(minute, sums, steps) {
            State::NoData
        } else {
            State::Quiet
        }
    }

    /// Whether the alert is active at a minute.
    fn active_at<L: Ledger>(
        &mut self,
        minute: u32,
        sums: &WindowSums,
        summed: &mut SummedWindows,
        steps: &mut Steps<L>,
    ) -> bool
        requires minute { IsMinute self.old minute }
        requires agrees { Agrees self.old sums.now }
        requires summed { AreSummedAt (width_of sums.now.method) (leaf_at sums.now) minute
            summed.old }
        ensures value { result ≡ active_on self.old sums.now minute }
        ensures alert { SameAlert self.old self.new }
        ensures agrees { Agrees self.new sums.now }
        ensures kept { (u : ℕ) (holds : Bool) → knowledge self.old u ≡ Some holds
            → knowledge self.new u ≡ Some holds }
        ensures known { IsLearnt self.old self.new sums.now (start_of self.old minute)
            (minute + 1) }
        ensures summed { AreSummedAt (width_of sums.now.method) (leaf_at sums.now) minute
            summed.new }
        ensures steps { steps.new ≤ steps.old
            + 2400 * unknown_in self.old (start_of self.old minute)
            (minute + 1 - start_of self.old minute) }
    {
        let wait = self.wait();
        let mut cursor = None;
        let run = self.run_before(minute, &mut cursor, sums, steps);
        let holds = self.evaluate_with(minute, &mut cursor, sums, summed, steps);
        has_held(wait, run, holds)
    }

    /// For how many minutes before a minute the condition has held without a break, as far as its
    /// wait asks.
    fn run_before<L: Ledger>(
        &mut self,
        minute: u32,
        cursor: &mut Option<Cursor>,
        sums: &WindowSums,
        steps: &mut Steps<L>,
    ) -> u32
        requires minute { IsMinute self.old minute }
        requires agrees { Agrees self.old sums.now }
        requires none { cursor.old ≡ None }
        ensures run { IsRun (condition_on self.old sums.now) (start_of self.old minute) minute
            result }
        ensures alert { SameAlert self.old self.new }
        ensures agrees { Agrees self.new sums.now }
        ensures known { IsLearnt self.old self.new sums.now (start_of self.old minute) minute }
        ensures behind { IfSome cursor.new
            (IsBehind self.old.rule (width_of sums.now.method) (leaf_at sums.now) minute) }
        ensures steps { steps.new ≤ steps.old
            + 2400 * unknown_in self.old (start_of self.old minute)
            (minute - start_of self.old minute) }
    {
        let start = self.start(minute);
        let mut run = 0;
        let mut at = start;
        while at < minute {
            let (known, held) = self.known_alike(at, minute);
            let told = 0 < known;
            if told {
                run = run_over(run, known, held);
                at += known;
            } else {
                let holds = self.evaluate(at, cursor, sums, steps);
                run = next_run(run, holds);
                at += 1;
            }
        }
        run
    }

    /// Whether the lookback has no event.
    fn is_silent<L: Ledger>(&self, minute: u32, sums: &WindowSums, steps: &mut Steps<L>) -> bool
        ensures value { result ≡ (den_before self.now sums.now minute == 0) }
        ensures steps { steps.new ≤ steps.old + 600 }
    {
        let from = minute.saturating_sub(self.rule.lookback());
        sums.is_empty(from, minute, steps)
    }

    /// The condition of a minute, which is known afterwards. The cursor stands at an earlier minute
    /// that wasn't known, if there was one, and no step is taken where this one was known.
    fn evaluate<L: Ledger>(
        &mut self,
        minute: u32,
        cursor: &mut Option<Cursor>,
        sums: &WindowSums,
        steps: &mut Steps<L>,
    ) -> bool
        requires minute { IsMinute self.old minute }
        requires agrees { Agrees self.old sums.now }
        requires behind { IfSome cursor.old
            (IsBehind self.old.rule (width_of sums.now.method) (leaf_at sums.now) minute) }
        ensures value { result ≡ condition_on self.old sums.now minute }
        ensures learnt { HasLearnt self.old self.new minute result }
        ensures behind { IfSome cursor.new
            (IsBehind self.old.rule (width_of sums.now.method) (leaf_at sums.now) (minute + 1)) }
        ensures steps { steps.new ≤ steps.old
            + 2400 * (if is_none (knowledge self.old minute) then 1 else 0) }
    {
        if let Some(holds) = self.known_at(minute) {
            return holds;
        }
        self.discover(minute, cursor, sums, steps)
    }

    /// The condition of a minute, which is known afterwards, by windows that were summed up there,
    /// if there are some of the rule. Else what `discover` sums up is kept beside those. No step is
    /// taken where the condition was known.
    fn evaluate_with<L: Ledger>(
        &mut self,
        minute: u32,
        cursor: &mut Option<Cursor>,
        sums: &WindowSums,
        summed: &mut SummedWindows,
        steps: &mut Steps<L>,
    ) -> bool
        requires minute { IsMinute self.old minute }
        requires agrees { Agrees self.old sums.now }
        requires behind { IfSome cursor.old
            (IsBehind self.old.rule (width_of sums.now.method) (leaf_at sums.now) minute) }
        requires summed { AreSummedAt (width_of sums.now.method) (leaf_at sums.now) minute
            summed.old }
        ensures value { result ≡ condition_on self.old sums.now minute }
        ensures learnt { HasLearnt self.old self.new minute result }
        ensures summed { AreSummedAt (width_of sums.now.method) (leaf_at sums.now) minute
            summed.new }
        ensures steps { steps.new ≤ steps.old
            + 2400 * (if is_none (knowledge self.old minute) then 1 else 0) }
    {
        if let Some(holds) = self.known_at(minute) {
            return holds;
        }
        if let Some(found) = summed.of_rule(&self.rule) {
            let mut found = *found;
            let holds = self.burns(&mut found, sums, steps);
            self.learn(minute, holds);
            return holds;
        }
        let holds = self.discover(minute, cursor, sums, steps);
        summed.keep(cursor);
        holds
    }

    /// The condition of a minute that isn't known. Not inlined, which doubles the speed over known
    /// minutes. The cursor moves on by two reads for each window and minute, if it is near enough,
    /// and stands at this minute afterwards; a long window's reads come when it is asked for.
    #[inline(never)]
    fn discover<L: Ledger>(
        &mut self,
        minute: u32,
        cursor: &mut Option<Cursor>,
        sums: &WindowSums,
        steps: &mut Steps<L>,
    ) -> bool
        requires minute { IsMinute self.old minute }
        requires behind { IfSome cursor.old
            (IsBehind self.old.rule (width_of sums.now.method) (leaf_at sums.now) minute) }
        ensures value { result ≡ condition_on self.old sums.now minute }
        ensures learnt { HasLearnt self.old self.new minute result }
        ensures stands { IfSome cursor.new
            (IsAt self.old.rule (width_of sums.now.method) (leaf_at sums.now) minute) }
        ensures stays { IsTrue (is_some cursor.new) }
        ensures steps { steps.new ≤ steps.old + 2400 }
        ensures moved { IfSome cursor.old (λ last. minute - last.minute ≤ MOST_MOVES
            → IfSome cursor.new (λ next. steps.new + 2 * lag_of next
            ≤ steps.old + 2 * lag_of last + 8 * (minute - last.minute))) }
    {
        let holds = self.holds_at(minute, cursor, sums, steps);
        self.learn(minute, holds);
        holds
    }

    /// The condition of a minute, by the windows of an earlier one, which move on to it, or by ones
    /// that are summed up from scratch.
    fn holds_at<L: Ledger>(
        &self,
        minute: u32,
        cursor: &mut Option<Cursor>,
        sums: &WindowSums,
        steps: &mut Steps<L>,
    ) -> bool
        requires minute { IsMinute self.now minute }
        requires behind { IfSome cursor.old
            (IsBehind self.now.rule (width_of sums.now.method) (leaf_at sums.now) minute) }
        ensures value { result ≡ condition_on self.now sums.now minute }
        ensures stands { IfSome cursor.new
            (IsAt self.now.rule (width_of sums.now.method) (leaf_at sums.now) minute) }
        ensures stays { IsTrue (is_some cursor.new) }
        ensures steps { steps.new ≤ steps.old + 2400 }
        ensures moved { IfSome cursor.old (λ last. minute - last.minute ≤ MOST_MOVES
            → IfSome cursor.new (λ next. steps.new + 2 * lag_of next
            ≤ steps.old + 2 * lag_of last + 8 * (minute - last.minute))) }
    {
        match cursor {
            Some(last) => {
                self.bring(minute, last, sums, steps);
                self.burns(last, sums, steps)
            }
            None => self.begin(minute, cursor, sums, steps),
        }
    }

    /// The condition of a minute, by windows that are summed up from scratch. Not inlined: a pass
    /// does so once.
    #[inline(never)]
    fn begin<L: Ledger>(
        &self,
        minute: u32,
        cursor: &mut Option<Cursor>,
        sums: &WindowSums,
        steps: &mut Steps<L>,
    ) -> bool
        requires minute { IsMinute self.now minute }
        ensures value { result ≡ condition_on self.now sums.now minute }
        ensures stands { IfSome cursor.new
            (IsAt self.now.rule (width_of sums.now.method) (leaf_at sums.now) minute) }
        ensures stays { IsTrue (is_some cursor.new) }
        ensures steps { steps.new ≤ steps.old + 2400 }
    {
        let mut first = Cursor::new(self.rule, minute, sums, steps);
        let holds = self.burns(&mut first, sums, steps);
        *cursor = Some(first);
        holds
    }

    /// Brings the windows of the rule to a later minute: they move on, or are summed up anew.
    fn bring<L: Ledger>(
        &self,
        minute: u32,
        cursor: &mut Cursor,
        sums: &WindowSums,
        steps: &mut Steps<L>,
    )
        requires behind { IsBehind self.now.rule (width_of sums.now.method) (leaf_at sums.now)
            minute cursor.old }
        ensures value { IsAt self.now.rule (width_of sums.now.method) (leaf_at sums.now) minute
            cursor.new }
        ensures steps { steps.new ≤ steps.old + 1200 }
        ensures moved { minute - cursor.old.minute ≤ MOST_MOVES
            → steps.new + 2 * lag_of cursor.new
            ≤ steps.old + 2 * lag_of cursor.old + 8 * (minute - cursor.old.minute) }
    {
        if minute - cursor.minute <= MOST_MOVES {
            cursor.move_to(minute, sums, steps);
        } else {
            cursor.renew(self.rule, minute, sums, steps);
        }
    }

    /// What the rule says at the minute of a cursor.
    fn burns<L: Ledger>(&self, cursor: &mut Cursor, sums: &WindowSums, steps: &mut Steps<L>) -> bool
        requires minute { IsMinute self.now cursor.old.minute }
        requires stands { IsAt self.now.rule (width_of sums.now.method) (leaf_at sums.now)
            cursor.old.minute cursor.old }
        ensures value { result ≡ condition_on self.now sums.now cursor.old.minute }
        ensures stands { IsAt self.now.rule (width_of sums.now.method) (leaf_at sums.now)
            cursor.old.minute cursor.new }
        ensures steps { steps.new ≤ steps.old + 1200 }
        ensures paid { steps.new + 2 * lag_of cursor.new ≤ steps.old + 2 * lag_of cursor.old }
    {
        cursor.burns(self.target, sums, steps)
    }

    /// Remembers the condition of a minute.
    fn learn(&mut self, minute: u32, holds: bool)
        requires { IsMinute self.old minute }
        ensures { HasLearnt self.old self.new minute holds }
    {
        let slot = (minute - self.origin) as usize;
        keep(&mut self.bytes, slot, holds);
    }

    fn wait(&self) -> u32
        ensures value { result ≡ wait_of self.now.rule }
    {
        self.rule.wait()
    }

    /// Where a pass over a range begins.
    fn start(&self, from: u32) -> u32
        ensures value { result ≡ start_of self.now from }
        ensures origin { self.now.origin ≤ result }
    {
        from.saturating_sub(self.wait()).max(self.origin)
    }

    fn no_spans(&self) -> Spans
        ensures { result.items ≡ [] }
    {
        Vec::new(*self.bytes.allocator())
    }
}

/// The condition has held for long enough, at a minute of the range.
fn is_active(wait: u32, run: u32, from: u32, minute: u32) -> bool
    ensures { result ≡ (nat_lt wait run && nat_le from minute) }
{
    wait < run && from <= minute
}

/// The first minute of a range at which the condition will have held for long enough, if it holds
/// from a minute on.
fn first_active(wait: u32, run: u32, from: u32, minute: u32) -> u32
    ensures { result ≡ max from (min (minute + (wait - run)) 4294967295) }
{
    from.max(minute.saturating_add(wait.saturating_sub(run)))
}

/// The condition holds at a minute, and held for long enough before it.
fn has_held(wait: u32, run: u32, holds: bool) -> bool
    ensures { result ≡ (holds && nat_le wait run) }
{
    holds && wait <= run
}

/// For how many minutes without a break the condition has held.
fn next_run(run: u32, holds: bool) -> u32
    requires { run + 1 < 2 ^ 32 }
    ensures { result ≡ (if holds then run + 1 else 0) }
{
    if holds { run + 1 } else { 0 }
}

/// The same over some minutes at all of which it holds, or doesn't.
fn run_over(run: u32, minutes: u32, holds: bool) -> u32
    requires { run + minutes < 2 ^ 32 }
    ensures { result ≡ (if holds then run + minutes else 0) }
{
    if holds { run + minutes } else { 0 }
}
