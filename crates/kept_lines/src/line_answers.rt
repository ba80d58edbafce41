//! How a watched alert stands, and when it is active, by its line.
ghost use Rattle.std.specs.Prelude.{◌≡◌, ◌≢◌, ◌+◌, ◌<◌, ◌≤◌, ℕ, Bool, IfOk, List, OnOk, Some};
ghost use Rattle.std.specs.Prelude.{length, slice_get, take, true};
ghost use Rattle.std.specs.List.{AllByRecursion, Contains};
ghost use Rattle.slo_limits.specs.declared.TheConstants.{RANGE_MINUTES};
ghost use Rattle.burn_core.specs.Timeline.{AreSpansOf, state_of};
ghost use Rattle.window_sums.specs.Slices.{CountedDays, leaf_at, width_of};
ghost use Rattle.alert_line.specs.Learnt.{IsLearnt, start_of};
ghost use Rattle.alert_line.specs.Line.{Agrees, IsMinute, SameAlert, active_on, den_before};
ghost use Rattle.alert_line.specs.Line.{knowledge};
ghost use Rattle.alert_line.specs.Summed.{AreSummedAt};
ghost use Rattle.object_terms.specs.declared.Object.{Object};
ghost use Rattle.office_history.specs.Alerts.{Watch, is_watch_active, state_at, watch_of};
ghost use Rattle.office_history.specs.Counts.{Samples};
ghost use Rattle.office_derived.specs.Derived.{IsSound};
ghost use Rattle.line_forgetting.specs.Right.{IsRight};
ghost use Rattle.kept_lines.specs.Carried.{IsHint};
ghost use Rattle.kept_lines.specs.Known.{AllKnow, IsLineOf, LineKnows};
ghost use Rattle.kept_lines.specs.Lines.{HasLines, KeepsLines, bounds_of, watches_of};
ghost use Rattle.kept_lines.specs.Sums.{AreSums, samples_of};
ghost use Rattle.kept_lines.specs.Watches.{IsWatched};
ghost use Rattle.kept_lines.specs.declared.kept.WatchLine.{WatchLine};

use crate::binding_walk::Hint;
use crate::kept::{KeptLines, is_at, is_bound_at, place_of};
use crate::sums::{objective_sums, objective_sums_at};
use crate::watch::Watch;
use alert_line::{AlertLine, Spans, SummedWindows};
use burn_core::State;
use catalog_terms::Binding;
use office_derived::Derived;
use std::alloc::AllocError;
use std::marker::Brand;
use std::sync::ledger::{Blank, Ledger};
use sum_pages::Steps;
use window_sums::WindowSums;

/// How the alert of a line stands, by windows that were summed up before where there are some. No
/// one counts the steps.
fn state_of_line<L: Ledger>(
    line: &mut AlertLine,
    sums: &WindowSums,
    minute: u32,
    windows: &mut SummedWindows,
    blank: Blank,
) -> State
    requires minute { IsMinute line.old minute }
    requires agrees { Agrees line.old sums.now }
    requires windows { AreSummedAt (width_of sums.now.method) (leaf_at sums.now) minute
        windows.old }
    requires blank { (blank.name ≡ L.name) × (blank.parts ≡ L.parts) × (0 < L.parts) }
    ensures value { result ≡ state_of (active_on line.old sums.now minute)
        (den_before line.old sums.now minute) }
    ensures alert { SameAlert line.old line.new }
    ensures agrees { Agrees line.new sums.now }
    ensures kept { (u : ℕ) (holds : Bool) → knowledge line.old u ≡ Some holds
        → knowledge line.new u ≡ Some holds }
    ensures windows { AreSummedAt (width_of sums.now.method) (leaf_at sums.now) minute
        windows.new }
{
    let mut steps = Steps::<L>::new(blank);
    line.state_with(minute, sums, windows, &mut steps)
}

/// The stretches of [from, to) in which a line's alert is active. No one counts the steps.
fn spans_of_line<L: Ledger>(
    line: &mut AlertLine,
    sums: &WindowSums,
    from: u32,
    to: u32,
    blank: Blank,
) -> Result<Spans, AllocError>
    requires order { from ≤ to }
    requires begin { line.old.origin ≤ from }
    requires end { to ≤ line.old.origin + RANGE_MINUTES }
    requires agrees { Agrees line.old sums.now }
    requires blank { (blank.name ≡ L.name) × (blank.parts ≡ L.parts) × (0 < L.parts) }
    ensures value { IfOk result (λ spans. AreSpansOf
        (λ minute. active_on line.old sums.now minute ≡ true) from to spans.items) }
    ensures alert { SameAlert line.old line.new }
    ensures agrees { Agrees line.new sums.now }
    ensures kept { (u : ℕ) (holds : Bool) → knowledge line.old u ≡ Some holds
        → knowledge line.new u ≡ Some holds }
    ensures learnt { OnOk result (IsLearnt line.old line.new sums.now (start_of line.old from) to) }
{
    let mut steps = Steps::<L>::new(blank);
    line.intervals(from, to, sums, &mut steps)
}

impl KeptLines {
    /// The place of the line of an alert that has one.
    fn place(&self, watch: &Watch) -> usize
        requires { Contains (watches_of self.now.kept) watch.now }
        ensures there { slice_get (watches_of self.now.kept) result ≡ Some watch.now }
        ensures first { AllByRecursion (λ (kept : WatchLine). kept.watch ≢ watch.now)
            (take result self.now.kept) }
    {
        match place_of(&self.lines, watch) {
            Some(place) => place,
            None => unreachable!(),
        }
    }

    /// The place of the line of an alert that has one: this one if it is there, else the first.
    fn place_near(&self, watch: &Watch, hint: usize) -> usize
        requires { Contains (watches_of self.now.kept) watch.now }
        ensures { slice_get (watches_of self.now.kept) result ≡ Some watch.now }
    {
        if is_at(&self.lines, hint, watch) {
            return hint;
        }
        self.place(watch)
    }

    /// The line of a watched alert. It agrees with the sums of its objective.
    pub fn line_of(&self, derived: &Derived, watch: &Watch) -> &AlertLine
        requires lines { HasLines derived.now self.now.kept }
        requires watched { IsWatched derived.now.catalog watch.now }
        ensures line { IsLineOf self.now.kept watch.now result.now }
        ensures right { IsRight derived.now.origin (samples_of derived.now.book) watch.now
            result.now }
        ensures agrees { (sums : CountedDays)
            → AreSums (samples_of derived.now.book) watch.now.measure sums
            → Agrees result.now sums }
    {
        &self.lines[self.place(watch)].line
    }

    /// How a watched alert stands at a minute of the office's range. Afterwards its line knows the
    /// minutes that decide about it, and no line forgets a minute.
    pub fn state_at(&mut self, derived: &Derived, watch: &Watch, minute: u32) -> State
        requires sound { IsSound derived.now }
        requires lines { HasLines derived.now self.old.kept }
        requires watched { IsWatched derived.now.catalog watch.now }
        requires begun { derived.now.origin ≤ minute }
        requires in_range { minute < derived.now.origin + RANGE_MINUTES }
        ensures value { result ≡ state_at derived.now.origin (samples_of derived.now.book)
            watch.now minute }
        ensures lines { HasLines derived.now self.new.kept }
        ensures watches { watches_of self.new.kept ≡ watches_of self.old.kept }
        ensures know { AllKnow self.old.kept self.new.kept }
        ensures spare { self.new.spare ≡ self.old.spare }
    {
        let mut hint = Hint::new();
        let place = self.place(watch);
        self.state_in(derived, place, minute, &mut hint)
    }

    /// Whether the line at a place remembers a binding.
    pub(crate) fn remembers(&self, place: usize, binding: &Binding) -> bool
        ensures { result ≡ true
            → slice_get (bounds_of self.now.kept) place ≡ Some (Some binding.now) }
    {
        is_bound_at(&self.lines, place, binding)
    }

    /// From now on the line at a place remembers a binding.
    fn remember(&mut self, place: usize, binding: &Binding)
        requires within { place < length self.old.kept }
        ensures lines { (begin : ℕ) (members : List Object) (s : Samples) (w : Watch)
            → KeepsLines begin members s self.old.kept
            → slice_get (watches_of self.old.kept) place ≡ Some w
            → watch_of members binding.now ≡ Some w → KeepsLines begin members s self.new.kept }
        ensures watches { watches_of self.new.kept ≡ watches_of self.old.kept }
        ensures know { AllKnow self.old.kept self.new.kept }
        ensures spare { self.new.spare ≡ self.old.spare }
    {
        self.lines[place].bound = Some(*binding);
    }

    /// How the alert of a binding stands that was looked up. Its line, which is looked for where
    /// the hint says, remembers the binding from now on.
    pub(crate) fn state_anew(
        &mut self,
        derived: &Derived,
        binding: &Binding,
        watch: &Watch,
        minute: u32,
        hint: &mut Hint,
    ) -> State
        requires sound { IsSound derived.now }
        requires lines { HasLines derived.now self.old.kept }
        requires watched { IsWatched derived.now.catalog watch.now }
        requires binding { watch_of derived.now.catalog binding.now ≡ Some watch.now }
        requires begun { derived.now.origin ≤ minute }
        requires in_range { minute < derived.now.origin + RANGE_MINUTES }
        requires hint { IsHint (samples_of derived.now.book) minute hint.old }
        ensures hint { IsHint (samples_of derived.now.book) minute hint.new }
        ensures value { result ≡ state_at derived.now.origin (samples_of derived.now.book)
            watch.now minute }
        ensures lines { HasLines derived.now self.new.kept }
        ensures watches { watches_of self.new.kept ≡ watches_of self.old.kept }
        ensures know { AllKnow self.old.kept self.new.kept }
        ensures spare { self.new.spare ≡ self.old.spare }
    {
        let place = self.place_near(watch, hint.line);
        self.remember(place, binding);
        self.state_in(derived, place, minute, hint)
    }

    /// How the alert of the line at a place stands, and where those of the next one are looked for.
    /// Sums and lines stand in the order of their bindings, mostly, so they are looked for where
    /// the ones before suggest. Windows are summed up only where none of the rule are carried over
    /// the same counts.
    pub(crate) fn state_in(
        &mut self,
        derived: &Derived,
        place: usize,
        minute: u32,
        hint: &mut Hint,
    ) -> State
        requires sound { IsSound derived.now }
        requires lines { HasLines derived.now self.old.kept }
        requires there { (w : Watch) × (slice_get (watches_of self.old.kept) place ≡ Some w)
            × IsWatched derived.now.catalog w }
        requires begun { derived.now.origin ≤ minute }
        requires in_range { minute < derived.now.origin + RANGE_MINUTES }
        requires hint { IsHint (samples_of derived.now.book) minute hint.old }
        ensures hint { IsHint (samples_of derived.now.book) minute hint.new }
        ensures value { (w : Watch) → slice_get (watches_of self.old.kept) place ≡ Some w
            → result ≡ state_at derived.now.origin (samples_of derived.now.book) w minute }
        ensures lines { HasLines derived.now self.new.kept }
        ensures watches { watches_of self.new.kept ≡ watches_of self.old.kept }
        ensures know { AllKnow self.old.kept self.new.kept }
        ensures spare { self.new.spare ≡ self.old.spare }
    {
        let measure = self.lines[place].watch.measure();
        let sums_place = derived.sums.place_near(measure, hint.sums);
        let sums = objective_sums_at(derived, measure, sums_place);
        hint.sums = sums_place;
        hint.line = place.saturating_add(1);
        hint.carried.go_on_to(&derived.book, measure);
        let line = &mut self.lines[place].line;
        let windows = &mut hint.carried.windows;
        state_of_line::<Brand>(line, sums, minute, windows, Blank::new(1))
    }

    /// The stretches of [from, to) in which a watched alert is active, of minutes of the office's
    /// range. Afterwards its line knows these and the minutes that decide about them, and no line
    /// forgets a minute.
    ///
    /// # Errors
    ///
    /// Memory ran out.
    pub fn intervals(
        &mut self,
        derived: &Derived,
        watch: &Watch,
        from: u32,
        to: u32,
    ) -> Result<Spans, AllocError>
        requires sound { IsSound derived.now }
        requires lines { HasLines derived.now self.old.kept }
        requires watched { IsWatched derived.now.catalog watch.now }
        requires order { from ≤ to }
        requires begin { derived.now.origin ≤ from }
        requires end { to ≤ derived.now.origin + RANGE_MINUTES }
        ensures value { IfOk result (λ spans. AreSpansOf (λ minute. is_watch_active
            derived.now.origin (samples_of derived.now.book) watch.now minute ≡ true) from to
            spans.items) }
        ensures lines { HasLines derived.now self.new.kept }
        ensures watches { watches_of self.new.kept ≡ watches_of self.old.kept }
        ensures know { AllKnow self.old.kept self.new.kept }
        ensures learnt { OnOk result (LineKnows self.new.kept watch.now from to) }
        ensures spare { self.new.spare ≡ self.old.spare }
    {
        let sums = objective_sums(derived, watch.measure());
        let place = self.place(watch);
        let line = &mut self.lines[place].line;
        spans_of_line::<Brand>(line, sums, from, to, Blank::new(1))
    }
}
