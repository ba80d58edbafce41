//! The windows of a rule, which move on minute by minute.
ghost use Rattle.std.specs.Prelude.{◌≡◌, ◌+◌, ◌-◌, ◌*◌, ◌^◌, ◌<◌, ◌≤◌, ◌&&◌};
ghost use Rattle.slo_limits.specs.declared.TheConstants.{MAX_LOOKBACK, MAX_THRESHOLD, WHOLE};
ghost use Rattle.slo_terms.specs.Budget.{above_of};
ghost use Rattle.exact_fraction.specs.declared.op.Op.TheVariants.{Gt};
ghost use Rattle.burn_core.specs.Alert.{IsRule};
ghost use Rattle.burn_core.specs.Condition.{burns_by, both_burn};
ghost use Rattle.window_sums.specs.Slices.{leaf_at, width_of};
ghost use Rattle.alert_line.specs.Cursor.{AreOver, IsAdvance, IsAt, StandAt, lag_of, late_in};
ghost use Rattle.alert_line.specs.Cursor.{rule_of};

use crate::late::LateWindow;
use crate::window::{Advance, Window};
use burn_core::{AlertRule, WindowPair, above, page_pairs, ticket_pairs};
use exact_fraction::{Decimal, Op};
use std::sync::ledger::Ledger;
use sum_pages::Steps;
use window_sums::WindowSums;

/// A pair and its two windows. Where the short one doesn't burn nothing depends on the long one,
/// which stays behind till then.
#[derive(Clone, Copy)]
pub(crate) struct PairWindows {
    pub(crate) pair: WindowPair,
    pub(crate) long: LateWindow,
    pub(crate) short: Window,
}

impl PairWindows {
    fn new<L: Ledger>(
        pair: WindowPair,
        minute: u32,
        sums: &WindowSums,
        steps: &mut Steps<L>,
    ) -> PairWindows
        requires short { pair.short ≤ MAX_LOOKBACK }
        ensures value { AreOver (width_of sums.now.method) (leaf_at sums.now) pair minute result }
        ensures steps { steps.new ≤ steps.old + 600 }
    {
        let long = LateWindow::new(sums);
        let short = Window::new(pair.short, minute, sums, steps);
        PairWindows { pair, long, short }
    }

    /// Moves the short window on to the next minute. Inlined, since it moves at each minute of a
    /// timeline.
    #[inline(always)]
    fn next<L: Ledger>(&mut self, advance: &Advance, sums: &WindowSums, steps: &mut Steps<L>)
        requires advance { IsAdvance (width_of sums.now.method) (leaf_at sums.now) advance.now }
        requires value { AreOver (width_of sums.now.method) (leaf_at sums.now) self.old.pair
            advance.now.minute self.old }
        ensures value { AreOver (width_of sums.now.method) (leaf_at sums.now) self.old.pair
            (advance.now.minute + 1) self.new }
        ensures late { self.new.long ≡ self.old.long }
        ensures steps { steps.new ≤ steps.old + 1 }
    {
        self.short.next(self.pair.short, advance, sums, steps);
    }

    /// Both windows burn faster than the pair allows. The long one is asked for where the short one
    /// does, and is brought to the minute then.
    fn both_burn<L: Ledger>(
        &mut self,
        target: Decimal,
        minute: u32,
        sums: &WindowSums,
        steps: &mut Steps<L>,
    ) -> bool
        requires target { target < WHOLE }
        requires few { self.old.pair.above ≤ MAX_THRESHOLD }
        requires long { self.old.pair.long ≤ MAX_LOOKBACK }
        requires value { AreOver (width_of sums.now.method) (leaf_at sums.now) self.old.pair minute
            self.old }
        ensures result { result ≡ both_burn (width_of sums.now.method) (leaf_at sums.now) target
            minute self.old.pair }
        ensures value { AreOver (width_of sums.now.method) (leaf_at sums.now) self.old.pair minute
            self.new }
        ensures steps { steps.new ≤ steps.old + 600 }
        ensures paid { steps.new + 2 * (minute - self.new.long.minute)
            ≤ steps.old + 2 * (minute - self.old.long.minute) }
    {
        let threshold = self.pair.above;
        let burns = above(self.short.sum, target, Op::Gt, threshold);
        if !burns {
            return false;
        }
        self.long.bring(self.pair.long, minute, sums, steps);
        above(self.long.window.sum, target, Op::Gt, threshold)
    }
}

/// The windows of a rule.
#[derive(Clone, Copy)]
pub(crate) enum Windows {
    OfSingle {
        op: Op,
        threshold: Decimal,
        lookback: u32,
        after: u32,
        window: Window,
    },
    OfPage {
        fast: PairWindows,
        slow: PairWindows,
    },
    OfTicket {
        pair: PairWindows,
    },
}

impl Windows {
    fn new<L: Ledger>(
        rule: AlertRule,
        minute: u32,
        sums: &WindowSums,
        steps: &mut Steps<L>,
    ) -> Windows
        requires { IsRule rule }
        ensures rule { rule_of result ≡ rule }
        ensures stand { StandAt (width_of sums.now.method) (leaf_at sums.now) minute result }
        ensures steps { steps.new ≤ steps.old + 1200 }
    {
        match rule {
            AlertRule::Single {
                op,
                threshold,
                lookback,
                after,
            } => {
                let window = Window::new(lookback, minute, sums, steps);
                Windows::OfSingle {
                    op,
                    threshold,
                    lookback,
                    after,
                    window,
                }
            }
            AlertRule::Page => {
                let [fast, slow] = page_pairs();
                let fast = PairWindows::new(fast, minute, sums, steps);
                let slow = PairWindows::new(slow, minute, sums, steps);
                Windows::OfPage { fast, slow }
            }
            AlertRule::Ticket => {
                let [pair] = ticket_pairs();
                let pair = PairWindows::new(pair, minute, sums, steps);
                Windows::OfTicket { pair }
            }
        }
    }

    /// Moves on to the windows of the next minute.
    fn next<L: Ledger>(&mut self, advance: &Advance, sums: &WindowSums, steps: &mut Steps<L>)
        requires advance { IsAdvance (width_of sums.now.method) (leaf_at sums.now) advance.now }
        requires stand { StandAt (width_of sums.now.method) (leaf_at sums.now) advance.now.minute
            self.old }
        ensures rule { rule_of self.new ≡ rule_of self.old }
        ensures stand { StandAt (width_of sums.now.method) (leaf_at sums.now)
            (advance.now.minute + 1) self.new }
        ensures steps { steps.new ≤ steps.old + 4 }
        ensures paid { steps.new + 2 * late_in (advance.now.minute + 1) self.new
            ≤ steps.old + 2 * late_in advance.now.minute self.old + 6 }
    {
        match self {
            Windows::OfSingle {
                lookback,
                window,
                ..
            } => window.next(*lookback, advance, sums, steps),
            Windows::OfPage { fast, slow } => {
                fast.next(advance, sums, steps);
                slow.next(advance, sums, steps);
            }
            Windows::OfTicket { pair } => pair.next(advance, sums, steps),
        }
    }

    /// What the rule says, by the sums of its windows.
    fn burn<L: Ledger>(
        &mut self,
        target: Decimal,
        minute: u32,
        sums: &WindowSums,
        steps: &mut Steps<L>,
    ) -> bool
        requires rule { IsRule (rule_of self.old) }
        requires target { target < WHOLE }
        requires stand { StandAt (width_of sums.now.method) (leaf_at sums.now) minute self.old }
        ensures result { result ≡ burns_by (rule_of self.old) target (width_of sums.now.method)
            (leaf_at sums.now) minute }
        ensures rule { rule_of self.new ≡ rule_of self.old }
        ensures stand { StandAt (width_of sums.now.method) (leaf_at sums.now) minute self.new }
        ensures steps { steps.new ≤ steps.old + 1200 }
        ensures paid { steps.new + 2 * late_in minute self.new
            ≤ steps.old + 2 * late_in minute self.old }
    {
        match self {
            Windows::OfSingle {
                op,
                threshold,
                window,
                ..
            } => above(window.sum, target, *op, *threshold),
            Windows::OfPage { fast, slow } => {
                fast.both_burn(target, minute, sums, steps)
                    || slow.both_burn(target, minute, sums, steps)
            }
            Windows::OfTicket { pair } => pair.both_burn(target, minute, sums, steps),
        }
    }
}

/// The windows of a rule at the minute where they stand.
#[derive(Clone, Copy)]
pub(crate) struct Cursor {
    pub(crate) minute: u32,
    pub(crate) windows: Windows,
}

impl Cursor {
    /// Windows that are summed up from scratch, but for the long ones of pairs.
    pub(crate) fn new<L: Ledger>(
        rule: AlertRule,
        minute: u32,
        sums: &WindowSums,
        steps: &mut Steps<L>,
    ) -> Cursor
        requires { IsRule rule }
        ensures value { IsAt rule (width_of sums.now.method) (leaf_at sums.now) minute result }
        ensures steps { steps.new ≤ steps.old + 1200 }
    {
        let windows = Windows::new(rule, minute, sums, steps);
        Cursor { minute, windows }
    }

    /// The same at another minute. Not inlined: moving on is what is done at most minutes.
    #[inline(never)]
    pub(crate) fn renew<L: Ledger>(
        &mut self,
        rule: AlertRule,
        minute: u32,
        sums: &WindowSums,
        steps: &mut Steps<L>,
    )
        requires { IsRule rule }
        ensures value { IsAt rule (width_of sums.now.method) (leaf_at sums.now) minute self.new }
        ensures steps { steps.new ≤ steps.old + 1200 }
    {
        *self = Cursor::new(rule, minute, sums, steps);
    }

    /// Moves on to the next minute.
    fn next<L: Ledger>(&mut self, sums: &WindowSums, steps: &mut Steps<L>)
        requires minute { self.old.minute + 1 < 2 ^ 32 }
        requires stand { StandAt (width_of sums.now.method) (leaf_at sums.now) self.old.minute
            self.old.windows }
        ensures value { IsAt (rule_of self.old.windows) (width_of sums.now.method)
            (leaf_at sums.now) (self.old.minute + 1) self.new }
        ensures steps { steps.new ≤ steps.old + 8 }
        ensures paid { steps.new + 2 * lag_of self.new ≤ steps.old + 2 * lag_of self.old + 8 }
    {
        let advance = Advance::new(self.minute, sums, steps);
        self.windows.next(&advance, sums, steps);
        self.minute += 1;
    }

    /// Moves on to a later minute, slice by slice.
    pub(crate) fn move_to<L: Ledger>(
        &mut self,
        minute: u32,
        sums: &WindowSums,
        steps: &mut Steps<L>,
    )
        requires order { self.old.minute ≤ minute }
        requires stand { StandAt (width_of sums.now.method) (leaf_at sums.now) self.old.minute
            self.old.windows }
        ensures value { IsAt (rule_of self.old.windows) (width_of sums.now.method)
            (leaf_at sums.now) minute self.new }
        ensures steps { steps.new ≤ steps.old + 8 * (minute - self.old.minute) }
        ensures paid { steps.new + 2 * lag_of self.new
            ≤ steps.old + 2 * lag_of self.old + 8 * (minute - self.old.minute) }
    {
        for _at in self.minute..minute {
            self.next(sums, steps);
        }
    }

    /// What the rule says at the cursor's minute.
    pub(crate) fn burns<L: Ledger>(
        &mut self,
        target: Decimal,
        sums: &WindowSums,
        steps: &mut Steps<L>,
    ) -> bool
        requires rule { IsRule (rule_of self.old.windows) }
        requires target { target < WHOLE }
        requires stand { StandAt (width_of sums.now.method) (leaf_at sums.now) self.old.minute
            self.old.windows }
        ensures result { result ≡ burns_by (rule_of self.old.windows) target
            (width_of sums.now.method) (leaf_at sums.now) self.old.minute }
        ensures value { IsAt (rule_of self.old.windows) (width_of sums.now.method)
            (leaf_at sums.now) self.old.minute self.new }
        ensures steps { steps.new ≤ steps.old + 1200 }
        ensures paid { steps.new + 2 * lag_of self.new ≤ steps.old + 2 * lag_of self.old }
    {
        self.windows.burn(target, self.minute, sums, steps)
    }
}
