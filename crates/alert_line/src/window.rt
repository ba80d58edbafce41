//! One running window.
ghost use Rattle.std.specs.Prelude.{◌≡◌, ◌+◌, ◌-◌, ◌*◌, ◌^◌, ◌<◌, ◌≤◌};
ghost use Rattle.slo_limits.specs.declared.TheConstants.{MAX_LOOKBACK};
ghost use Rattle.slo_terms.specs.Sums.{leaves_over, slice_from, slices_until};
ghost use Rattle.window_sums.specs.Slices.{leaf_at, width_of};
ghost use Rattle.alert_line.specs.Cursor.{IsAdvance, IsOver};

use exact_fraction::Leaf;
use std::sync::ledger::Ledger;
use sum_pages::Steps;
use window_sums::WindowSums;

/// The leaf of a slice without data.
pub(crate) const NO_LEAF: Leaf = Leaf { num: 0, den: 0 };

/// One minute further: the minute before it, how wide slices are, where windows end afterwards, and
/// the leaf of the slice that they gain, if they gain one.
#[derive(Clone, Copy)]
pub(crate) struct Advance {
    pub(crate) minute: u32,
    pub(crate) width: u32,
    pub(crate) end: u32,
    pub(crate) leaf: Leaf,
}

impl Advance {
    /// From a minute to the next. All windows gain the same slice, so it is read once for them.
    pub(crate) fn new<L: Ledger>(minute: u32, sums: &WindowSums, steps: &mut Steps<L>) -> Advance
        requires { minute + 1 < 2 ^ 32 }
        ensures minute { result.minute ≡ minute }
        ensures value { IsAdvance (width_of sums.now.method) (leaf_at sums.now) result }
        ensures steps { steps.new ≤ steps.old + 1 }
    {
        let width = sums.width();
        let last = slices_until(minute, width);
        let end = slices_until(minute + 1, width);
        let leaf = gained_leaf(last, end, sums, steps);
        Advance {
            minute,
            width,
            end,
            leaf,
        }
    }
}

/// The leaf of the slice that windows gain, if they end later than before.
fn gained_leaf<L: Ledger>(last: u32, end: u32, sums: &WindowSums, steps: &mut Steps<L>) -> Leaf
    ensures value { last < end → result ≡ leaf_at sums.now last }
    ensures steps { steps.new ≤ steps.old + 1 }
{
    if last < end {
        return sums.slice(last, steps);
    }
    NO_LEAF
}

/// The first slice that begins at a minute or after it. No division where events are counted.
fn slice_from(minute: u32, width: u32) -> u32
    requires { 0 < width }
    ensures { result ≡ slice_from width minute }
{
    if width == 1 {
        return minute;
    }
    minute.div_ceil(width)
}

/// How many slices end at a minute or before it. No division where events are counted.
fn slices_until(minute: u32, width: u32) -> u32
    requires { 0 < width }
    ensures { result ≡ slices_until width minute }
{
    if width == 1 {
        return minute;
    }
    minute / width
}

/// The slices from `first` up to `end`, and the sum of their leaves.
#[derive(Clone, Copy)]
pub(crate) struct Window {
    pub(crate) first: u32,
    pub(crate) end: u32,
    pub(crate) sum: Leaf,
}

impl Window {
    /// The window of `length` minutes before a minute, summed up from scratch.
    pub(crate) fn new<L: Ledger>(
        length: u32,
        minute: u32,
        sums: &WindowSums,
        steps: &mut Steps<L>,
    ) -> Window
        requires { length ≤ MAX_LOOKBACK }
        ensures value { IsOver (width_of sums.now.method) (leaf_at sums.now) length minute result }
        ensures steps { steps.new ≤ steps.old + 600 }
    {
        let from = minute.saturating_sub(length);
        let sum = sums.sum(from, minute, steps);
        let width = sums.width();
        Window {
            first: slice_from(from, width),
            end: slices_until(minute, width),
            sum,
        }
    }

    /// Moves on to the window of the next minute, by at most one slice more and one less. Inlined:
    /// a call would be a tenth of a timeline's time.
    #[inline(always)]
    pub(crate) fn next<L: Ledger>(
        &mut self,
        length: u32,
        advance: &Advance,
        sums: &WindowSums,
        steps: &mut Steps<L>,
    )
        requires advance { IsAdvance (width_of sums.now.method) (leaf_at sums.now) advance.now }
        requires value { IsOver (width_of sums.now.method) (leaf_at sums.now) length
            advance.now.minute self.old }
        ensures value { IsOver (width_of sums.now.method) (leaf_at sums.now) length
            (advance.now.minute + 1) self.new }
        ensures steps { steps.new ≤ steps.old + 1 }
    {
        let from = (advance.minute + 1).saturating_sub(length);
        let first = slice_from(from, advance.width);
        let end = advance.end;
        let sum = self.grown(end, advance.leaf, sums);
        sums.sound();
        let grown = Window {
            first: self.first,
            end,
            sum,
        };
        let sum = grown.shrunk(first, sums, steps);
        *self = Window { first, end, sum };
    }

    /// The sum over the slices up to `to`, which is at most one slice more: that one has the leaf.
    fn grown(&self, to: u32, leaf: Leaf, sums: &WindowSums) -> Leaf
        requires value { self.now.sum
            ≡ leaves_over (leaf_at sums.now) self.now.first (self.now.end - self.now.first) }
        requires from { self.now.end ≤ to }
        requires one { to ≤ self.now.end + 1 }
        requires leaf { self.now.end < to → leaf ≡ leaf_at sums.now self.now.end }
        ensures { result ≡ leaves_over (leaf_at sums.now) self.now.first (to - self.now.first) }
    {
        if self.end < to && self.first <= self.end {
            sums.sound();
            Leaf {
                num: self.sum.num + leaf.num,
                den: self.sum.den + leaf.den,
            }
        } else {
            self.sum
        }
    }

    /// The sum over the slices from `to` on, which is at most one slice less.
    fn shrunk<L: Ledger>(&self, to: u32, sums: &WindowSums, steps: &mut Steps<L>) -> Leaf
        requires value { self.now.sum
            ≡ leaves_over (leaf_at sums.now) self.now.first (self.now.end - self.now.first) }
        requires from { self.now.first ≤ to }
        requires one { to ≤ self.now.first + 1 }
        ensures value { result ≡ leaves_over (leaf_at sums.now) to (self.now.end - to) }
        ensures steps { steps.new ≤ steps.old + 1 }
    {
        if self.first < to {
            if self.first < self.end {
                let leaf = sums.slice(self.first, steps);
                Leaf {
                    num: self.sum.num - leaf.num,
                    den: self.sum.den - leaf.den,
                }
            } else {
                self.sum
            }
        } else {
            self.sum
        }
    }
}
