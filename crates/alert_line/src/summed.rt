//! Windows that were summed up at one minute, for the lines of other alerts over the same sums.
ghost use Rattle.std.specs.Prelude.{◌≡◌, ℕ, IfSome};
ghost use Rattle.std.specs.Bool.{Decides};
ghost use Rattle.exact_fraction.specs.declared.Leaf.{Leaf};
ghost use Rattle.burn_core.specs.declared.AlertRule.{AlertRule};
ghost use Rattle.alert_line.specs.Cursor.{IsAt, rule_of as rule_of_def};
ghost use Rattle.alert_line.specs.Summed.{AreSummedAt, IsSummedAt};

use crate::cursor::{Cursor, Windows};
use burn_core::AlertRule;

/// The windows of the last two rules, as bindings mostly take turns between two policies.
#[derive(Clone, Copy)]
pub struct SummedWindows {
    pub(crate) first: Option<Cursor>,
    pub(crate) second: Option<Cursor>,
}

impl SummedWindows {
    /// No windows yet.
    pub fn new() -> SummedWindows
        ensures { (width : ℕ) (leaf : ℕ → Leaf) (minute : ℕ)
            → AreSummedAt width leaf minute result }
    {
        SummedWindows {
            first: None,
            second: None,
        }
    }

    /// The windows of a rule, if they are there.
    pub(crate) fn of_rule(&self, rule: &AlertRule) -> Option<&Cursor>
        ensures { (width : ℕ) (leaf : ℕ → Leaf) (minute : ℕ)
            → AreSummedAt width leaf minute self.now
            → IfSome result (λ cursor. IsAt rule.now width leaf minute cursor.now) }
    {
        match if_of(&self.first, rule) {
            Some(cursor) => Some(cursor),
            None => if_of(&self.second, rule),
        }
    }

    /// Keeps the windows of one rule more, in the place of the older ones.
    pub(crate) fn keep(&mut self, cursor: &Option<Cursor>)
        ensures { (rule : AlertRule) (width : ℕ) (leaf : ℕ → Leaf) (minute : ℕ)
            → AreSummedAt width leaf minute self.old
            → IfSome cursor.now (IsAt rule width leaf minute)
            → AreSummedAt width leaf minute self.new }
    {
        self.second = self.first;
        self.first = *cursor;
    }
}

/// The rule of windows.
fn rule_of(windows: &Windows) -> AlertRule
    ensures { result ≡ rule_of_def windows.now }
{
    match *windows {
        Windows::OfSingle {
            op,
            threshold,
            lookback,
            after,
            ..
        } => AlertRule::Single {
            op,
            threshold,
            lookback,
            after,
        },
        Windows::OfPage { .. } => AlertRule::Page,
        Windows::OfTicket { .. } => AlertRule::Ticket,
    }
}

fn is_of(cursor: &Cursor, rule: &AlertRule) -> bool
    ensures { Decides result (rule_of_def cursor.now.windows ≡ rule.now) }
{
    rule_of(&cursor.windows) == *rule
}

/// Windows, if they are there and of a rule.
fn if_of<'a>(cursor: &'a Option<Cursor>, rule: &AlertRule) -> Option<&'a Cursor>
    ensures { (width : ℕ) (leaf : ℕ → Leaf) (minute : ℕ)
        → IfSome cursor.now (IsSummedAt width leaf minute)
        → IfSome result (λ cursor. IsAt rule.now width leaf minute cursor.now) }
{
    match cursor {
        Some(cursor) => {
            if is_of(cursor, rule) {
                Some(cursor)
            } else {
                None
            }
        }
        None => None,
    }
}
