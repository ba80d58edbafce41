//! When an alert fires, and how it stands (Site Reliability Workbook, 'Alerting on SLOs').
ghost use Rattle.std.specs.Prelude.{◌≡◌, false, true};
ghost use Rattle.burn_core.specs.Alert.{flag_of, lookback_of, page_pairs, reach_of, state_word};
ghost use Rattle.burn_core.specs.Alert.{ticket_pairs, wait_of};

use exact_fraction::{Decimal, Op};

/// By which rule an alert's condition holds at a minute. Lengths are in minutes.
#[derive(Clone, Copy, Debug, PartialEq, Eq)]
pub enum AlertRule {
    /// A condition of kind `burnrate` (OpenSLO v1): the burn rate over the last `lookback` minutes
    /// is there and stands in `op` to `threshold`. It must hold for `after` minutes (`alertAfter`).
    Single {
        op: Op,
        threshold: Decimal,
        lookback: u32,
        after: u32,
    },
    /// The built-in policy `workbook-page`: a pair of `page_pairs` burns.
    Page,
    /// The built-in policy `workbook-ticket`: a pair of `ticket_pairs` burns.
    Ticket,
}

/// A long and a short window, in minutes, over which the burn rate must be above one number.
/// The short one lets the alert end soon after the errors do.
#[derive(Clone, Copy, Debug, PartialEq, Eq)]
pub struct WindowPair {
    pub long: u32,
    pub short: u32,
    pub above: Decimal,
}

/// 2% of the error budget of 30 days spent in one hour, or 5% in six hours.
pub fn page_pairs() -> [WindowPair; 2]
    ensures { result ≡ page_pairs }
{
    [
        WindowPair {
            long: 60,
            short: 5,
            above: Decimal::of_billionths(14_400_000_000),
        },
        WindowPair {
            long: 360,
            short: 30,
            above: Decimal::of_billionths(6_000_000_000),
        },
    ]
}

/// 10% of the error budget of 30 days spent in three days.
pub fn ticket_pairs() -> [WindowPair; 1]
    ensures { result ≡ ticket_pairs }
{
    [WindowPair {
        long: 4_320,
        short: 360,
        above: Decimal::of_billionths(1_000_000_000),
    }]
}

impl AlertRule {
    /// For how many minutes the condition must have held before the alert is active.
    pub fn wait(&self) -> u32
        ensures { result ≡ wait_of self.now }
    {
        match *self {
            AlertRule::Single { after, .. } => after,
            AlertRule::Page | AlertRule::Ticket => 0,
        }
    }

    /// The minutes in which an event must be counted, else there is no data: the lookback, of a
    /// built-in rule the first pair's long window.
    pub fn lookback(&self) -> u32
        ensures { result ≡ lookback_of self.now }
    {
        match *self {
            AlertRule::Single { lookback, .. } => lookback,
            AlertRule::Page => 60,
            AlertRule::Ticket => 4_320,
        }
    }

    /// How many minutes before a minute decide about its condition: the longest window.
    pub fn reach(&self) -> u32
        ensures { result ≡ reach_of self.now }
    {
        match *self {
            AlertRule::Single { lookback, .. } => lookback,
            AlertRule::Page => 360,
            AlertRule::Ticket => 4_320,
        }
    }
}

/// How an alert stands at a minute.
#[derive(Clone, Copy, Debug, PartialEq, Eq)]
pub enum State {
    /// Not active, and an event was counted in the lookback.
    Quiet,
    /// Not active, and no event was counted in the lookback.
    NoData,
    /// Active: the condition has held for long enough.
    Breaching,
}

impl State {
    /// The word of a state in answers and reports.
    pub fn word(self) -> &'static str
        ensures { result.now ≡ state_word self }
    {
        match self {
            State::Quiet => "quiet",
            State::NoData => "no_data",
            State::Breaching => "breaching",
        }
    }
}

/// Which changes of state an alert policy gives notice of (OpenSLO v1: `alertWhenBreaching`,
/// `alertWhenResolved`, `alertWhenNoData`).
#[derive(Clone, Copy, Debug, PartialEq, Eq)]
pub struct Flags {
    pub breaching: bool,
    pub resolved: bool,
    pub no_data: bool,
}

impl Flags {
    /// The flags of the built-in policies.
    pub fn built_in() -> Flags
        ensures { result ≡ record { breaching = true; resolved = true; no_data = false } }
    {
        Flags {
            breaching: true,
            resolved: true,
            no_data: false,
        }
    }

    /// Whether there is to be a notice where an alert's state becomes this one.
    pub fn of_state(&self, state: State) -> bool
        ensures { result ≡ flag_of self.now state }
    {
        match state {
            State::Quiet => self.resolved,
            State::NoData => self.no_data,
            State::Breaching => self.breaching,
        }
    }
}
