//! Questions to an office.

use crate::command::Command;
use exact_fraction::Label;
use object_terms::Kind;
use slo_duration::Duration;

/// What is asked. Minutes are counted since 1970-01-01T00:00Z, objectives from 0.
#[derive(Clone, Copy)]
pub enum Query {
    /// The kinds and names of all objects.
    Objects,
    /// The canonical writing of an object.
    Object {
        kind: Kind,
        name: Label,
    },
    /// The error budgets of an SLO's objectives, at a minute or at the moment.
    Budgets {
        slo: Label,
        at: Option<u32>,
    },
    /// The burn rate over the lookback that ends at a minute or at the moment.
    Burn {
        slo: Label,
        objective: u32,
        lookback: Duration,
        at: Option<u32>,
    },
    /// The stretches of [from, to) in which a binding's alert is active.
    Timeline {
        slo: Label,
        objective: u32,
        policy: Label,
        from: u32,
        to: u32,
    },
    /// The notices that nobody has taken.
    Notices,
    /// The feed of the entries from a position on.
    Entries {
        from: u32,
    },
    /// The current row of an SLI, a source and a minute.
    Row {
        sli: Label,
        source: Label,
        minute: u32,
    },
    /// All exclusions, lifted ones too.
    Exclusions,
    /// The zones that were put.
    Zones,
    /// How full the office is.
    Status,
    /// The sums of an objective over stretches of `step` minutes, one behind another from `from`
    /// on, the last one cut at `to`.
    Sums {
        slo: Label,
        objective: u32,
        from: u32,
        to: u32,
        step: u32,
    },
    /// The windows of an SLO's calendar that begin in [from, to), with their budgets.
    Windows {
        slo: Label,
        from: u32,
        to: u32,
    },
}

/// What one turn of the desk performs.
#[derive(Drop)]
pub enum Request {
    Change(Command),
    Ask(Query),
}
