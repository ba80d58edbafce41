//! What a notice says.
use burn_core::State;
use exact_fraction::Label;

/// An alert has come to a new state.
#[derive(Clone, Copy, PartialEq, Eq)]
pub struct Notice {
    /// Its place among all notices, from 1.
    pub number: u32,
    /// The moment of the tick that gave it, in minutes since 1970-01-01T00:00Z.
    pub at: u32,
    /// The objective whose alert it is, and which of its targets, from 0.
    pub slo: Label,
    pub objective: u32,
    /// The alert policy of that objective.
    pub policy: Label,
    pub state: State,
}
