//! Bindings: the alerts that are kept.

use exact_fraction::Label;

/// An alert that is kept: of an objective of an SLO, by a policy of the SLO.
#[derive(Clone, Copy, Debug)]
pub struct Binding {
    pub slo: Label,
    /// The objective's number in the SLO, from 0.
    pub objective: u32,
    pub policy: Label,
}
