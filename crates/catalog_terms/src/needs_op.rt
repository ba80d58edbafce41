//! Objectives over values that lack `op` or `value`.

use exact_fraction::Label;

/// An objective that needs `op` or `value`.
#[derive(Clone, Copy, Debug)]
pub struct NeedsOp {
    pub slo: Label,
    /// Its number in the SLO, from 0.
    pub objective: u32,
}
