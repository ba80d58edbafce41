//! What becomes of a command.

use record_form::{Outcome, Refusal};

/// What becomes of a command over a history.
#[derive(Drop)]
pub enum Judgement {
    /// It becomes an entry.
    Accepted,
    /// All stays as it is, and this is answered.
    Same(Outcome),
    /// It breaks this rule first.
    Refused(Refusal),
}
