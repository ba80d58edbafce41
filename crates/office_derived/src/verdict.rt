//! What the judging of a command comes to.

use record_form::{Outcome, Refusal};

/// What a command comes to before it is done: with it what its doing takes, or why it isn't done.
#[derive(Drop)]
pub enum Verdict<W> {
    /// It is accepted.
    Ready(W),
    /// It changes nothing, and is answered so.
    Same(Outcome),
    Refused(Refusal),
    NoMemory,
}
