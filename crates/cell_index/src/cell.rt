//! What stands at a place.
use exact_fraction::Label;

/// What a row is about: an indicator, a source and a minute.
#[derive(Clone, Copy, PartialEq, Eq, Hash)]
pub struct Cell {
    pub sli: Label,
    pub source: Label,
    /// Minutes since 1970-01-01T00:00Z.
    pub minute: u32,
}
