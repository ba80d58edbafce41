//! What an entry of the history does.

use crate::listed::Listed;
use exact_fraction::{Bytes, Label, ZoneName};
use object_terms::Kind;
use sample_book::{Exclusion, Row};

/// Samples in the order in which they were sent.
pub type Rows = Listed<Row>;

/// A change of the office.
#[derive(Drop)]
pub enum Command {
    /// Defines the objects of a text of OpenSLO documents.
    Define(Bytes),
    /// Removes the object of that kind and name.
    Remove(Kind, Label),
    /// Keeps the bytes of a time zone under a name.
    PutZone(ZoneName, Bytes),
    /// Takes samples, all of them or none.
    Samples(Rows),
    /// Excludes minutes of an SLO.
    Exclude(Exclusion),
    /// Lifts the exclusion of that id.
    Lift(Label),
    /// Tells each binding's change of state since the tick before.
    Tick,
    /// Takes the notice of that number.
    Take(u32),
    /// Lets the office take withdrawn rows from now on, and more of all rows.
    Upgrade,
}
