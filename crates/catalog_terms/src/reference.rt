//! References of objects to each other.

use exact_fraction::Label;
use object_terms::Kind;

/// A reference of an object to another.
#[derive(Clone, Copy, Debug)]
pub struct Reference {
    pub from_kind: Kind,
    pub from_name: Label,
    pub kind: Kind,
    pub name: Label,
}
