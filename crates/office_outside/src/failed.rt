//! The one error of a call on the outside.

/// A call on the outside failed. The object's count of faults rose in that call.
#[derive(Clone, Copy, Debug, Drop, PartialEq, Eq)]
pub struct Failed;
