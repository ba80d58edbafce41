//! Where the content of a request stands.

use exact_fraction::ZoneName;

/// A request of an export, by the place of what it sends.
#[derive(Clone, Copy)]
pub(crate) enum Step {
    Upgrade,
    /// The zone of that name.
    Zone(ZoneName),
    /// The object at that place of the catalog, from 0.
    Object(usize),
    /// The rows from that place on, a thousand at most.
    Rows(u32),
    /// The exclusion at that place.
    Put(u32),
    /// Its lifting.
    Lift(u32),
}
