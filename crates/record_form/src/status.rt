//! How full an office is.

/// So many there are, of so many that there may be.
#[derive(Clone, Copy, PartialEq, Eq)]
pub struct Used {
    pub count: u64,
    pub limit: u64,
}

/// How full an office is. Minutes are counted since 1970-01-01T00:00Z.
#[derive(Clone, Copy, PartialEq, Eq)]
pub struct OfficeStatus {
    /// Rows that were new or corrected their cell, in the whole history.
    pub accepted: Used,
    /// The moment.
    pub at: u32,
    /// Bindings of the catalog.
    pub bindings: Used,
    /// Bytes of the journal: the place of its last gate.
    pub bytes: Used,
    /// Cells that have a row.
    pub cells: Used,
    /// Pairs of an objective and a day that has a row of its SLI.
    pub days: Used,
    /// Entries of the history.
    pub entries: u32,
    /// Ids of exclusions, lifted ones too.
    pub exclusions: Used,
    /// The moment of the last entry, none where there is no entry.
    pub last: Option<u32>,
    /// Notices that nobody has taken.
    pub notices: Used,
    /// Objects of the catalog.
    pub objects: Used,
    /// The minute at which the history begins.
    pub origin: u32,
    /// SLIs of the catalog.
    pub slis: Used,
    /// SLOs of the catalog.
    pub slos: Used,
    /// 2 once the office was upgraded, and else 1.
    pub version: u8,
    /// Zones that were put.
    pub zones: Used,
}
