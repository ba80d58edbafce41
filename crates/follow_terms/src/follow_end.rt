//! How following ends.

/// How the following of an input ended. Places are counted from the start of the input, positions
/// from the start of the history.
#[derive(Clone, Copy, Debug, Drop, PartialEq, Eq)]
pub enum FollowEnd {
    /// The input ended where a feed could begin.
    Done,
    /// A read failed: the input's count of faults rose.
    ReadFault,
    /// The input has more bytes than are followed in one run.
    TooLarge,
    /// The input ended inside a feed.
    Cut,
    /// At this place stands no feed, or the length of no record.
    Broken { at: u64 },
    /// The feed is that of an office with another origin.
    OtherOrigin { origin: u32 },
    /// The feed begins behind the end of the history.
    Gap { at: u32 },
    /// At this position the office holds another entry.
    Diverges { at: u32 },
    /// The entry of this position may not follow the history.
    Illegal { at: u32 },
    /// The journal has no room for the entry.
    JournalFull,
    /// The disk failed: its count of faults rose.
    DiskFault,
    /// Memory was refused.
    NoMemory,
}
