//! Limits of feeds.

/// The most bytes of a feed, but for one that has a single record: so that it is answered at once.
pub const MAX_FEED_BYTES: usize = 1_048_576;

/// The most bytes of feeds that are followed in one run: more than all records of a journal.
pub const MAX_FEEDS_BYTES: u64 = 536_870_912;
