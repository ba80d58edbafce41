//! The limits of the office, and numbers of its forms: each is one named number, with its reason.
//! Stands on nothing; code, clauses and definitions of all crates take their limits from here.
//! Promises nothing by itself: the crates above say what a limit refuses.
#![tactic(auto)]

// Forms: numbers that limit nothing, and that many crates count by.

/// The minutes of a day of 24 hours: day d is the minutes from d * 1,440 on, in UTC. Rows, sums and
/// exclusions are kept day by day.
pub const MINUTES_A_DAY: u32 = 1_440;

// Numbers

/// One, counted in billionths: decimals have nine places at most.
pub const WHOLE: u64 = 1_000_000_000;

/// The greatest decimal, 10^9, in billionths: more than any threshold, value or target needs, and
/// within 64 bits.
pub const MAX_DECIMAL: u64 = 1_000_000_000_000_000_000;

/// The greatest part or total of a row: a source counts fewer events in one minute.
pub const MAX_AMOUNT: u32 = 1_000_000_000;

/// The greatest revision of a row, so that a writer that numbers its corrections by seconds has
/// room for 31 years.
pub const MAX_REVISION: u32 = 1_000_000_000;

/// The most events of a sum: what `MAX_SUMMED_ROWS` rows come to at the greatest amount. Burn rates
/// and remaining budgets of such a sum fit 128 bits.
pub const MAX_SUM: u64 = 4_000_000_000_000_000;

/// The greatest threshold of an alert, 10,000, in billionths: a burn rate above it leaves no budget
/// after seconds.
pub const MAX_THRESHOLD: u64 = 10_000_000_000_000;

// Minutes

/// The greatest minute of the clock, which gives minutes below 2^26: some 127 years from 1970 on.
pub const MAX_MINUTE: u32 = 67_108_863;

/// How many minutes an office's range has, from its origin on: almost four years, so that two bits
/// a minute of each alert stay small.
pub const RANGE_MINUTES: u32 = 2_097_152;

/// The most minutes of a rolling window, and of a calendar window's duration: 366 days, so that a
/// leap year fits.
pub const MAX_WINDOW: u32 = 527_040;

/// The most minutes of a lookback and of an `alertAfter`: 30 days, as a month counts.
pub const MAX_LOOKBACK: u32 = 43_200;

/// The most minutes of a timeline: a month of 31 days.
pub const MAX_TIMELINE: u32 = 44_640;

/// The most starts of a calendar's windows: daily windows over 109 years.
pub const MAX_STARTS: u32 = 40_000;

// Names

/// The most bytes of a label and of a time zone's name, as in a label of DNS: with its length, such
/// a name fills eight words.
pub const MAX_LABEL_BYTES: usize = 63;

// Documents and what they define

/// The most bytes of a text of documents, as many as the body of a message has.
pub const MAX_TEXT_BYTES: usize = 1_048_576;

/// The most objects of a catalog: those of a company of some hundred teams.
pub const MAX_OBJECTS: usize = 2_000;

/// The most bytes that a catalog has in canonical writing: it is kept in memory, and sent whole.
pub const MAX_CATALOG_BYTES: usize = 16_777_216;

/// The most SLIs of a catalog. Each has rows, and an index of them.
pub const MAX_SLIS: usize = 200;

/// The most SLOs of a catalog. Each has sums, which are kept.
pub const MAX_SLOS: usize = 200;

/// The most bindings of a catalog. Each has a line of minutes, which is kept.
pub const MAX_BINDINGS: usize = 400;

/// The most objectives of an SLO.
pub const MAX_OBJECTIVES: usize = 5;

/// The most alert policies of an SLO.
pub const MAX_POLICIES: usize = 10;

/// The most time zones that are kept beside `UTC`.
pub const MAX_ZONES: usize = 50;

/// The most bytes of a time zone: a zone file of the public database has under 4,000.
pub const MAX_ZONE_BYTES: usize = 65_536;

// Samples and what follows from them

/// The most rows of a batch of samples, so that a change takes its turn for a short time.
pub const MAX_BATCH_ROWS: usize = 1_000;

/// The most cells that have a row: minutes of sources, kept in memory.
pub const MAX_CELLS: u32 = 2_000_000;

/// The most rows that a history takes, corrections among them.
pub const MAX_ACCEPTED_ROWS: u32 = 4_000_000;

/// The most current rows that are added up: no office has more cells, one that was upgraded
/// neither.
pub const MAX_SUMMED_ROWS: u32 = 4_000_000;

/// The most cells that have a row in an office that was upgraded.
pub const MAX_UPGRADED_CELLS: u32 = 4_000_000;

/// The most rows that a history takes once it was upgraded, corrections among them.
pub const MAX_UPGRADED_ROWS: u32 = 8_000_000;

/// The most pairs of an objective and a day that has a row of its SLI: each is a page of sums.
pub const MAX_DAYS: u32 = 80_000;

/// The most exclusions, lifted ones among them.
pub const MAX_EXCLUSIONS: usize = 2_000;

/// The most notices that wait to be taken.
pub const MAX_NOTICES: u32 = 100_000;

/// The most notices that are told in one answer, those that wait longest: once they are taken, the
/// next are told.
pub const MAX_NOTICES_IN_ANSWER: usize = 1_000;

// Counters

/// The most minutes of sources that have a reading: as many as there may be samples.
pub const MAX_READINGS: usize = 2_000_000;

/// The most readings that were new or newer: so no difference's revision passes that of a sample.
pub const MAX_PUTS: u32 = 1_000_000_000;

/// The most that a counter stands at. Ten times as much, and a digit, still fits 64 bits.
pub const MAX_COUNTER: u64 = 1_000_000_000_000_000_000;

// The history and its file

/// The most entries of a history: more than the journal has room for, so that a position fits 32
/// bits.
pub const MAX_ENTRIES: u32 = 30_000_000;

/// The most bytes of a record: the greatest text of documents, with what stands around it.
pub const MAX_RECORD_BYTES: usize = 1_100_000;

/// The most bytes of a journal, which is kept in memory too.
pub const MAX_JOURNAL_BYTES: usize = 268_435_456;

// Feeds: the history, read by another office

/// The most bytes of a feed, but for one whose first record alone has more: as many as the body of
/// a message.
pub const MAX_FEED_BYTES: usize = 1_048_576;

/// The most bytes of feeds that are read at once: twice those of a journal, since each record
/// stands in its feed with what is around it.
pub const MAX_FEEDS_BYTES: usize = 536_870_912;

// Messages

/// The most bytes of a message's head.
pub const MAX_HEAD_BYTES: usize = 8_192;

/// The most header fields of a message.
pub const MAX_HEADER_FIELDS: usize = 64;

/// The most bytes of a message's body.
pub const MAX_BODY_BYTES: usize = 1_048_576;

/// The most requests of a session, so that a client gives its place to others from time to time.
pub const MAX_REQUESTS: u32 = 1_000;

/// The most passes of a desk.
pub const MAX_PASSES: u32 = 64;
