//! What a book takes and gives, and what it keeps.
ghost use Rattle.std.specs.Prelude.{◌≡◌};
ghost use Rattle.counter_book.specs.Differences.{count_of};

use exact_fraction::Label;

/// What the counters of a source stood at in a minute. They only rise, and start again at 0.
#[derive(Clone, Copy, PartialEq, Eq)]
pub struct CounterReading {
    pub source: Label,
    /// The minute, counted from 1970-01-01T00:00Z.
    pub minute: u32,
    /// A correction of a reading has a greater revision.
    pub revision: u32,
    /// The good events since the counters' start, and all events.
    pub good: u64,
    pub total: u64,
}

/// The events between a source's reading and the one before it, as a sample of the minute.
#[derive(Clone, Copy, PartialEq, Eq)]
pub struct Difference {
    pub source: Label,
    pub minute: u32,
    /// 1 at its first value, and one more at each change.
    pub revision: u32,
    pub part: u32,
    pub total: u32,
}

/// The differences that a reading makes new or changes: at its own minute, and at the minute of the
/// next reading of its source.
#[derive(Clone, Copy, PartialEq, Eq)]
pub struct Changes {
    pub own: Option<Difference>,
    pub next: Option<Difference>,
}

/// Why a reading is refused, in the order in which the rules are tried.
#[derive(Clone, Copy, PartialEq, Eq)]
pub enum CounterFault {
    /// The kept reading of its source's minute has its revision and other numbers.
    Conflict { kept: CounterReading },
    /// It would make one reading more than a book may have.
    Limit,
    /// The difference at this minute would be new or changed with this total, which no sample has.
    Jump { minute: u32, total: u64 },
    /// Memory ran out.
    NoMemory,
}

/// What two counters stand at.
#[derive(Clone, Copy, Debug, PartialEq, Eq)]
pub struct Count {
    pub good: u64,
    pub total: u64,
}

/// By how much two counters rose, with the part at most the total.
#[derive(Clone, Copy, Debug, PartialEq, Eq)]
pub struct Rise {
    pub part: u64,
    pub total: u64,
}

/// A minute of the source of a number.
#[derive(Clone, Copy, Debug, PartialEq, Eq, PartialOrd, Ord)]
pub struct Moment {
    pub source: u32,
    pub minute: u32,
}

/// What is kept at a moment: its newest reading, and the revision of the difference that was given
/// there last, 0 for none. The difference itself isn't kept, since the neighbours say it.
#[derive(Clone, Copy, Debug, PartialEq, Eq)]
pub struct Kept {
    pub count: Count,
    pub revision: u32,
    pub given: u32,
}

/// The last reading of a source.
#[derive(Clone, Copy, Debug, PartialEq, Eq)]
pub struct Tail {
    pub minute: u32,
    pub count: Count,
}

/// What is kept around a minute of a source: the counts before it, what is kept there, and the next
/// minute with what is kept there.
#[derive(Clone, Copy, Debug, PartialEq, Eq)]
pub struct Neighbours {
    pub before: Option<Count>,
    pub here: Option<Kept>,
    pub next: Option<(u32, Kept)>,
}

/// What a reading moves: its own difference, and the next one of its source.
#[derive(Clone, Copy, Debug, PartialEq, Eq)]
pub struct Moves {
    pub own: Option<Rise>,
    pub next: Option<NextMove>,
}

/// The next difference of a source, which moves to this rise.
#[derive(Clone, Copy, Debug, PartialEq, Eq)]
pub struct NextMove {
    pub minute: u32,
    pub kept: Kept,
    pub rise: Rise,
}

/// How a reading stands to what is kept at its moment.
#[derive(Clone, Copy, PartialEq, Eq)]
pub enum Standing {
    /// Nothing is kept there.
    Fresh,
    /// Its revision is the greater one.
    Newer,
    /// It says the same again.
    Repeated,
    /// Its revision is the smaller one.
    Superseded,
    /// It has the revision of this kept reading, and other numbers.
    Conflict(CounterReading),
}

/// The counts of a reading.
pub(crate) fn count_of_reading(reading: &CounterReading) -> Count
    ensures { result ≡ count_of reading.now }
{
    Count {
        good: reading.good,
        total: reading.total,
    }
}
