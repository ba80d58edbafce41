//! What a request comes to.

use crate::budget_row::BudgetRows;
use crate::listed::Listed;
use crate::refusal::Refusal;
use crate::status::OfficeStatus;
use crate::window_row::WindowRows;
use burn_core::State;
use exact_fraction::{Bytes, Fraction, Label, Leaf, ZoneName};
use notice_box::Notice;
use object_terms::Kind;
use sample_book::{Exclusion, Row};

/// Kinds and names of objects, by kind and then by name.
pub type ObjectNames = Listed<(Kind, Label)>;

/// Stretches [from, to) of minutes since 1970-01-01T00:00Z, in order.
pub type Intervals = Listed<(u32, u32)>;

/// Notices by their numbers.
pub type NoticeRows = Listed<Notice>;

/// Sums of stretches of minutes, one behind another.
pub type SumList = Listed<Leaf>;

/// Exclusions in the order in which they were made, each with whether it is live.
pub type ExclusionRows = Listed<(Exclusion, bool)>;

/// Names of zones by their bytes.
pub type ZoneNames = Listed<ZoneName>;

/// The answer to a request. `entry` is the position of the entry that a change made, none where the
/// change was there already; `entries` is the length of the history at the answer.
#[derive(Drop)]
pub enum Outcome {
    /// `applied` counts the objects of the text, inline ones too.
    Defined {
        applied: u64,
        entry: Option<u32>,
    },
    /// How many rows were new, corrected their cell, were there already, or came too late.
    Sampled {
        entry: Option<u32>,
        new: u32,
        newer: u32,
        repeated: u32,
        superseded: u32,
    },
    /// Of a removal, a zone, an exclusion, its lifting, the taking of a notice, or the upgrade.
    Changed {
        entry: Option<u32>,
    },
    /// `notices` counts those that the tick made.
    Ticked {
        entry: u32,
        notices: u32,
    },
    ObjectList {
        entries: u32,
        objects: ObjectNames,
    },
    /// The canonical writing of an object.
    ObjectText(Bytes),
    Budgets {
        at: u32,
        budgets: BudgetRows,
        entries: u32,
    },
    /// The burn rate is none exactly where `den` is 0.
    Burn {
        at: u32,
        burn: Option<Fraction>,
        den: u64,
        entries: u32,
        num: u64,
    },
    /// When the binding's alert was active in the stretch, and the state at the moment.
    Timeline {
        entries: u32,
        intervals: Intervals,
        state: State,
    },
    /// The first 1,000 notices that nobody has taken.
    Notices {
        entries: u32,
        notices: NoticeRows,
    },
    /// The feed of the entries from the position that was asked for.
    Feed(Bytes),
    /// The row is none where the cell has none.
    Row {
        entries: u32,
        row: Option<Row>,
    },
    /// All that were made.
    Exclusions {
        entries: u32,
        exclusions: ExclusionRows,
    },
    /// The zones that were put, beside `UTC`.
    Zones {
        entries: u32,
        zones: ZoneNames,
    },
    Status(OfficeStatus),
    Sums {
        at: u32,
        entries: u32,
        sums: SumList,
    },
    Windows {
        at: u32,
        entries: u32,
        windows: WindowRows,
    },
    Refused(Refusal),
    /// The moment isn't below the end of the office's range; `reading` is the moment.
    ClockRange {
        end: u32,
        reading: u32,
    },
    DiskFault,
    /// The journal has `tail` bytes, and would have `needed` with the entry.
    JournalFull {
        needed: u64,
        tail: u64,
    },
    NoMemory,
}

impl Outcome {
    ghost use Rattle.std.specs.Prelude.{◌≡◌, MatchOption, None, Some};
    ghost use Rattle.record_form.specs.Words.{failure_of};

    /// The status of its HTTP answer and the member `error`, where it is no answer of status 200.
    pub fn failure(&self) -> Option<(u16, &'static str)>
        ensures { MatchOption result (failure_of self.now ≡ None)
            (λ failure. failure_of self.now ≡ Some (failure.0, failure.1.now)) }
    {
        match self {
            Outcome::Refused(refusal) => Some((refusal.status(), refusal.word())),
            Outcome::ClockRange { .. } => Some((500, "clock_range")),
            Outcome::DiskFault => Some((500, "disk_fault")),
            Outcome::JournalFull { .. } => Some((507, "journal_full")),
            Outcome::NoMemory => Some((503, "no_memory")),
            Outcome::Defined { .. }
            | Outcome::Sampled { .. }
            | Outcome::Changed { .. }
            | Outcome::Ticked { .. }
            | Outcome::ObjectList { .. }
            | Outcome::ObjectText(_)
            | Outcome::Budgets { .. }
            | Outcome::Burn { .. }
            | Outcome::Timeline { .. }
            | Outcome::Notices { .. }
            | Outcome::Feed(_)
            | Outcome::Row { .. }
            | Outcome::Exclusions { .. }
            | Outcome::Zones { .. }
            | Outcome::Status(_)
            | Outcome::Sums { .. }
            | Outcome::Windows { .. } => None,
        }
    }
}
