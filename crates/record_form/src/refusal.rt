//! Why a request is refused.

use crate::limit_name::LimitName;
use crate::yaml_word::YamlWord;
use exact_fraction::{Label, Text, ZoneName};
use object_terms::{Kind, Rule};
use slice_method::Amount;

/// The first rule that a request breaks. `row` and `document` are counted from 1, objectives from
/// 0, minutes since 1970-01-01T00:00Z.
#[derive(Drop)]
pub enum Refusal {
    /// There would be too much of something.
    Limit {
        which: LimitName,
    },
    /// The text isn't of the YAML profile; line 0 speaks of the whole text.
    Yaml {
        line: u32,
        which: YamlWord,
    },
    /// A document is no object of OpenSLO.
    Object {
        document: u32,
        field: Text,
        rule: Rule,
    },
    /// A text defines a policy of a built-in name.
    ReservedPolicy {
        name: Label,
    },
    /// A zone of the name of the built-in one is put.
    ReservedZone {
        name: ZoneName,
    },
    /// A text has an object twice, with different content.
    Duplicate {
        kind: Kind,
        name: Label,
    },
    /// A reference of one object to another that isn't there.
    Unresolved {
        from_kind: Kind,
        from_name: Label,
        kind: Kind,
        name: Label,
    },
    /// An exclusion names an SLO that isn't there.
    NoSuchSlo {
        kind: Kind,
        name: Label,
    },
    /// An objective over a threshold SLI has no operator or no value.
    NeedsOp {
        objective: u32,
        slo: Label,
    },
    /// A calendar window names a zone that isn't there.
    UnknownZone {
        name: ZoneName,
    },
    /// An SLI with samples would get another reading, or be removed; its first row.
    HasSamples {
        minute: u32,
        name: Label,
        source: Label,
    },
    /// What is asked for isn't there.
    NotFound,
    /// Another object refers to the one that would be removed.
    InUse {
        by_kind: Kind,
        by_name: Label,
    },
    /// Other bytes are kept under the zone's name.
    ZoneDiffers {
        name: ZoneName,
    },
    /// The bytes are no zone.
    BadZone {
        name: ZoneName,
    },
    /// A row of an SLI that isn't there.
    UnknownSli {
        name: Label,
        row: u32,
    },
    /// A withdrawn row, and the office isn't upgraded.
    Version {
        row: u32,
    },
    /// A row's amount isn't of the form that its SLI reads.
    WrongKind {
        row: u32,
    },
    /// A row's part is above its total, its total above 10^9, or its ratio above 1.
    Counts {
        row: u32,
    },
    /// A row's minute is before the office's first.
    Early {
        minute: u32,
        origin: u32,
        row: u32,
    },
    /// A row's minute isn't over yet.
    OpenMinute {
        minute: u32,
        moment: u32,
        row: u32,
    },
    /// A row has the revision of its cell's row and another amount; the kept one is told.
    RowConflict {
        amount: Amount,
        revision: u32,
        row: u32,
    },
    /// The exclusion of that id was lifted.
    Withdrawn {
        id: Label,
    },
    /// The exclusion of that id has other content, which is told.
    ExclusionConflict {
        from: u32,
        slo: Label,
        to: u32,
    },
    /// Minutes that are outside the office's range or in the wrong order.
    Range,
    /// No notice has that number; so many were made.
    UnknownNotice {
        made: u32,
        number: u32,
    },
    /// No calendar window has begun at that minute.
    NoWindow {
        at: u32,
    },
}

impl Refusal {
    ghost use Rattle.std.specs.Prelude.{◌≡◌};
    ghost use Rattle.record_form.specs.Words.{reply_of};

    /// The status of its HTTP answer.
    pub fn status(&self) -> u16
        ensures { result ≡ (reply_of self.now).0 }
    {
        self.reply().0
    }

    /// Its word, the member `error` of its answer.
    pub fn word(&self) -> &'static str
        ensures { result.now ≡ (reply_of self.now).1 }
    {
        self.reply().1
    }

    fn reply(&self) -> (u16, &'static str)
        ensures status { result.0 ≡ (reply_of self.now).0 }
        ensures word { result.1.now ≡ (reply_of self.now).1 }
    {
        match self {
            Refusal::Limit { .. } => (507, "limit"),
            Refusal::Yaml { .. } => (422, "yaml"),
            Refusal::Object { .. } => (422, "object"),
            Refusal::ReservedPolicy { .. } => (422, "reserved"),
            Refusal::ReservedZone { .. } => (422, "reserved"),
            Refusal::Duplicate { .. } => (422, "duplicate"),
            Refusal::Unresolved { .. } => (422, "unresolved"),
            Refusal::NoSuchSlo { .. } => (422, "unresolved"),
            Refusal::NeedsOp { .. } => (422, "needs_op"),
            Refusal::UnknownZone { .. } => (422, "unknown_zone"),
            Refusal::HasSamples { .. } => (409, "has_samples"),
            Refusal::NotFound => (404, "not_found"),
            Refusal::InUse { .. } => (409, "in_use"),
            Refusal::ZoneDiffers { .. } => (409, "zone_differs"),
            Refusal::BadZone { .. } => (422, "bad_zone"),
            Refusal::UnknownSli { .. } => (422, "unknown_sli"),
            Refusal::Version { .. } => (422, "version"),
            Refusal::WrongKind { .. } => (422, "wrong_kind"),
            Refusal::Counts { .. } => (422, "counts"),
            Refusal::Early { .. } => (422, "early"),
            Refusal::OpenMinute { .. } => (422, "open_minute"),
            Refusal::RowConflict { .. } => (409, "conflict"),
            Refusal::Withdrawn { .. } => (409, "withdrawn"),
            Refusal::ExclusionConflict { .. } => (409, "conflict"),
            Refusal::Range => (422, "range"),
            Refusal::UnknownNotice { .. } => (422, "unknown_notice"),
            Refusal::NoWindow { .. } => (404, "no_window"),
        }
    }
}
