//! Documents, and the objects that they stand for.
ghost use Rattle.std.specs.Prelude.{◌≡◌};
ghost use Rattle.object_terms.specs.declared.fault.ReadError.TheVariants.{NoMemory};

use exact_fraction::Text;
use std::alloc::{AllocError, AllocFailed};

/// The name of a document in its fault.
pub const DOCUMENT: &str = "document";

/// The rules of the fields.
#[derive(Clone, Copy, Debug, PartialEq, Eq)]
pub enum Rule {
    /// A required field is omitted.
    Missing,
    /// It must be a map.
    NotMap,
    /// It must be a list.
    NotList,
    /// It must be a text.
    NotText,
    /// It must be a decimal number, with so many decimals at most.
    NotNumber,
    /// It must be `true` or `false`.
    NotBool,
    /// It must be a duration in OpenSLO's shorthand.
    NotDuration,
    /// It must be a civil moment, as `2020-01-21 12:30:00`.
    NotMoment,
    /// A number, a duration or a width is outside its range.
    OutOfRange,
    /// It must be a name.
    BadName,
    /// The version is another than `openslo/v1`.
    BadVersion,
    /// The kind is none of the seven, or another than stands there.
    BadKind,
    /// It is none of the words that may stand there.
    BadWord,
    /// Two fields stand of which one may.
    Both,
    /// Neither of two fields stands of which one must.
    Neither,
    /// The map has no field of this name.
    UnknownField,
    /// A list has more or fewer items than it may have.
    ListLength,
    /// A description has too many characters.
    TooLong,
    /// A policy is named twice.
    Repeated,
}

impl Rule {
    ghost use Rattle.std.specs.Prelude.{◌≡◌};
    ghost use Rattle.object_terms.specs.Rules.{rule_word};

    /// Its word, by which a refusal names it.
    pub fn word(self) -> &'static str
        ensures { result.now ≡ rule_word self }
    {
        match self {
            Rule::Missing => "missing",
            Rule::NotMap => "not_map",
            Rule::NotList => "not_list",
            Rule::NotText => "not_text",
            Rule::NotNumber => "not_number",
            Rule::NotBool => "not_bool",
            Rule::NotDuration => "not_duration",
            Rule::NotMoment => "not_moment",
            Rule::OutOfRange => "out_of_range",
            Rule::BadName => "bad_name",
            Rule::BadVersion => "bad_version",
            Rule::BadKind => "bad_kind",
            Rule::BadWord => "bad_word",
            Rule::Both => "both",
            Rule::Neither => "neither",
            Rule::UnknownField => "unknown_field",
            Rule::ListLength => "list_length",
            Rule::TooLong => "too_long",
            Rule::Repeated => "repeated",
        }
    }
}

/// The first fault of a node: the key of the field, and the rule that it breaks.
/// For an item of the wrong form it is the key of the list, for a document that is no map
/// `document`.
#[derive(Debug, Drop)]
pub struct ObjectFault {
    pub field: Text,
    pub rule: Rule,
}

/// Why a node was not read.
#[derive(Debug, Drop)]
pub enum ReadError {
    /// The node's first fault.
    Fault(ObjectFault),
    /// Memory ran out.
    NoMemory,
}

impl From<AllocError> for ReadError {
    ghost from_gives = { λ _ e. e ≡ NoMemory };

    fn from(_error: AllocError) -> ReadError {
        ReadError::NoMemory
    }
}

impl<T: Drop> From<AllocFailed<T>> for ReadError {
    ghost from_gives = { λ _ e. e ≡ NoMemory };

    fn from(_error: AllocFailed<T>) -> ReadError {
        ReadError::NoMemory
    }
}
