//! The kinds of objects.

use crate::words::is_word;

/// The kinds of OpenSLO v1.
#[derive(Clone, Copy, Debug, PartialEq, Eq, PartialOrd, Ord)]
pub enum Kind {
    DataSource,
    Service,
    Sli,
    Slo,
    AlertPolicy,
    AlertCondition,
    AlertNotificationTarget,
}

impl Kind {
    ghost use Rattle.std.specs.Prelude.{◌≡◌};
    ghost use Rattle.object_terms.specs.Scalars.{all_kinds, kind_word, of_word};

    /// Its word, as a document's `kind` has it.
    pub fn word(self) -> &'static str
        ensures { result.now ≡ kind_word self }
    {
        match self {
            Kind::DataSource => "DataSource",
            Kind::Service => "Service",
            Kind::Sli => "SLI",
            Kind::Slo => "SLO",
            Kind::AlertPolicy => "AlertPolicy",
            Kind::AlertCondition => "AlertCondition",
            Kind::AlertNotificationTarget => "AlertNotificationTarget",
        }
    }

    /// The kind of that word: none exactly where it is no kind's.
    pub fn of_word(text: &[u8]) -> Option<Kind>
        ensures { result ≡ of_word kind_word all_kinds text.now }
    {
        if is_word(text, Kind::DataSource.word()) {
            Some(Kind::DataSource)
        } else if is_word(text, Kind::Service.word()) {
            Some(Kind::Service)
        } else if is_word(text, Kind::Sli.word()) {
            Some(Kind::Sli)
        } else if is_word(text, Kind::Slo.word()) {
            Some(Kind::Slo)
        } else if is_word(text, Kind::AlertPolicy.word()) {
            Some(Kind::AlertPolicy)
        } else if is_word(text, Kind::AlertCondition.word()) {
            Some(Kind::AlertCondition)
        } else if is_word(text, Kind::AlertNotificationTarget.word()) {
            Some(Kind::AlertNotificationTarget)
        } else {
            None
        }
    }
}
