//! The limits that a change can meet.

/// What there would be too much of.
#[derive(Clone, Copy, Debug, PartialEq, Eq)]
pub enum LimitName {
    /// Objects in the catalog.
    Objects,
    /// Bytes of all objects in canonical writing.
    Catalog,
    /// SLIs in the catalog.
    Slis,
    /// SLOs in the catalog.
    Slos,
    /// Bindings of the catalog.
    Bindings,
    /// Starts of an SLO's calendar windows.
    Starts,
    /// Pairs of an objective and a day that has a row of its SLI.
    Days,
    /// Bytes of a zone.
    ZoneBytes,
    /// Zones.
    Zones,
    /// Rows of a batch.
    Rows,
    /// Cells.
    Cells,
    /// Rows that were new or corrected their cell, in the whole history.
    Accepted,
    /// Ids of exclusions, lifted ones too.
    Exclusions,
    /// Notices that aren't taken.
    Notices,
    /// Entries of the history.
    Entries,
}

impl LimitName {
    ghost use Rattle.std.specs.Prelude.{◌≡◌};
    ghost use Rattle.record_form.specs.Words.{limit_word};

    /// Its word, by which a refusal names it.
    pub fn word(self) -> &'static str
        ensures { result.now ≡ limit_word self }
    {
        match self {
            LimitName::Objects => "objects",
            LimitName::Catalog => "catalog",
            LimitName::Slis => "slis",
            LimitName::Slos => "slos",
            LimitName::Bindings => "bindings",
            LimitName::Starts => "starts",
            LimitName::Days => "days",
            LimitName::ZoneBytes => "zone_bytes",
            LimitName::Zones => "zones",
            LimitName::Rows => "rows",
            LimitName::Cells => "cells",
            LimitName::Accepted => "accepted",
            LimitName::Exclusions => "exclusions",
            LimitName::Notices => "notices",
            LimitName::Entries => "entries",
        }
    }
}
