//! A time zone: a table of changes, or a rule.
ghost use Rattle.std.specs.Prelude.{◌≡◌, ℤ, pos, ◌*ℤ◌, ◌-ℤ◌};
ghost use Rattle.jiff_core.specs.Calendar.{IsWithin};
ghost use Rattle.jiff_core.specs.DateTime.{IsCivilNanos};
ghost use Rattle.zone_calendar.specs.Zone.{instant_at as said_instant};
ghost use Rattle.zone_calendar.specs.Zone.{instant_by as picked_instant};
ghost use Rattle.zone_calendar.specs.Kind.{kind_text, reading_of};

use jiff_core::Offset;
use jiff_core::civil::DateTime;
use jiff_tz::{Abbreviation, AmbiguousOffset, Tzif, posix};
use std::marker::Model;

/// A time zone, seen as its text: what a rule or a zone file says.
#[derive(Drop)]
pub struct Zone {
    kind: Kind,
}

#[derive(Drop)]
pub(crate) enum Kind {
    Rule(posix::TimeZone),
    Table(Tzif),
}

impl Model for Zone {
    ghost use Rattle.zone_calendar.specs.Zone.{ZoneText};
    ghost use Rattle.zone_calendar.specs.Kind.{kind_text};

    ghost Value = { ZoneText };

    ghost view = { λ zone. kind_text zone.kind };
}

impl Zone {
    ghost use Rattle.std.specs.Prelude.{◌≡◌, ℤ};
    ghost use Rattle.jiff_core.specs.DateTime.{civil_seconds};
    ghost use Rattle.zone_calendar.specs.Zone.{utc_text, instant_at};
    ghost use Rattle.zone_calendar.specs.Zone.{reading_at};
    ghost use Rattle.zone_calendar.specs.Kind.{kind_text, reading_of};

    /// Coordinated Universal Time, which has no changes.
    pub fn utc() -> Zone
        ensures { result ≡ utc_text }
    {
        Zone::of(Kind::Rule(posix::TimeZone {
            std_abbrev: Abbreviation::utc(),
            std_offset: Offset::UTC,
            dst: None,
        }))
    }

    pub(crate) fn of(kind: Kind) -> Zone
        ensures { result ≡ kind_text kind }
    {
        Zone { kind }
    }

    /// The second since 1970-01-01T00:00:00Z at which the zone's clock shows the moment: in a gap
    /// the later side, in a fold the earlier one.
    pub(crate) fn instant(&self, moment: DateTime) -> i64
        requires { moment.time.subsec_nanosecond ≡ 0 }
        ensures value { result ≡ instant_at self.now (civil_seconds moment) }
        ensures near { IsWithin 93_599 (result -ℤ civil_seconds moment) }
    {
        instant_by(moment.to_second(), self.offsets(moment))
    }

    /// The zone's clock is less than 26 hours from UTC at each moment.
    pub(crate) fn is_near_utc(&self)
        ensures { (second : ℤ) → IsWithin 93_599 (instant_at self.now second -ℤ second) }
    {
        offsets_are_near_utc(&self.kind);
    }

    fn offsets(&self, moment: DateTime) -> AmbiguousOffset
        requires { moment.time.subsec_nanosecond ≡ 0 }
        ensures { reading_of result ≡ reading_at self.now (civil_seconds moment) }
    {
        match &self.kind {
            Kind::Rule(rule) => rule.to_ambiguous_offset(moment),
            Kind::Table(table) => table.to_ambiguous_offset(moment),
        }
    }
}

/// Each offset of the library is less than 26 hours.
fn offsets_are_near_utc(kind: &Kind)
    ensures { (second : ℤ)
        → IsWithin 93_599 (said_instant (kind_text kind.now) second -ℤ second) }
{}

/// The instant of the moment at this second of the civil clock, which has these offsets.
fn instant_by(second: i64, offsets: AmbiguousOffset) -> i64
    requires { IsCivilNanos (second *ℤ pos 1_000_000_000) }
    ensures value { result ≡ picked_instant second (reading_of offsets) }
    ensures near { IsWithin 93_599 (result -ℤ second) }
{
    match offsets {
        AmbiguousOffset::Unambiguous { offset } => instant_at(second, offset),
        AmbiguousOffset::Gap { before, after } => {
            instant_at(second, before).max(instant_at(second, after))
        }
        AmbiguousOffset::Fold { before, after } => {
            instant_at(second, before).min(instant_at(second, after))
        }
    }
}

/// The instant at which a clock at this offset shows that second.
fn instant_at(second: i64, offset: Offset) -> i64
    requires { IsCivilNanos (second *ℤ pos 1_000_000_000) }
    ensures value { result ≡ second -ℤ offset.seconds }
    ensures near { IsWithin 93_599 (result -ℤ second) }
{
    second - offset.seconds as i64
}
