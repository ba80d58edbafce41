//! The event that a record stands for.
ghost use Rattle.std.specs.Prelude.{◌≡◌, ◌≤◌, IfOk, IfSome};
ghost use Rattle.event_fields.specs.Events.{AreCounted, counts_of, event_of, fields_event};
ghost use Rattle.event_fields.specs.Events.{minute_of};
ghost use Rattle.event_fields.specs.Events.{revision_of, words_of_event};
ghost use Rattle.plain_fields.specs.declared.number.TheConstants.{MAX_NUMBER};

use crate::sources::Sources;
use csv_records::Record;
use exact_fraction::Label;
use plain_fields::read_field_number;
use slo_limits::{MAX_MINUTE, MAX_REVISION};

/// The good events and all events that a source tells for a minute.
#[derive(Clone, Copy, Debug, PartialEq, Eq)]
pub struct Event {
    pub source: Label,
    /// The minute, counted from 1970-01-01T00:00Z.
    pub minute: u32,
    pub revision: u32,
    pub good: u64,
    pub total: u64,
}

/// What is wrong with a record by itself, in the order in which the rules are tried.
#[derive(Clone, Copy, Debug, PartialEq, Eq)]
pub enum EventFault {
    /// It hasn't five fields.
    Fields,
    /// The source is no label.
    Source,
    /// The minute is none of the clock.
    Minute,
    /// The revision isn't from 1 to 10^9.
    Revision,
    /// Good or total is above the most, or good above total.
    Counts,
}

/// The word for what is wrong.
pub fn event_words(fault: EventFault) -> &'static str
    ensures { result.now ≡ words_of_event fault }
{
    match fault {
        EventFault::Fields => "fields",
        EventFault::Source => "source",
        EventFault::Minute => "minute",
        EventFault::Revision => "revision",
        EventFault::Counts => "counts",
    }
}

/// Revisions count from 1.
fn read_revision(text: &[u8]) -> Option<u32>
    ensures { result ≡ revision_of text.now }
{
    let revision = read_field_number(text, u64::from(MAX_REVISION))?;
    if 1 <= revision {
        Some(revision as u32)
    } else {
        None
    }
}

/// The good events are among the total.
fn read_counts(good: &[u8], total: &[u8], most: u64) -> Option<(u64, u64)>
    requires { most ≤ MAX_NUMBER }
    ensures counts { result ≡ counts_of most good.now total.now }
    ensures counted { IfSome result (λ counts. AreCounted most counts.0 counts.1) }
{
    let good = read_field_number(good, most)?;
    let total = read_field_number(total, most)?;
    if good <= total {
        Some((good, total))
    } else {
        None
    }
}

/// A minute of the clock.
fn read_minute(text: &[u8]) -> Option<u32>
    ensures { result ≡ minute_of text.now }
{
    let minute = read_field_number(text, u64::from(MAX_MINUTE))?;
    Some(minute as u32)
}

/// The event that five fields stand for, whose numbers of events are at most `most`, or the first
/// rule that they break. The sources that came are handed in.
pub fn read_fields(
    sources: &mut Sources,
    fields: (&[u8], &[u8], &[u8], &[u8], &[u8]),
    most: u64,
) -> Result<Event, EventFault>
    requires { most ≤ MAX_NUMBER }
    ensures event { result ≡ fields_event most (
      fields.entry.0.now,
      fields.entry.1.now,
      fields.entry.2.now,
      fields.entry.3.now,
      fields.entry.4.now,
    ) }
    ensures counted { IfOk result (λ event. AreCounted most event.good event.total) }
{
    let source = sources.read(fields.0).ok_or(EventFault::Source)?;
    let minute = read_minute(fields.1).ok_or(EventFault::Minute)?;
    let revision = read_revision(fields.2).ok_or(EventFault::Revision)?;
    let (good, total) = read_counts(fields.3, fields.4, most).ok_or(EventFault::Counts)?;
    Ok(Event {
        source,
        minute,
        revision,
        good,
        total,
    })
}

/// The event that a record stands for, whose numbers of events are at most `most`, or the first
/// rule that it breaks. The sources that came are handed in.
pub fn read_event(sources: &mut Sources, fields: &Record, most: u64) -> Result<Event, EventFault>
    requires { most ≤ MAX_NUMBER }
    ensures event { result ≡ event_of most fields.now }
    ensures counted { IfOk result (λ event. AreCounted most event.good event.total) }
{
    match fields.five() {
        Some(five) => read_fields(sources, five, most),
        None => Err(EventFault::Fields),
    }
}
