//! Lines of a source and four numbers.
ghost use Rattle.std.specs.Prelude.{◌≡◌, ◌≤◌, ℕ, List, IfSome, Some, length, true};
ghost use Rattle.exact_fraction.specs.Label.{label_of};
ghost use Rattle.event_fields.specs.Events.{AreCounted};
ghost use Rattle.event_lines.specs.Lines.{IsComma, IsEventLine, KeepRules};

use crate::number::{Numbers, read_numbers};
use memchr::memchr;
use slo_limits::{MAX_MINUTE, MAX_REVISION};

/// The source and the numbers of a line. Where the source is a label they are an event's.
#[derive(Clone, Copy)]
pub struct EventLine<'a> {
    pub source: &'a [u8],
    /// The minute, counted from 1970-01-01T00:00Z.
    pub minute: u32,
    pub revision: u32,
    pub good: u64,
    pub total: u64,
    /// The place behind the line's line feed.
    pub end: usize,
}

/// The place of the first comma of a text.
fn first_comma(text: &[u8]) -> Option<usize>
    ensures { IfSome result (IsComma text.now) }
{
    memchr(b',', text)
}

/// Whether numbers are those of an event whose numbers of events are at most `most`.
fn keep_rules(numbers: &Numbers, most: u64) -> bool
    ensures { result ≡ true → KeepRules most numbers.now }
{
    numbers.minute <= u64::from(MAX_MINUTE)
        && 1 <= numbers.revision
        && numbers.revision <= u64::from(MAX_REVISION)
        && numbers.good <= numbers.total
        && numbers.total <= most
}

/// The line that begins at a place, as far as it is a source and four numbers of at most 18 digits
/// that keep the rules of an event. Other lines are for a reader of fields.
pub fn read_event_line(text: &[u8], from: usize, most: u64) -> Option<EventLine<'_>>
    requires { from ≤ length text.now }
    ensures event { IfSome result (λ line. (label : List ℕ) →
        label_of line.source.now ≡ Some label → IsEventLine most text.now from line label) }
    ensures counted { IfSome result (λ line. AreCounted most line.good line.total) }
{
    let count = first_comma(&text[from..])?;
    let mut at = from + count + 1;
    let numbers = read_numbers(text, &mut at)?;
    if !keep_rules(&numbers, most) {
        return None;
    }
    Some(EventLine {
        source: &text[from..from + count],
        minute: numbers.minute as u32,
        revision: numbers.revision as u32,
        good: numbers.good,
        total: numbers.total,
        end: at,
    })
}
