//! Outcomes as replies.
ghost use Rattle.std.specs.Prelude.{◌≡◌, ◌⊎◌, IfOk, true, false};
ghost use Rattle.serde_json.specs.Data.{Data};
ghost use Rattle.serde_json.specs.Written.{compact_text};
ghost use Rattle.wire_terms.specs.declared.no_request.Allow.TheVariants.{None};
ghost use Rattle.wire_replies.specs.declared.reply.Reply.TheVariants.{NoMemory};
ghost use Rattle.wire_replies.specs.Answers.{IsShownBy, in_json, is_small, json, shown_answer};
ghost use Rattle.wire_replies.specs.Outcomes.{answer_of, is_short};
ghost use Rattle.wire_replies.specs.Values.{IsValue};

use crate::bodies::{
    budgets, burn, exclusions, notices, objects, row, sums, timeline, windows, zones,
};
use crate::fullness::status;
use crate::refusals::refusal_value;
use crate::reply::{Form, Reply, SmallBody};
use crate::small::{changed, clock_range, defined, disk_fault, journal_full, sampled, ticked};
use exact_fraction::Bytes;
use record_form::Outcome;
use serde_json::Value;
use std::alloc::{AllocError, Global};
use wire_terms::Allow;

/// A reply with a short body.
fn small(status: u16, body: SmallBody) -> Reply
    ensures answer { shown_answer result ≡ in_json status None body }
    ensures small { is_small result ≡ true }
{
    Reply::Small {
        status,
        allow: Allow::None,
        body,
    }
}

/// The text of a value.
fn text_of(alloc: Global, value: Result<Value, AllocError>) -> Result<Bytes, AllocError>
    ensures { (d : Data) → IfOk value (IsValue d) → IfOk result (λ text. text ≡ compact_text d) }
{
    let text = value?.to_string(alloc)?;
    Ok(Bytes::from_vec(text.into_bytes()))
}

/// A reply with a value as its body.
fn full(alloc: Global, status: u16, value: Result<Value, AllocError>) -> Reply
    ensures { (d : Data) → IfOk value (IsValue d) → IsShownBy (json status d) result }
{
    match text_of(alloc, value) {
        Ok(body) => Reply::Full {
            status,
            form: Form::Json,
            allow: Allow::None,
            body,
        },
        Err(_) => Reply::NoMemory,
    }
}

/// A reply whose body is there already, and is not copied: an object's text, or a feed.
fn as_it_is(form: Form, body: Bytes) -> Reply
    ensures { shown_answer result
        ≡ record { status = 200; form = form; allow = None; body = body } }
{
    Reply::Full {
        status: 200,
        form,
        allow: Allow::None,
        body,
    }
}

/// The reply to a request that came to this. Those to changes that were made, and those to faults
/// of clock, disk and journal, are short and take no memory; each other one may be `NoMemory`.
pub fn render(alloc: Global, value: Outcome) -> Reply
    ensures answer { (shown_answer result ≡ answer_of value)
        ⊎ ((result ≡ NoMemory) × (is_short value ≡ false)) }
    ensures small { is_short value ≡ true → is_small result ≡ true }
{
    match value {
        Outcome::Defined { applied, entry } => small(200, defined(applied, entry)),
        Outcome::Sampled {
            entry,
            new,
            newer,
            repeated,
            superseded,
        } => small(200, sampled(entry, new, newer, repeated, superseded)),
        Outcome::Changed { entry } => small(200, changed(entry)),
        Outcome::Ticked { entry, notices } => small(200, ticked(entry, notices)),
        Outcome::ObjectList {
            entries,
            objects: listed,
        } => full(alloc, 200, objects(alloc, entries, listed.as_slice())),
        Outcome::ObjectText(text) => as_it_is(Form::Yaml, text),
        Outcome::Budgets {
            at,
            budgets: rows,
            entries,
        } => full(alloc, 200, budgets(alloc, at, rows.as_slice(), entries)),
        Outcome::Burn {
            at,
            burn: rate,
            den,
            entries,
            num,
        } => full(alloc, 200, burn(alloc, at, rate, den, entries, num)),
        Outcome::Timeline {
            entries,
            intervals,
            state,
        } => full(
            alloc,
            200,
            timeline(alloc, entries, intervals.as_slice(), state),
        ),
        Outcome::Notices {
            entries,
            notices: rows,
        } => full(alloc, 200, notices(alloc, entries, rows.as_slice())),
        Outcome::Feed(feed) => as_it_is(Form::Octets, feed),
        Outcome::Row {
            entries,
            row: found,
        } => full(alloc, 200, row(alloc, entries, found)),
        Outcome::Exclusions {
            entries,
            exclusions: rows,
        } => full(alloc, 200, exclusions(alloc, entries, rows.as_slice())),
        Outcome::Zones {
            entries,
            zones: names,
        } => full(alloc, 200, zones(alloc, entries, names.as_slice())),
        Outcome::Status(fullness) => full(alloc, 200, status(alloc, &fullness)),
        Outcome::Sums {
            at,
            entries,
            sums: listed,
        } => full(alloc, 200, sums(alloc, at, entries, listed.as_slice())),
        Outcome::Windows {
            at,
            entries,
            windows: listed,
        } => full(alloc, 200, windows(alloc, at, entries, listed.as_slice())),
        Outcome::Refused(refusal) => full(alloc, refusal.status(), refusal_value(alloc, &refusal)),
        Outcome::ClockRange { end, reading } => small(500, clock_range(end, reading)),
        Outcome::DiskFault => disk_fault(),
        Outcome::JournalFull { needed, tail } => small(507, journal_full(needed, tail)),
        Outcome::NoMemory => Reply::NoMemory,
    }
}
