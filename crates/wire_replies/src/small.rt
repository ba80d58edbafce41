//! Bodies that are made without memory: those of changes that were made, and of faults beside them.
ghost use Rattle.std.specs.Prelude.{◌≡◌, ◌+◌, ◌≤◌, ◌++◌, true, codes, decimal, length};
ghost use Rattle.serde_json.specs.Written.{compact_text};
ghost use Rattle.wire_replies.specs.Answers.{error_data, in_json, is_small, json, shown_answer};
ghost use Rattle.wire_replies.specs.Bodies.{changed_data, defined_data, entry_data};
ghost use Rattle.wire_replies.specs.Bodies.{sampled_data, ticked_data};
ghost use Rattle.wire_replies.specs.Outcomes.{clock_range_data, journal_full_data};

use crate::reply::{Reply, SmallBody};
use wire_terms::Allow;

/// A reply of that text.
pub(crate) fn fixed(status: u16, allow: Allow, text: &str) -> Reply
    requires { length text.now ≤ 128 }
    ensures answer { shown_answer result ≡ in_json status allow text.now }
    ensures small { is_small result ≡ true }
{
    let mut body = SmallBody::new();
    body.push(text);
    Reply::Small {
        status,
        allow,
        body,
    }
}

#[tactic(auto, unfolding(serde_json::proofs::OnLiterals::serde_json_on_literals))]
fn push_entry(text: &mut SmallBody, entry: Option<u32>)
    requires { length text.old + 10 ≤ 128 }
    ensures gained { text.new ≡ text.old ++ compact_text (entry_data entry) }
    ensures length { length text.new ≤ length text.old + 10 }
{
    match entry {
        Some(entry) => text.push_u32(entry),
        None => text.push("null"),
    }
}

#[tactic(auto, unfolding(serde_json::proofs::OnLiterals::serde_json_on_literals))]
pub(crate) fn defined(applied: u64, entry: Option<u32>) -> SmallBody
    ensures { result ≡ compact_text (defined_data applied entry) }
{
    let mut text = SmallBody::new();
    text.push("{\"applied\":");
    text.push_u64(applied);
    text.push(",\"entry\":");
    push_entry(&mut text, entry);
    text.push("}");
    text
}

#[tactic(auto, unfolding(serde_json::proofs::OnLiterals::serde_json_on_literals))]
pub(crate) fn sampled(
    entry: Option<u32>,
    new: u32,
    newer: u32,
    repeated: u32,
    superseded: u32,
) -> SmallBody
    ensures { result ≡ compact_text (sampled_data entry new newer repeated superseded) }
{
    let mut text = SmallBody::new();
    text.push("{\"entry\":");
    push_entry(&mut text, entry);
    text.push(",\"new\":");
    text.push_u32(new);
    text.push(",\"newer\":");
    text.push_u32(newer);
    text.push(",\"repeated\":");
    text.push_u32(repeated);
    text.push(",\"superseded\":");
    text.push_u32(superseded);
    text.push("}");
    text
}

#[tactic(auto, unfolding(serde_json::proofs::OnLiterals::serde_json_on_literals))]
pub(crate) fn changed(entry: Option<u32>) -> SmallBody
    ensures { result ≡ compact_text (changed_data entry) }
{
    let mut text = SmallBody::new();
    text.push("{\"entry\":");
    push_entry(&mut text, entry);
    text.push("}");
    text
}

/// The body of two numbers, each behind the text that leads to it.
fn two_numbers(first: &str, one: u64, second: &str, other: u64) -> SmallBody
    requires { length first.now + length second.now ≤ 80 }
    ensures { result
        ≡ first.now ++ (decimal one ++ (second.now ++ (decimal other ++ codes "}"))) }
{
    let mut text = SmallBody::new();
    text.push(first);
    text.push_u64(one);
    text.push(second);
    text.push_u64(other);
    text.push("}");
    text
}

#[tactic(auto, unfolding(serde_json::proofs::OnLiterals::serde_json_on_literals))]
pub(crate) fn ticked(entry: u32, notices: u32) -> SmallBody
    ensures { result ≡ compact_text (ticked_data entry notices) }
{
    let (entry, notices) = (u64::from(entry), u64::from(notices));
    two_numbers("{\"entry\":", entry, ",\"notices\":", notices)
}

#[tactic(auto, unfolding(serde_json::proofs::OnLiterals::serde_json_on_literals))]
pub(crate) fn clock_range(end: u32, reading: u32) -> SmallBody
    ensures { result ≡ compact_text (clock_range_data end reading) }
{
    let (end, reading) = (u64::from(end), u64::from(reading));
    two_numbers(
        "{\"end\":",
        end,
        ",\"error\":\"clock_range\",\"reading\":",
        reading,
    )
}

#[tactic(auto, unfolding(serde_json::proofs::OnLiterals::serde_json_on_literals))]
pub(crate) fn journal_full(needed: u64, tail: u64) -> SmallBody
    ensures { result ≡ compact_text (journal_full_data needed tail) }
{
    two_numbers(
        "{\"error\":\"journal_full\",\"needed\":",
        needed,
        ",\"tail\":",
        tail,
    )
}

/// The reply after a fault of the disk.
#[tactic(auto, unfolding(serde_json::proofs::OnLiterals::serde_json_on_literals))]
pub(crate) fn disk_fault() -> Reply
    ensures answer { shown_answer result ≡ json 500 (error_data (codes "disk_fault")) }
    ensures small { is_small result ≡ true }
{
    fixed(500, Allow::None, "{\"error\":\"disk_fault\"}")
}
