//! Replies to messages that are no requests.
ghost use Rattle.std.specs.Prelude.{◌≡◌, true};
ghost use Rattle.serde_json.specs.Written.{compact_text};
ghost use Rattle.wire_replies.specs.Answers.{is_small, shown_answer};
ghost use Rattle.wire_replies.specs.Immediate.{bad_answer, immediate_answer, record_data};

use crate::reply::{Reply, SmallBody};
use crate::small::fixed;
use wire_terms::{Allow, NoRequest};

/// The reply to a whole message that is no request. It takes no memory.
#[tactic(auto, unfolding(serde_json::proofs::OnLiterals::serde_json_on_literals))]
pub fn immediate_reply(value: NoRequest) -> Reply
    ensures answer { shown_answer result ≡ immediate_answer value }
    ensures small { is_small result ≡ true }
{
    match value {
        NoRequest::NotFound => fixed(404, Allow::None, "{\"error\":\"not_found\"}"),
        NoRequest::Method(allow) => fixed(405, allow, "{\"error\":\"method\"}"),
        NoRequest::Query => fixed(400, Allow::None, "{\"error\":\"query\"}"),
        NoRequest::Body => fixed(400, Allow::None, "{\"error\":\"body\"}"),
        NoRequest::Record(number) => Reply::Small {
            status: 400,
            allow: Allow::None,
            body: record_body(number),
        },
    }
}

/// The reply to a bad message of that status. It takes no memory.
#[tactic(auto, unfolding(serde_json::proofs::OnLiterals::serde_json_on_literals))]
pub fn bad_message(status: u16) -> Reply
    ensures answer { shown_answer result ≡ bad_answer status }
    ensures small { is_small result ≡ true }
{
    fixed(status, Allow::None, "{\"error\":\"message\"}")
}

#[tactic(auto, unfolding(serde_json::proofs::OnLiterals::serde_json_on_literals))]
fn record_body(number: u32) -> SmallBody
    ensures { result ≡ compact_text (record_data number) }
{
    let mut text = SmallBody::new();
    text.push("{\"error\":\"body\",\"record\":");
    text.push_u32(number);
    text.push("}");
    text
}
