//! The one who answers the messages of a session.
ghost use Rattle.std.specs.Prelude.{◌≡◌, ◌≤◌, ℕ, Bool};
ghost use Rattle.slo_limits.specs.declared.TheConstants.{MAX_MINUTE};
ghost use Rattle.message_heads.specs.declared.message.Heard.TheVariants.{Whole};
ghost use Rattle.message_heads.specs.Hearing.{Hears};
ghost use Rattle.message_heads.specs.Streams.{said_in};
ghost use Rattle.wire_replies.specs.Answers.{shown_answer};
ghost use Rattle.wire_replies.specs.Heads.{reply_bytes};
ghost use Rattle.office_session.specs.Messages.{AnswersMessage};

use message_heads::Message;
use message_session::Handler;
use office_counter::Counter;
use office_outside::{Failed, Sink};
use std::alloc::Global;
use wire_replies::{Reply, bad_message, immediate_reply, render, write_reply};
use wire_routes::{Routed, Routes};

/// The reply to a whole message, which came at a reading of the clock. The counter is asked once
/// where the message stands for a request, and else not at all.
fn reply_to<T: Counter>(
    alloc: Global,
    routes: &Routes,
    counter: &mut T,
    message: &Message,
    bytes: &[u8],
    reading: u32,
) -> Reply
    requires message { (n : ℕ) × Hears bytes.now (Whole message.now n) }
    requires reading { reading ≤ MAX_MINUTE }
    ensures { (last : Bool) → AnswersMessage T.asks counter.old (said_in bytes.now message.now) last
        reading (reply_bytes last (shown_answer result)) counter.new }
{
    match routes.request(alloc, message, bytes) {
        Routed::Request(request) => {
            let outcome = counter.ask(alloc, reading, &request);
            render(alloc, outcome)
        }
        Routed::NoRequest(reason) => immediate_reply(reason),
        Routed::NoMemory => Reply::NoMemory,
    }
}

/// Reads what a message asks, asks the counter, and writes the reply.
#[derive(Drop)]
pub(crate) struct Clerk<'a, T: Counter> {
    pub(crate) alloc: Global,
    pub(crate) routes: &'a Routes,
    pub(crate) counter: &'a mut T,
}

impl<'a, K: Sink, T: Counter> Handler<K> for Clerk<'a, T> {
    ghost use Rattle.office_session.specs.Clerks.{Serves};
    ghost use Rattle.office_session.specs.Messages.{refusal_text};

    ghost answers = { Serves T.asks };

    ghost refusal = { refusal_text };

    fn answer(
        &mut self,
        message: &Message,
        bytes: &[u8],
        reading: u32,
        last: bool,
        output: &mut K,
    ) -> Result<(), Failed> {
        let reply = reply_to(
            self.alloc,
            self.routes,
            self.counter,
            message,
            bytes,
            reading,
        );
        write_reply(&reply, last, output)
    }

    fn refuse(&self, status: u16, output: &mut K) -> Result<(), Failed> {
        write_reply(&bad_message(status), true, output)
    }
}
