//! Replies to messages.

use crate::inline_bytes::InlineBytes;
use exact_fraction::Bytes;
use wire_terms::Allow;

/// What the body of a reply is.
#[derive(Clone, Copy, Debug, PartialEq, Eq)]
pub enum Form {
    /// `application/json`.
    Json,
    /// `application/yaml`.
    Yaml,
    /// `application/octet-stream`.
    Octets,
}

/// A body of at most 128 bytes: that of any reply to a change that was made, in all its digits.
pub type SmallBody = InlineBytes<128>;

/// A reply, before it is known whether it is the connection's last.
#[derive(Drop)]
pub enum Reply {
    Full {
        status: u16,
        form: Form,
        allow: Allow,
        body: Bytes,
    },
    /// A short body of JSON, made without memory.
    Small {
        status: u16,
        allow: Allow,
        body: SmallBody,
    },
    /// There was no memory for the reply: 503 `no_memory`.
    NoMemory,
}
