//! What becomes of a message.

use record_form::Request;
use wire_terms::NoRequest;

/// What becomes of a message.
#[derive(Drop)]
pub enum Routed {
    /// The office is asked.
    Request(Request),
    /// It is answered without the office.
    NoRequest(NoRequest),
    /// Memory ran out.
    NoMemory,
}
