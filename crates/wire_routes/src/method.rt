//! The methods of messages.
ghost use Rattle.std.specs.Prelude.{◌≡◌};
ghost use Rattle.wire_routes.specs.Methods.{method_of};

/// A method that some route has, or any other.
#[derive(Clone, Copy)]
pub enum Method {
    Delete,
    Get,
    Post,
    Put,
    Other,
}

/// The method of that word, in capitals as RFC 9110 has it.
pub(crate) fn method_of(word: &[u8]) -> Method
    ensures { result ≡ method_of word.now }
{
    if word == b"DELETE".as_slice() {
        Method::Delete
    } else if word == b"GET".as_slice() {
        Method::Get
    } else if word == b"POST".as_slice() {
        Method::Post
    } else if word == b"PUT".as_slice() {
        Method::Put
    } else {
        Method::Other
    }
}
