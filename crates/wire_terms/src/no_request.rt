//! Why a message is no request, and which methods a route has.

/// The methods of a route, in the order in which the table of routes has them.
#[derive(Clone, Copy, Debug, PartialEq, Eq)]
pub enum Allow {
    /// The answer names no methods.
    None,
    PostGet,
    GetDelete,
    PutDelete,
    Get,
    Post,
    Put,
}

/// Why a whole message is no request, in the order in which it is tried.
#[derive(Clone, Copy, Debug, PartialEq, Eq)]
pub enum NoRequest {
    /// No route has the path: 404 `not_found`.
    NotFound,
    /// The route has other methods: 405 `method`.
    Method(Allow),
    /// The query isn't of the route's keys and forms: 400 `query`.
    Query,
    /// The body isn't of its form: 400 `body`.
    Body,
    /// The record of this number, from 1, isn't of the form of a sample: 400 `body` with `record`.
    Record(u32),
}
