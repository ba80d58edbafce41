//! A visit: what a session runs over.

/// What a session runs over: where a visitor's bytes come from, where the answers go, and the clock
/// that is read for each request.
#[derive(Drop)]
pub struct Visit<I, O, C> {
    pub input: I,
    pub output: O,
    pub clock: C,
}
