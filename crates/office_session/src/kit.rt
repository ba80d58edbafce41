//! What sessions need memory for.

use message_session::Buffer;
use std::alloc::{AllocError, Global};
use wire_routes::Routes;

/// What a session takes memory for before it reads its first byte: a buffer of a message's size,
/// and the routes. It serves one session after another, and each begins as if it were new.
#[derive(Drop)]
pub struct SessionKit {
    pub(crate) buffer: Buffer,
    pub(crate) routes: Routes,
}

impl SessionKit {
    /// A kit, for any number of sessions.
    ///
    /// # Errors
    ///
    /// `AllocError` where memory runs out.
    pub fn new(alloc: Global) -> Result<SessionKit, AllocError> {
        let buffer = Buffer::new(alloc)?;
        let routes = Routes::new(alloc)?;
        Ok(SessionKit { buffer, routes })
    }
}
