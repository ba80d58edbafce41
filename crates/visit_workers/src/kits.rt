//! What workers need memory for.
ghost use Rattle.std.specs.Prelude.{◌≡◌, IfOk, length};

use office_session::SessionKit;
use std::alloc::{AllocError, Global};

/// A kit for each of so many workers, which serves all of its visits.
pub fn take_kits(alloc: Global, workers: u32) -> Result<Vec<SessionKit>, AllocError>
    ensures { IfOk result (λ kits. length kits.items ≡ workers) }
{
    let mut kits = Vec::with_capacity(alloc, workers as usize)?;
    for _ in 0..workers {
        kits.push_reserved(SessionKit::new(alloc)?);
    }
    Ok(kits)
}
