//! Copies of bytes.
ghost use Rattle.std.specs.Prelude.{◌≡◌, IfOk};

use exact_fraction::Bytes;
use std::alloc::{AllocError, Global};

/// A copy of bytes.
pub(crate) fn copy_of(alloc: Global, bytes: &Bytes) -> Result<Bytes, AllocError>
    ensures { IfOk result (λ copy. copy ≡ bytes.now) }
{
    let mut items = Vec::new(alloc);
    items.extend_from_slice(bytes.as_bytes())?;
    Ok(Bytes::from_vec(items))
}
