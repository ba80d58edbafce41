//! Writing a duration.
ghost use Rattle.std.specs.Prelude.{◌≡◌, ◌++◌, Ok, OnOk, OnErr};
ghost use Rattle.slo_duration.specs.Reading.{duration_of};
ghost use Rattle.slo_duration.specs.Writing.{duration_text};

use crate::Duration;
use std::alloc::{AllocError, Global};

/// Appends the duration: its count in decimal digits, and the letter of its unit. The text reads
/// back as the duration.
///
/// # Errors
///
/// Memory ran out; `out` is as before.
pub fn write_duration(alloc: Global, out: &mut Vec<u8>, value: Duration) -> Result<(), AllocError>
    ensures written { OnOk result (out.new.items ≡ out.old.items ++ duration_text value) }
    ensures back { duration_of (duration_text value) ≡ Ok value }
    ensures kept { OnErr result (out.new.items ≡ out.old.items) }
{
    let count = value.count;
    let letter = value.unit.letter();
    let text = format!(in alloc; "{count}{letter}")?;
    out.extend_from_slice(text.as_bytes())
}
