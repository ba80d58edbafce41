//! Stretches of time that grow minute by minute.
ghost use Rattle.std.specs.Prelude.{◌≡◌, ◌+◌, ◌<◌, ◌^◌, ◌&&◌, OnOk, nat_lt, if◌then◌else◌};
ghost use Rattle.alert_line.specs.Spans.{with_minute, with_stretch};

use std::alloc::AllocError;

/// Stretches of time, ascending: each the minutes from the first number up to but without the
/// second.
pub type Spans = Vec<(u32, u32)>;

/// Adds the minutes from one up to another at the end: to the last stretch where that ends there,
/// else as one of their own.
fn add_stretch(spans: &mut Spans, from: u32, to: u32) -> Result<(), AllocError>
    ensures { OnOk result (spans.new.items ≡ with_stretch spans.old.items from to) }
{
    let count = spans.len();
    if count > 0 {
        let last = spans[count - 1];
        if last.1 == from {
            spans[count - 1] = (last.0, to);
            return Ok(());
        }
    }
    spans.push((from, to))?;
    Ok(())
}

/// Adds the minutes from one up to another, of which there may be none, where the condition holds
/// at them.
pub(crate) fn note_stretch(
    spans: &mut Spans,
    from: u32,
    to: u32,
    holds: bool,
) -> Result<(), AllocError>
    ensures { OnOk result (spans.new.items
        ≡ (if holds && nat_lt from to then with_stretch spans.old.items from to
        else spans.old.items)) }
{
    let some = holds && from < to;
    if some {
        add_stretch(spans, from, to)?;
        return Ok(());
    }
    Ok(())
}

/// Adds a minute at which the alert is active, and no other.
pub(crate) fn note_minute(spans: &mut Spans, minute: u32, active: bool) -> Result<(), AllocError>
    requires { minute + 1 < 2 ^ 32 }
    ensures { OnOk result (spans.new.items
        ≡ (if active then with_minute spans.old.items minute else spans.old.items)) }
{
    if active {
        add_stretch(spans, minute, minute + 1)?;
        return Ok(());
    }
    Ok(())
}
