//! Scalars as they are written: fixed words, numbers and durations plain, every other text quoted.
ghost use Rattle.std.specs.Prelude.{◌≡◌, IfOk, codes, cond, decimal};
ghost use Rattle.yaml_terms.specs.Spelling.{word, quoted, spelled as spelled_def};
ghost use Rattle.yaml_terms.specs.SpellingView.{spelling_view};
ghost use Rattle.exact_fraction.specs.DecimalText.{decimal_text};
ghost use Rattle.slo_duration.specs.Writing.{duration_text};
ghost use Rattle.zone_calendar.specs.CivilText.{civil_text};

use exact_fraction::{Decimal, write_decimal};
use object_terms::FreePart;
use slo_duration::{Duration, write_duration};
use std::alloc::{AllocError, Global};
use yaml_terms::{ScalarText, Spelling};
use yaml_writing::spelled;
use zone_calendar::{Civil, write_civil};

/// A text that is written plain.
pub(crate) fn plain(alloc: Global, text: &str) -> Result<Spelling, AllocError>
    ensures { IfOk result (λ s. spelling_view s ≡ word text.now) }
{
    Ok(Spelling::Word(ScalarText::of(Vec::from_slice(alloc, text.as_bytes())?)))
}

/// A text that is written in double quotes.
pub(crate) fn in_quotes(alloc: Global, text: &[u8]) -> Result<Spelling, AllocError>
    ensures { IfOk result (λ s. spelling_view s ≡ quoted text.now) }
{
    Ok(Spelling::Quoted(ScalarText::of(Vec::from_slice(alloc, text)?)))
}

/// A boolean.
pub(crate) fn boolean(alloc: Global, value: bool) -> Result<Spelling, AllocError>
    ensures { IfOk result (λ s. spelling_view s
        ≡ word (cond value (codes "true") (codes "false"))) }
{
    if value {
        plain(alloc, "true")
    } else {
        plain(alloc, "false")
    }
}

/// A decimal.
pub(crate) fn number(alloc: Global, value: Decimal) -> Result<Spelling, AllocError>
    ensures { IfOk result (λ s. spelling_view s ≡ word (decimal_text value)) }
{
    let mut text = Vec::new(alloc);
    write_decimal(&mut text, value)?;
    Ok(Spelling::Word(ScalarText::of(text)))
}

/// A number of minutes, in digits.
pub(crate) fn minutes(alloc: Global, value: u32) -> Result<Spelling, AllocError>
    ensures { IfOk result (λ s. spelling_view s ≡ word (decimal value)) }
{
    let text = format!(in alloc; "{value}")?;
    plain(alloc, text.as_str())
}

/// A duration.
pub(crate) fn duration(alloc: Global, value: Duration) -> Result<Spelling, AllocError>
    ensures { IfOk result (λ s. spelling_view s ≡ word (duration_text value)) }
{
    let mut text = Vec::new(alloc);
    write_duration(alloc, &mut text, value)?;
    Ok(Spelling::Word(ScalarText::of(text)))
}

/// A civil moment.
pub(crate) fn moment(alloc: Global, value: Civil) -> Result<Spelling, AllocError>
    ensures { IfOk result (λ s. spelling_view s ≡ quoted (civil_text value)) }
{
    let mut text = Vec::new(alloc);
    write_civil(&mut text, value)?;
    Ok(Spelling::Quoted(ScalarText::of(text)))
}

/// A free part, as it was written.
pub(crate) fn free(alloc: Global, value: &FreePart) -> Result<Spelling, AllocError>
    ensures { IfOk result (λ s. spelling_view s ≡ spelled_def value.now) }
{
    spelled(alloc, value.node())
}
