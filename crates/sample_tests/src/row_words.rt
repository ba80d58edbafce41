//! The words of a row of text. Cases stand in texts, since the proof of a test costs by its
//! literals.
ghost use Rattle.std.specs.Prelude.{◌≤◌};

use exact_fraction::read_number;
use std::process::Abort;

/// A word as a number of at most so much.
pub(crate) fn number<R: Abort>(rt: &R, word: Option<&str>, most: u64) -> u64
    ensures { result ≤ most }
{
    let digits = word.expect(rt, "a number");
    read_number(digits.as_bytes(), most).expect(rt, digits)
}
