//! Reading a duration.
ghost use Rattle.std.specs.Prelude.{◌≡◌, ◌≤◌, length, Ok, true};
ghost use Rattle.std.specs.Char.{is_ascii_digit};
ghost use Rattle.std.specs.List.{prefix_len};
ghost use Rattle.exact_fraction.specs.Digits.{is_number, number_of};
ghost use Rattle.slo_duration.specs.Unit.{unit_of};
ghost use Rattle.slo_duration.specs.Reading.{duration_of, fitting};
ghost use Rattle.slo_duration.specs.Writing.{duration_text};
ghost use Rattle.slo_duration.specs.declared.duration.Duration.{Duration};

use crate::duration::MOST_MINUTES;
use crate::{Duration, Unit};
use exact_fraction::read_number;

/// Why a text is no duration, in the order in which the causes are tried.
#[derive(Clone, Copy, Debug, PartialEq, Eq)]
pub enum DurationFault {
    /// It has no bytes.
    Empty,
    /// Its first byte is no digit.
    BadNumber,
    /// What follows the digits isn't one letter of a unit.
    BadUnit,
    /// Its rolling minutes are above 4,294,967,295.
    TooLong,
}

/// Reads OpenSLO's shorthand: digits and one of the letters `m h d w M Q Y`. Leading zeros are
/// read.
///
/// # Errors
///
/// The first fault of the text. It takes no memory.
#[tactic(auto, unfolding(crate::specs::Reading::duration_of))]
pub fn read_duration(text: &[u8]) -> Result<Duration, DurationFault>
    ensures value { result ≡ duration_of text.now }
    ensures back { (value : Duration) → text.now ≡ duration_text value → result ≡ Ok value }
{
    if text.is_empty() {
        return Err(DurationFault::Empty);
    }
    let digits = leading_digits(text);
    if digits == 0 {
        return Err(DurationFault::BadNumber);
    }
    match read_unit(&text[digits..]) {
        Some(unit) => of_digits(&text[..digits], unit),
        None => Err(DurationFault::BadUnit),
    }
}

/// How many digits begin the text.
fn leading_digits(text: &[u8]) -> usize
    ensures value { result ≡ prefix_len is_ascii_digit text.now }
    ensures within { result ≤ length text.now }
{
    text.iter().take_while(|byte| byte.is_ascii_digit()).count()
}

fn read_unit(rest: &[u8]) -> Option<Unit>
    ensures { result ≡ unit_of rest.now }
{
    match rest {
        [letter] => Unit::of_letter(*letter),
        _ => None,
    }
}

fn of_digits(digits: &[u8], unit: Unit) -> Result<Duration, DurationFault>
    requires { is_number digits.now ≡ true }
    ensures { result ≡ fitting (number_of digits.now) unit }
{
    let Some(count) = read_number(digits, MOST_MINUTES) else {
        return Err(DurationFault::TooLong);
    };
    if count * unit.minutes() > MOST_MINUTES {
        return Err(DurationFault::TooLong);
    }
    Ok(Duration {
        count: count as u32,
        unit,
    })
}
