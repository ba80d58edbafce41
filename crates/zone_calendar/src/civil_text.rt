//! Reading a civil moment.
ghost use Rattle.std.specs.Prelude.{◌≡◌, ◌<◌, ◌+◌, ◌++◌, length, true, false, IfSome, IfNone, Some};
ghost use Rattle.std.specs.Prelude.{OnOk, OnErr};
ghost use Rattle.zone_calendar.specs.CivilText.{civil_text, two_digits as two_digits_def, parts_of};
ghost use Rattle.zone_calendar.specs.CivilText.{two_at, has_form, parts_in, is_moment};
ghost use Rattle.zone_calendar.specs.declared.civil.Civil.{Civil};

use crate::Civil;
use jiff_core::civil::days_in_month;
use std::alloc::AllocError;

/// The numbers of a text that has the form of a moment.
#[derive(Clone, Copy)]
pub(crate) struct Parts {
    year: u16,
    month: u8,
    day: u8,
    hour: u8,
    minute: u8,
    second: u8,
}

/// Reads a moment as `2020-01-21 12:30:00`.
///
/// `None` where the text hasn't this form, or isn't a real date of the years 1971 to 2097 with a
/// real time. It takes no memory.
pub fn read_civil(text: &[u8]) -> Option<Civil>
    ensures read { IfSome result (λ moment. text.now ≡ civil_text moment) }
    ensures all { (moment : Civil) → text.now ≡ civil_text moment → result ≡ Some moment }
{
    moment_of(read_parts(text)?)
}

/// Appends a moment as `2020-01-21 12:30:00`: the one text that is read as it.
///
/// # Errors
///
/// Memory ran out; `out` is as before.
pub fn write_civil(out: &mut Vec<u8>, moment: Civil) -> Result<(), AllocError>
    ensures written { OnOk result (out.new.items ≡ out.old.items ++ civil_text moment) }
    ensures kept { OnErr result (out.new.items ≡ out.old.items) }
{
    let year = moment.year.unsigned_abs();
    let mut text = Vec::new(*out.allocator());
    write_two(&mut text, (year / 100) as u8)?;
    write_two(&mut text, (year % 100) as u8)?;
    text.push(b'-')?;
    write_two(&mut text, moment.month)?;
    text.push(b'-')?;
    write_two(&mut text, moment.day)?;
    text.push(b' ')?;
    write_two(&mut text, moment.hour)?;
    text.push(b':')?;
    write_two(&mut text, moment.minute)?;
    text.push(b':')?;
    write_two(&mut text, moment.second)?;
    out.extend_from_slice(text.as_slice())
}

/// Appends a number in two digits.
fn write_two(out: &mut Vec<u8>, number: u8) -> Result<(), AllocError>
    requires { number < 100 }
    ensures { OnOk result (out.new.items ≡ out.old.items ++ two_digits_def number) }
{
    out.push(b'0' + number / 10)?;
    Ok(out.push(b'0' + number % 10)?)
}

fn read_parts(text: &[u8]) -> Option<Parts>
    ensures { result ≡ parts_in text.now }
{
    if !is_laid_out(text) {
        return None;
    }
    let century = u16::from(two_digits(text, 0)?);
    let year = century * 100 + u16::from(two_digits(text, 2)?);
    let month = two_digits(text, 5)?;
    let day = two_digits(text, 8)?;
    let hour = two_digits(text, 11)?;
    let minute = two_digits(text, 14)?;
    let second = two_digits(text, 17)?;
    Some(Parts {
        year,
        month,
        day,
        hour,
        minute,
        second,
    })
}

/// Whether the text has the length and the marks of a moment.
fn is_laid_out(text: &[u8]) -> bool
    ensures value { result ≡ has_form text.now }
    ensures length { result ≡ true → length text.now ≡ 19 }
{
    text.len() == 19
        && text[4] == b'-'
        && text[7] == b'-'
        && text[10] == b' '
        && text[13] == b':'
        && text[16] == b':'
}

/// The number of two digits at that place.
fn two_digits(text: &[u8], at: usize) -> Option<u8>
    requires { at + 1 < length text.now }
    ensures value { result ≡ two_at text.now at }
    ensures bound { IfSome result (λ number. number < 100) }
{
    let (tens, ones) = (text[at], text[at + 1]);
    if tens.is_ascii_digit() && ones.is_ascii_digit() {
        Some((tens - b'0') * 10 + (ones - b'0'))
    } else {
        None
    }
}

/// The moment with these numbers, if there is one in range.
fn moment_of(parts: Parts) -> Option<Civil>
    ensures some { IfSome result (λ moment. parts_of moment ≡ parts) }
    ensures none { IfNone result (is_moment parts ≡ false) }
{
    if is_real(parts) {
        Some(Civil {
            year: parts.year as i16,
            month: parts.month,
            day: parts.day,
            hour: parts.hour,
            minute: parts.minute,
            second: parts.second,
        })
    } else {
        None
    }
}

fn is_real(parts: Parts) -> bool
    ensures { result ≡ is_moment parts }
{
    let year_is_in = parts.year >= 1971 && parts.year <= 2097;
    let month_is_in = parts.month >= 1 && parts.month <= 12;
    year_is_in
        && month_is_in
        && parts.day >= 1
        && parts.day <= days_in_month(parts.year as i16, parts.month)
        && parts.hour < 24
        && parts.minute < 60
        && parts.second < 60
}
