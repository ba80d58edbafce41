//! The keys of the routes that have any.
ghost use Rattle.std.specs.Prelude.{◌≡◌};
ghost use Rattle.wire_routes.specs.Keys.{budgets_keys, burns_keys, entries_keys, lookback_of};
ghost use Rattle.wire_routes.specs.Keys.{minute_or_none, stretch_keys, sums_keys};
ghost use Rattle.wire_routes.specs.Queries.{bytes_of};

use crate::cuts::read_number32;
use crate::query::read_query;
use slo_duration::{Duration, read_duration};

fn minute_or_none(digits: Option<&[u8]>) -> Option<Option<u32>>
    ensures { result ≡ minute_or_none (bytes_of digits.entry) }
{
    match digits {
        Some(digits) => match read_number32(digits) {
            Some(minute) => Some(Some(minute)),
            None => None,
        },
        None => Some(None),
    }
}

fn read_lookback(text: &[u8]) -> Option<Duration>
    ensures { result ≡ lookback_of text.now }
{
    match read_duration(text) {
        Ok(lookback) => Some(lookback),
        Err(_) => None,
    }
}

/// The key `at` of `/budgets`; none where the query isn't of that form.
pub(crate) fn budgets_keys(query: Option<&[u8]>) -> Option<Option<u32>>
    ensures { result ≡ budgets_keys (bytes_of query.entry) }
{
    let (at, _, _) = read_query(query, b"at", b"at", b"at")?;
    minute_or_none(at)
}

/// The keys `lookback` and `at` of `/burns`; none where the query isn't of that form.
pub(crate) fn burns_keys(query: Option<&[u8]>) -> Option<(Duration, Option<u32>)>
    ensures { result ≡ burns_keys (bytes_of query.entry) }
{
    let (lookback, at, _) = read_query(query, b"lookback", b"at", b"at")?;
    let lookback = read_lookback(lookback?)?;
    let at = minute_or_none(at)?;
    Some((lookback, at))
}

/// The keys `from` and `to` of `/alerts` and `/windows`; none where the query isn't of that form.
pub(crate) fn stretch_keys(query: Option<&[u8]>) -> Option<(u32, u32)>
    ensures { result ≡ stretch_keys (bytes_of query.entry) }
{
    let (from, to, _) = read_query(query, b"from", b"to", b"to")?;
    let from = read_number32(from?)?;
    let to = read_number32(to?)?;
    Some((from, to))
}

/// The key `from` of `/entries`; none where the query isn't of that form.
pub(crate) fn entries_keys(query: Option<&[u8]>) -> Option<u32>
    ensures { result ≡ entries_keys (bytes_of query.entry) }
{
    let (from, _, _) = read_query(query, b"from", b"from", b"from")?;
    read_number32(from?)
}

/// The keys `from`, `to` and `step` of `/sums`; none where the query isn't of that form.
pub(crate) fn sums_keys(query: Option<&[u8]>) -> Option<(u32, u32, u32)>
    ensures { result ≡ sums_keys (bytes_of query.entry) }
{
    let (from, to, step) = read_query(query, b"from", b"to", b"step")?;
    let from = read_number32(from?)?;
    let to = read_number32(to?)?;
    let step = read_number32(step?)?;
    Some((from, to, step))
}
