//! The zone of some bytes.
ghost use Rattle.std.specs.Prelude.{◌≡◌, ◌≢◌, Some, None, Err, IfOk, false};
ghost use Rattle.std.specs.Str.{is_utf8};
ghost use Rattle.jiff_tz.specs.TzifReader.{read_tzif};
ghost use Rattle.zone_calendar.specs.ZoneBytes.{zone_of, table_of, rule_of, rule_bytes};
ghost use Rattle.zone_calendar.specs.ZoneBytes.{is_zone_file};

use crate::Zone;
use crate::zone::Kind;
use jiff_core::Error;
use jiff_tz::{Tzif, posix};
use std::alloc::Global;
use std::str;

/// Why some bytes gave no zone.
#[derive(Clone, Copy, Debug, PartialEq, Eq)]
pub enum ZoneFault {
    /// They are no zone file and no rule.
    BadZone,
    /// Memory ran out while the table of a zone file was made. A rule takes none.
    NoMemory,
}

/// Reads a zone file (RFC 9636) where the bytes begin with `TZif`, else a rule of POSIX TZ with an
/// optional line feed at its end.
///
/// # Errors
///
/// `BadZone` where the bytes have no zone; `NoMemory` may come in its place at a zone file.
pub fn read_zone(alloc: Global, bytes: &[u8]) -> Result<Zone, ZoneFault>
    ensures ok { IfOk result (λ zone. zone_of bytes.now ≡ Some zone) }
    ensures bad { result ≡ Err ZoneFault.BadZone → zone_of bytes.now ≡ None }
    ensures rule { is_zone_file bytes.now ≡ false → result ≢ Err ZoneFault.NoMemory }
{
    if bytes.starts_with(b"TZif") {
        return read_table(alloc, bytes);
    }
    match read_rule(bytes) {
        Some(zone) => Ok(zone),
        None => Err(ZoneFault::BadZone),
    }
}

fn read_table(alloc: Global, bytes: &[u8]) -> Result<Zone, ZoneFault>
    ensures ok { IfOk result (λ zone. table_of (read_tzif bytes.now) ≡ Some zone) }
    ensures bad { result ≡ Err ZoneFault.BadZone → table_of (read_tzif bytes.now) ≡ None }
{
    match Tzif::parse(alloc, None, bytes) {
        Ok(table) => Ok(Zone::of(Kind::Table(table))),
        Err(error) => Err(fault_of(error)),
    }
}

fn fault_of(error: Error) -> ZoneFault
    ensures { result ≡ ZoneFault.BadZone → error ≢ Error.OutOfMemory }
{
    match error {
        Error::OutOfMemory => ZoneFault::NoMemory,
        _ => ZoneFault::BadZone,
    }
}

fn read_rule(bytes: &[u8]) -> Option<Zone>
    ensures { result ≡ rule_of bytes.now }
{
    if !is_text(bytes) {
        return None;
    }
    match posix::TimeZone::parse(without_line_feed(bytes)) {
        Ok(rule) => Some(Zone::of(Kind::Rule(rule))),
        Err(_) => None,
    }
}

fn is_text(bytes: &[u8]) -> bool
    ensures { result ≡ is_utf8 bytes.now }
{
    str::from_utf8(bytes).is_ok()
}

fn without_line_feed(bytes: &[u8]) -> &[u8]
    ensures { result.now ≡ rule_bytes bytes.now }
{
    bytes.strip_suffix(b"\n").unwrap_or(bytes)
}
