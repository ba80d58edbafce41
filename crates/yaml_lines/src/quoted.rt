//! Quoted scalars, byte by byte.

ghost use Rattle.std.specs.Prelude.{◌≡◌, ◌+◌, ◌^◌, ◌<◌, ◌≤◌, length, IfOk, IfSome, option_map};
ghost use Rattle.yaml_terms.specs.Quoted.{escaped_byte, quoted as quoted_def};
ghost use Rattle.yaml_lines.specs.Scan.{step_of as step_of_def, next_scan, inside, scan, scan_end};
ghost use Rattle.yaml_lines.specs.Scan.{scan_start};
ghost use Rattle.yaml_lines.specs.ScanView.{scan_view, quoted_view};

use crate::bytes::byte_at;
use std::alloc::{AllocError, Global};

/// A quoted scalar: its text, the bytes that it takes behind its first quote, and whether an escape
/// in it is none.
#[derive(Drop)]
pub(crate) struct Quoted {
    pub(crate) text: Vec<u8>,
    pub(crate) length: usize,
    pub(crate) bad: bool,
}

/// Where the reading of a quoted scalar stands.
#[derive(Clone, Copy, Drop)]
pub(crate) enum Place {
    Inside,
    /// Before the second byte of two that stand for one.
    Paired,
    Ended,
}

/// What a byte does inside a quoted scalar.
#[derive(Clone, Copy, Drop)]
pub(crate) enum Step {
    /// It ends the scalar.
    Stop,
    /// It stands for itself.
    One(u8),
    /// It and the next byte stand for one, or are no escape.
    Pair(Option<u8>),
}

/// A quoted scalar so far.
#[derive(Drop)]
pub(crate) struct Scan {
    pub(crate) place: Place,
    pub(crate) quoted: Quoted,
}

/// What stands for a byte behind a backslash.
pub(crate) fn escaped(byte: u8) -> Option<u8>
    ensures { result ≡ escaped_byte byte }
{
    if byte == b'\\' {
        Some(b'\\')
    } else if byte == b'"' {
        Some(b'"')
    } else if byte == b'n' {
        Some(b'\n')
    } else if byte == b't' {
        Some(b'\t')
    } else {
        None
    }
}

/// What a byte does between single quotes.
fn step_in_single(byte: u8, next: u8) -> Step
    ensures { result ≡ step_of_def 39 byte next }
{
    if byte == b'\'' {
        if next == b'\'' {
            Step::Pair(Some(b'\''))
        } else {
            Step::Stop
        }
    } else {
        Step::One(byte)
    }
}

/// What a byte does between quotes.
fn step_of(quote: u8, byte: u8, next: u8) -> Step
    ensures { result ≡ step_of_def quote byte next }
{
    if quote == b'\'' {
        step_in_single(byte, next)
    } else if byte == b'"' {
        Step::Stop
    } else if byte == b'\\' {
        Step::Pair(escaped(next))
    } else {
        Step::One(byte)
    }
}

/// One byte further inside the quotes.
fn advance(place: Place, mut quoted: Quoted, step: Step) -> Result<Scan, AllocError>
    requires { quoted.length < 2 ^ 63 }
    ensures value { IfOk result (λ s. scan_view s ≡ next_scan place (quoted_view quoted) step) }
    ensures length { IfOk result (λ s. s.quoted.length ≤ quoted.length + 1) }
{
    match place {
        Place::Ended => Ok(Scan { place, quoted }),
        Place::Paired => {
            quoted.length += 1;
            Ok(Scan {
                place: Place::Inside,
                quoted,
            })
        }
        Place::Inside => advance_inside(quoted, step),
    }
}

/// The same where the byte isn't the second of two.
fn advance_inside(mut quoted: Quoted, step: Step) -> Result<Scan, AllocError>
    requires { quoted.length < 2 ^ 63 }
    ensures value { IfOk result (λ s. scan_view s ≡ inside (quoted_view quoted) step) }
    ensures length { IfOk result (λ s. s.quoted.length ≤ quoted.length + 1) }
{
    quoted.length += 1;
    match step {
        Step::Stop => Ok(Scan {
            place: Place::Ended,
            quoted,
        }),
        Step::One(byte) => {
            quoted.text.push(byte)?;
            Ok(Scan {
                place: Place::Inside,
                quoted,
            })
        }
        Step::Pair(Some(byte)) => {
            quoted.text.push(byte)?;
            Ok(Scan {
                place: Place::Paired,
                quoted,
            })
        }
        Step::Pair(None) => {
            quoted.bad = true;
            Ok(Scan {
                place: Place::Paired,
                quoted,
            })
        }
    }
}

/// Reads a quoted scalar behind its first quote: none where the line ends before the scalar.
#[tactic(auto, using(crate::proofs::ScanLemmas::scan_quoted))]
pub(crate) fn read_quoted(
    alloc: Global,
    quote: u8,
    bytes: &[u8],
) -> Result<Option<Quoted>, AllocError>
    ensures value { IfOk result (λ q. option_map quoted_view q ≡ quoted_def quote bytes.now) }
    ensures within { IfOk result (λ o. IfSome o (λ q. q.length ≤ length bytes.now)) }
{
    let scan = scan_all(alloc, quote, bytes)?;
    Ok(end_of(scan))
}

/// The scalar, where its last quote was met.
fn end_of(scan: Scan) -> Option<Quoted>
    ensures value { option_map quoted_view result ≡ scan_end (scan_view scan) }
    ensures within { IfSome result (λ q. q.length ≤ scan.quoted.length) }
{
    match scan.place {
        Place::Ended => Some(scan.quoted),
        _ => None,
    }
}

/// What is read after all bytes behind the first quote.
#[tactic(auto, using(crate::proofs::ScanLemmas::scan_more))]
fn scan_all(alloc: Global, quote: u8, bytes: &[u8]) -> Result<Scan, AllocError>
    ensures value { IfOk result (λ s. scan_view s ≡ scan quote scan_start bytes.now) }
    ensures within { IfOk result (λ s. s.quoted.length ≤ length bytes.now) }
{
    let mut scan = Scan {
        place: Place::Inside,
        quoted: Quoted {
            text: Vec::new(alloc),
            length: 0,
            bad: false,
        },
    };
    for at in 0..bytes.len() {
        let Scan { place, quoted } = scan;
        let step = step_of(quote, bytes[at], byte_at(bytes, at + 1));
        scan = advance(place, quoted, step)?;
    }
    Ok(scan)
}
