//! What is heard of messages at the corners of their form and their limits, and in pieces. A row
//! says by its first word what is told of a message. In a message `|` is a line feed, and `~` a
//! byte that is no character.
use crate::rows::{expect_row, message_of, number_of};
use message_heads::{Heard, Hearing, hear, read_request};
use std::alloc::{AllocError, Global};
use std::process::Abort;

/// The status of a bad message, 200 for a whole one, 100 where more has to come.
fn status(bytes: &[u8]) -> u16 {
    match read_request(bytes) {
        Heard::Whole(_, _) => 200,
        Heard::Bad(status) => status,
        Heard::More => 100,
    }
}

fn status_text(alloc: Global, bytes: &[u8]) -> Result<String, AllocError> {
    let status = status(bytes);
    format!(in alloc; "{status}")
}

/// `front`, so many times `part`, and `back`.
fn repeated(
    alloc: Global,
    front: &[u8],
    part: &[u8],
    count: usize,
    back: &[u8],
) -> Result<Vec<u8>, AllocError> {
    let mut bytes = Vec::new(alloc);
    bytes.extend_from_slice(front)?;
    for _ in 0..count {
        bytes.extend_from_slice(part)?;
    }
    bytes.extend_from_slice(back)?;
    Ok(bytes)
}

/// The status of a message.
fn heard(alloc: Global, text: &str) -> Result<String, AllocError> {
    status_text(alloc, &message_of(alloc, text)?)
}

/// The status of a head with so many fields of four bytes, and what stands behind them.
fn fields(alloc: Global, text: &str) -> Result<String, AllocError> {
    let (count, back) = text.split_once(' ').unwrap_or((text, ""));
    let back = message_of(alloc, back)?;
    let front = b"GET / HTTP/1.1\r\n";
    let bytes = repeated(alloc, front, b"a:b\n", number_of(count), &back)?;
    status_text(alloc, &bytes)
}

/// The length and the status of a message whose target has so many bytes.
fn target(alloc: Global, count: &str) -> Result<String, AllocError> {
    let count = number_of(count).saturating_sub(1);
    let bytes = repeated(alloc, b"GET /", b"x", count, b" HTTP/1.1\n\n")?;
    let (length, status) = (bytes.len(), status(&bytes));
    format!(in alloc; "{length} {status}")
}

/// Whether a whole message closes its connection.
fn closes(alloc: Global, text: &str) -> Result<String, AllocError> {
    let bytes = message_of(alloc, text)?;
    let told = match read_request(&bytes) {
        Heard::Whole(message, length) if length == bytes.len() => {
            if message.close { "closes" } else { "stays" }
        }
        _ => "not whole",
    };
    String::from_str(alloc, told)
}

/// How often a reader has to hear a message that comes in such pieces, and the place of its body.
fn hear_in_pieces(bytes: &[u8], piece: usize) -> (u32, (u32, u32)) {
    let mut calls = 0u32;
    let mut wanted = 1;
    for pieces in 1..bytes.len() + 1 {
        let came = pieces.saturating_mul(piece).min(bytes.len());
        if came >= wanted {
            calls = calls.saturating_add(1);
            match hear(&bytes[..came]) {
                Hearing::Whole(message, _) => return (calls, message.body),
                Hearing::Bad(_) => return (calls, (0, 0)),
                Hearing::More(needed) => wanted = needed,
            }
        }
    }
    (calls, (0, 0))
}

/// The same of a message with a body of 70,000 bytes.
fn long_body(alloc: Global, piece: &str) -> Result<String, AllocError> {
    let head = b"POST /samples HTTP/1.1\r\nContent-Length: 70000\r\n\r\n";
    let bytes = repeated(alloc, head, b"0123456789", 7_000, b"")?;
    let (calls, (from, to)) = hear_in_pieces(&bytes, number_of(piece));
    format!(in alloc; "{calls} calls, {from} to {to}")
}

/// What comes of a row.
fn told(alloc: Global, row: &str) -> Result<String, AllocError> {
    let (verb, text) = row.split_once(' ').unwrap_or((row, ""));
    match verb {
        "hear" => heard(alloc, text),
        "fields" => fields(alloc, text),
        "target" => target(alloc, text),
        "close" => closes(alloc, text),
        _ => long_body(alloc, text),
    }
}

/// Holds what comes of each row to what is wanted.
fn play(rt: &(impl AllocGlobal + Abort), rows: &str) {
    for line in rows.lines() {
        let (row, wanted) = line.split_once(" => ").expect(rt, "what is wanted");
        let told = told(rt.alloc(), row).expect(rt, "memory");
        expect_row(rt, row, &told, wanted);
    }
}

#[test]
fn each_message_has_its_status(rt: HostRuntime) {
    let rows = "\
hear => 100
hear \r| => 100
hear \0 => 400
hear GET / HTTP/1.1\r|\r| => 200
hear GET / HTTP/1.1\r|\r => 100
hear GET / HTTP/1.0|| => 200
hear GET / HTTP/2.0\r|\r| => 400
hear GET /~ HTTP/1.1\r| => 400
hear GET / HTTP/1.1\r|Content-Length: 5\r|Content-Length: 5\r|\r| => 400
hear GET / HTTP/1.1\r|Content-Length: +5\r|\r| => 400
hear GET / HTTP/1.1\r|Content-Length: 00000000000000000005\r|\r| => 400
hear GET / HTTP/1.1\r|Content-Length:\r|\r| => 400
hear GET / HTTP/1.1\r|Content-Length: 0000000000000000000\r|\r| => 200
hear GET / HTTP/1.1\r|Transfer-Encoding: chunked\r|\r| => 501
hear GET / HTTP/1.1\r|Transfer-Encoding:\r|\r| => 501
hear GET / HTTP/1.1\r|Transfer-Encoding: chunked\r|Content-Length: x\r|\r| => 400
hear GET / HTTP/1.1\r|transfer-encoding: a\r|content-length: 1048577\r|\r| => 501
hear GET / HTTP/1.1\r|Content-Length: 1048577\r|\r| => 413
hear GET / HTTP/1.1\r|Content-Length: 9999999999999999999\r|\r| => 413
hear GET / HTTP/1.1\r|Content-Length: 1048576\r|\r| => 100
hear GET / HTTP/1.1\r|CONTENT-LENGTH: 5\r|\r|hell => 100
hear GET / HTTP/1.1\r|Content-Length: 05\r|\r|hello more => 200";
    play(&rt, rows);
}

/// The line and its end have 16 bytes: with 2,043 fields they are 8,188.
#[test]
fn heads_end_at_their_limits(rt: HostRuntime) {
    let rows = "\
fields 64 \r| => 200
fields 65 \r| => 431
fields 65 => 100
fields 65 \0 => 400
fields 2043 xyz => 100
fields 2043 xyzz => 431
fields 2043 xyz\0 => 431
fields 2043 xy\0z => 400
fields 63 b:|| => 200";
    play(&rt, rows);
}

#[test]
fn a_head_of_8192_bytes_is_whole(rt: HostRuntime) {
    let rows = "\
target 8177 => 8192 200
target 8178 => 8193 431";
    play(&rt, rows);
}

#[test]
fn connections_close_as_they_say(rt: HostRuntime) {
    let rows = "\
close GET / HTTP/1.1\r|\r| => stays
close GET / HTTP/1.0\r|Connection: keep-alive\r|\r| => closes
close GET / HTTP/1.1\r|Connection: close\r|\r| => closes
close GET / HTTP/1.1\r|connection: upgrade ,\tCLOSE \r|\r| => closes
close GET / HTTP/1.1\r|Connection: close;q=1\r|\r| => stays
close GET / HTTP/1.1\r|Connection: a\r|Connection: close\r|\r| => closes
close GET / HTTP/1.1\r|Connections: close\r|\r| => stays";
    play(&rt, rows);
}

/// The head has 49 bytes.
#[test]
fn a_long_body_is_parsed_twice(rt: HostRuntime) {
    let rows = "\
pieces 1 => 50 calls, 49 to 70049
pieces 7 => 8 calls, 49 to 70049
pieces 4096 => 2 calls, 49 to 70049
pieces 100000 => 1 calls, 49 to 70049";
    play(&rt, rows);
}
