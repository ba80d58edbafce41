//! Requests, and texts that are repeated with one number after another.

use std::alloc::{AllocError, Global};

/// Appends a text in which `@` stands for these digits, and `\` for a line's end.
fn push_with(out: &mut String, text: &str, digits: &str) -> Result<(), AllocError> {
    for (place, part) in text.split("@").enumerate() {
        if place > 0 {
            out.push_str(digits)?;
        }
        push_lines(out, part, "\n")?;
    }
    Ok(())
}

/// Appends a text in which `@` stands for the number, and `\` for a line's end.
fn push_numbered(
    alloc: Global,
    out: &mut String,
    text: &str,
    number: u32,
) -> Result<(), AllocError> {
    let digits = format!(in alloc; "{number}")?;
    push_with(out, text, digits.as_str())
}

/// A text in which `@` stands for the number, and `\` for a line's end.
fn numbered(alloc: Global, text: &str, number: u32) -> Result<String, AllocError> {
    let mut out = String::new(alloc);
    push_numbered(alloc, &mut out, text, number)?;
    Ok(out)
}

/// Appends a text with another one in the place of each mark.
pub fn push_replaced(
    out: &mut String,
    text: &str,
    mark: &str,
    other: &str,
) -> Result<(), AllocError> {
    for (place, part) in text.split(mark).enumerate() {
        if place > 0 {
            out.push_str(other)?;
        }
        out.push_str(part)?;
    }
    Ok(())
}

/// Appends a text in which `\` stands for a line's end, which is this one.
pub fn push_lines(out: &mut String, text: &str, end: &str) -> Result<(), AllocError> {
    push_replaced(out, text, "\\", end)
}

/// Appends a line for each of so many numbers from the first on, as in `1 3 - name-@`.
pub fn push_series(alloc: Global, body: &mut String, line: &str) -> Result<(), AllocError> {
    let Some((first, rest)) = line.split_once(" ") else {
        return Ok(());
    };
    let Some((count, text)) = rest.split_once(" ") else {
        return Ok(());
    };
    let first = first.parse::<u32>().unwrap_or(0);
    for place in 0..count.parse::<u32>().unwrap_or(0) {
        push_numbered(alloc, body, text, first.saturating_add(place))?;
        body.push('\n')?;
    }
    Ok(())
}

/// Appends a request with the length of its body.
pub fn push_request(
    alloc: Global,
    input: &mut Vec<u8>,
    request: &str,
    body: &str,
) -> Result<(), AllocError> {
    let length = body.len();
    let message = format!(in alloc;
        "{request} HTTP/1.1\r\nContent-Length: {length}\r\n\r\n{body}"
    )?;
    input.extend_from_slice(message.as_bytes())
}

/// Appends a request with the number in the place of each `@`.
fn push_numbered_request(
    alloc: Global,
    input: &mut Vec<u8>,
    request: &str,
    body: &str,
    number: u32,
) -> Result<(), AllocError> {
    let line = numbered(alloc, request, number)?;
    let text = numbered(alloc, body, number)?;
    push_request(alloc, input, line.as_str(), text.as_str())
}

/// Appends a request for each of so many numbers from the first on, in the place of each `@`.
pub fn push_requests(
    alloc: Global,
    input: &mut Vec<u8>,
    request: &str,
    body: &str,
    numbers: (u32, u32),
) -> Result<(), AllocError> {
    let (first, count) = numbers;
    for place in 0..count {
        push_numbered_request(alloc, input, request, body, first.saturating_add(place))?;
    }
    Ok(())
}
