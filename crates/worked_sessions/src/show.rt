//! Answers and files as lines of text.

use crate::series::push_replaced;
use std::alloc::{AllocError, Global};
use std::str;

/// The most bytes of a feed that are shown.
const MOST_SHOWN: usize = 100;

/// What each answer begins with.
const BEGIN: &str = "HTTP/1.1 ";

/// What stands between an answer's head and its body.
const BLANK: &str = "\r\n\r\n";

/// Bytes as a text that has a letter for each of them.
fn letters_of(alloc: Global, bytes: &[u8]) -> Result<String, AllocError> {
    let mut text = String::new(alloc);
    for byte in bytes {
        text.push(*byte as char)?;
    }
    Ok(text)
}

/// Appends a line of an answer, or a text that is none as it stands.
fn push_answer(alloc: Global, out: &mut String, answer: &str) -> Result<(), AllocError> {
    let Some((head, body)) = answer.split_once(BLANK) else {
        return out.push_str(answer);
    };
    push_head(out, head)?;
    push_body(alloc, out, head, body)?;
    out.push('\n')
}

/// Appends the answers that a text holds.
fn push_answers(alloc: Global, out: &mut String, text: &str) -> Result<(), AllocError> {
    for answer in text.split(BEGIN) {
        push_answer(alloc, out, answer)?;
    }
    Ok(())
}

/// Appends the answers that an output holds, a line each: the status, `close` where the answer
/// closes, the methods where it names them, and the body.
pub fn show_answers(alloc: Global, out: &mut String, bytes: &[u8]) -> Result<(), AllocError> {
    let text = letters_of(alloc, bytes)?;
    push_answers(alloc, out, text.as_str())
}

/// How many answers a text holds, and how many of them are 200.
fn counts_in(text: &str) -> (u32, u32) {
    let mut count = 0u32;
    let mut fine = 0u32;
    for answer in text.split(BEGIN) {
        count = count.saturating_add(u32::from(answer.contains(BLANK)));
        fine = fine.saturating_add(u32::from(answer.starts_with("200 ")));
    }
    (count, fine)
}

/// Appends how many answers a text holds, and how many of them are 200.
fn push_counts(alloc: Global, out: &mut String, text: &str) -> Result<(), AllocError> {
    let (count, fine) = counts_in(text);
    let line = format!(in alloc; "{count} answers, {fine} of them 200, the last one:\n")?;
    out.push_str(line.as_str())
}

/// The head and the body of the last answer that a text holds.
fn last_of(text: &str) -> Option<(&str, &str)> {
    let (_, last) = text.rsplit_once(BEGIN)?;
    last.split_once(BLANK)
}

/// Appends the last answer that a text holds, as a line.
fn push_last(out: &mut String, text: &str) -> Result<(), AllocError> {
    if let Some((head, body)) = last_of(text) {
        push_head(out, head)?;
        out.push_str(body)?;
    }
    out.push('\n')
}

/// Appends how many answers an output holds, how many of them are 200, and the last one.
pub fn show_count(alloc: Global, out: &mut String, bytes: &[u8]) -> Result<(), AllocError> {
    let text = str::from_utf8(bytes).unwrap_or("");
    push_counts(alloc, out, text)?;
    push_last(out, text)
}

/// Appends the status of a head.
fn push_status(out: &mut String, head: &str) -> Result<(), AllocError> {
    if let Some((status, _)) = head.split_once(" ") {
        out.push_str(status)?;
        out.push(' ')?;
    }
    Ok(())
}

/// The methods that a head names.
fn methods_in(head: &str) -> Option<&str> {
    let (_, rest) = head.split_once("Allow: ")?;
    let (methods, _) = rest.split_once("\r\n")?;
    Some(methods)
}

/// Appends what a line tells of an answer's head.
fn push_head(out: &mut String, head: &str) -> Result<(), AllocError> {
    push_status(out, head)?;
    if head.contains("Connection: close") {
        out.push_str("close ")?;
    }
    if let Some(methods) = methods_in(head) {
        out.push_str(methods)?;
        out.push(' ')?;
    }
    Ok(())
}

/// Appends a byte in digits of 16.
fn push_byte(alloc: Global, out: &mut String, byte: u8) -> Result<(), AllocError> {
    let digits = format!(in alloc; "{byte:02x}")?;
    out.push_str(digits.as_str())
}

/// The byte of a letter.
fn byte_of(letter: char) -> u8 {
    (letter as u32 % 256) as u8
}

/// Appends a feed's bytes in digits of 16.
fn push_feed(alloc: Global, out: &mut String, body: &str) -> Result<(), AllocError> {
    for letter in body.chars() {
        push_byte(alloc, out, byte_of(letter))?;
    }
    Ok(())
}

/// Appends how many bytes a feed has.
fn push_length(alloc: Global, out: &mut String, count: usize) -> Result<(), AllocError> {
    let told = format!(in alloc; "{count} bytes")?;
    out.push_str(told.as_str())
}

/// Appends an answer's body: of a feed its bytes in digits of 16, or how many there are.
fn push_body(alloc: Global, out: &mut String, head: &str, body: &str) -> Result<(), AllocError> {
    if !head.contains("application/octet-stream") {
        return out.push_str(body);
    }
    let count = body.chars().count();
    if count > MOST_SHOWN {
        push_length(alloc, out, count)
    } else {
        push_feed(alloc, out, body)
    }
}

/// Appends the bytes of letters.
fn push_letters(out: &mut Vec<u8>, letters: &str) -> Result<(), AllocError> {
    for letter in letters.chars() {
        out.push(byte_of(letter))?;
    }
    Ok(())
}

/// Appends the body of the last answer that an output holds.
pub fn push_last_body(alloc: Global, out: &mut Vec<u8>, bytes: &[u8]) -> Result<(), AllocError> {
    let text = letters_of(alloc, bytes)?;
    match last_of(text.as_str()) {
        Some((_, letters)) => push_letters(out, letters),
        None => Ok(()),
    }
}

/// Appends the answers with their whole heads, without the carriage returns.
pub fn show_whole(out: &mut String, bytes: &[u8]) -> Result<(), AllocError> {
    let text = str::from_utf8(bytes).unwrap_or("");
    push_replaced(out, text, "\r\n", "\n")?;
    out.push('\n')
}

/// Appends bytes in hex.
pub fn show_file(alloc: Global, out: &mut String, bytes: &[u8]) -> Result<(), AllocError> {
    for byte in bytes {
        push_byte(alloc, out, *byte)?;
    }
    out.push('\n')
}

/// The last answer that an output holds, or all of it where it holds none.
pub fn last_answer(alloc: Global, bytes: &[u8]) -> Result<String, AllocError> {
    let text = letters_of(alloc, bytes)?;
    match text.as_str().rsplit_once(BEGIN) {
        Some((_, last)) => String::from_str(alloc, last),
        None => Ok(text),
    }
}
