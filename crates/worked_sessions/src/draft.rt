//! The input of the next run, as the script makes it.

use crate::sampling::push_stream;
use crate::series::{push_lines, push_request, push_requests, push_series};
use std::alloc::{AllocError, Global};
use std::str;

/// The requests so far, and the one that is being made.
#[derive(Drop)]
pub struct Draft {
    alloc: Global,
    request: String,
    body: String,
    times: Option<(u32, u32)>,
    input: Vec<u8>,
}

/// Appends a text in which `\` stands for a line's end.
fn push_raw(alloc: Global, input: &mut Vec<u8>, text: &str) -> Result<(), AllocError> {
    let mut lines = String::new(alloc);
    push_lines(&mut lines, text, "\r\n")?;
    input.extend_from_slice(lines.as_bytes())
}

/// Appends the bytes that pairs of digits of 16 spell.
fn push_pairs(input: &mut Vec<u8>, digits: &str) -> Result<(), AllocError> {
    for pair in digits.as_bytes().chunks_exact(2) {
        let pair = str::from_utf8(pair).unwrap_or("");
        input.push(u8::from_str_radix(pair, 16).unwrap_or(0))?;
    }
    Ok(())
}

/// Appends the bytes of groups of such pairs.
fn push_bytes(input: &mut Vec<u8>, line: &str) -> Result<(), AllocError> {
    for digits in line.split_ascii_whitespace() {
        push_pairs(input, digits)?;
    }
    Ok(())
}

/// Appends a text as often as the number before it says.
fn push_many(alloc: Global, input: &mut Vec<u8>, line: &str) -> Result<(), AllocError> {
    if let Some((number, text)) = line.split_once(" ") {
        for _ in 0..number.parse::<u32>().unwrap_or(0) {
            push_raw(alloc, input, text)?;
        }
    }
    Ok(())
}

/// The two numbers of a line.
fn two_numbers(line: &str) -> Option<(u32, u32)> {
    let (first, second) = line.split_once(" ")?;
    Some((first.parse::<u32>().ok()?, second.parse::<u32>().ok()?))
}

impl Draft {
    /// A draft of nothing.
    pub fn new(alloc: Global) -> Draft {
        Draft {
            alloc,
            request: String::new(alloc),
            body: String::new(alloc),
            times: None,
            input: Vec::new(alloc),
        }
    }

    /// What the next run reads.
    pub fn input(&self) -> &[u8] {
        &self.input
    }

    /// Lets go of what was read.
    pub fn clear(&mut self) {
        self.input.clear();
    }

    /// Takes the requests so far out.
    pub fn take(&mut self) -> Result<Vec<u8>, AllocError> {
        let bytes = self.input.to_vec(self.alloc)?;
        self.input.clear();
        Ok(bytes)
    }

    /// Sends the next request for each of so many numbers, as in `1 3`.
    pub fn repeat(&mut self, numbers: &str) {
        self.times = two_numbers(numbers);
    }

    /// A line of a body.
    pub fn add_line(&mut self, text: &str) -> Result<(), AllocError> {
        self.body.push_str(text)?;
        self.body.push('\n')
    }

    /// Lines of samples, as in `1 3`.
    pub fn add_rows(&mut self, numbers: &str) -> Result<(), AllocError> {
        let line = format!(in self.alloc; "{numbers} shop-good,web,@,1,1,1")?;
        push_series(self.alloc, &mut self.body, line.as_str())
    }

    /// Lines of a series, as in `1 3 - name-@`.
    pub fn add_series(&mut self, series: &str) -> Result<(), AllocError> {
        push_series(self.alloc, &mut self.body, series)
    }

    /// These bytes.
    pub fn send_bytes(&mut self, bytes: &[u8]) -> Result<(), AllocError> {
        self.input.extend_from_slice(bytes)
    }

    /// Sends a request line, or the bytes that stand behind `raw`, where `\` is a line's end, or
    /// behind `bytes`, in digits of 16, or the sample stream of a number.
    pub fn send(&mut self, text: &str) -> Result<(), AllocError> {
        let (word, rest) = text.split_once(" ").unwrap_or((text, ""));
        match word {
            "raw" => push_raw(self.alloc, &mut self.input, rest),
            "many" => push_many(self.alloc, &mut self.input, rest),
            "stream" => push_stream(self.alloc, &mut self.input, rest),
            "bytes" => push_bytes(&mut self.input, rest),
            _ => self.request.push_str(text),
        }
    }

    /// Appends the request that is being made to the input, with the length of its body, as often
    /// as a line `times` says. Lines of a body without a request are the input itself.
    pub fn end_request(&mut self) -> Result<(), AllocError> {
        let ended = self.push_draft();
        self.request.clear();
        self.body.clear();
        ended
    }

    /// Appends the request to the input.
    fn push_draft(&mut self) -> Result<(), AllocError> {
        let request = self.request.as_str();
        let body = self.body.as_str();
        if request.is_empty() {
            return self.input.extend_from_slice(body.as_bytes());
        }
        match self.times.take() {
            Some(numbers) => push_requests(self.alloc, &mut self.input, request, body, numbers),
            None => push_request(self.alloc, &mut self.input, request, body),
        }
    }
}
