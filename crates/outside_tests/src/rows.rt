//! What the tables of these tests have in common. A table is one text, since a proof of a test
//! costs by its literals: a row has a text, ` => ` and what is wanted.
use office_doors::{MemoryVisit, Visit};
use office_outside::{MemoryClock, MemorySink, MemorySource, Plan};
use std::alloc::{AllocError, Global};
use std::process::Abort;

/// Ends the test, with the case, unless it is right. Each assertion, and each text printed in it,
/// costs a proof of its own, so they stand here once for all tests.
pub(crate) fn expect(rt: &impl Abort, is_right: bool, case: &str) {
    assert!(rt; is_right, "{case}");
}

/// Ends the test, with the row and what came of it, unless that is what is wanted.
pub(crate) fn expect_row(rt: &impl Abort, row: &str, told: &str, wanted: &str) {
    assert!(rt; told == wanted, "{row}\n{told}");
}

/// The numbers of a text.
pub(crate) fn numbers_of(alloc: Global, text: &str) -> Result<Vec<u64>, AllocError> {
    let mut numbers = Vec::new(alloc);
    for word in text.split_ascii_whitespace() {
        numbers.push(word.parse::<u64>().unwrap_or(u64::MAX))?;
    }
    Ok(numbers)
}

/// A visit whose input is these bytes, and whose calls succeed.
pub(crate) fn visit_of(alloc: Global, bytes: Vec<u8>) -> MemoryVisit<MemorySink> {
    Visit {
        input: MemorySource::new(bytes, Plan::smooth(alloc)),
        output: MemorySink::new(alloc, Plan::smooth(alloc)),
        clock: MemoryClock::new(Vec::new(alloc)),
    }
}

/// The number of a text, 0 where it has none.
pub(crate) fn number_of(text: &str) -> usize {
    text.parse::<usize>().unwrap_or(0)
}

/// The bytes of words: a number is a byte, and every other word is its letters.
pub(crate) fn bytes_of(alloc: Global, text: &str) -> Result<Vec<u8>, AllocError> {
    let mut bytes = Vec::new(alloc);
    for word in text.split_ascii_whitespace() {
        match word.parse::<u8>() {
            Ok(byte) => bytes.push(byte)?,
            Err(_) => bytes.extend_from_slice(word.as_bytes())?,
        }
    }
    Ok(bytes)
}

/// A word, and bytes as numbers behind it.
pub(crate) fn bytes_text(alloc: Global, word: &str, bytes: &[u8]) -> Result<String, AllocError> {
    let mut text = String::from_str(alloc, word)?;
    for byte in bytes.iter() {
        text.push_str(&format!(in alloc; " {byte}")?)?;
    }
    Ok(text)
}

/// The bytes of a message, in which `|` is a line feed and `~` a byte that is no character.
pub(crate) fn message_of(alloc: Global, text: &str) -> Result<Vec<u8>, AllocError> {
    let mut bytes = Vec::new(alloc);
    for byte in text.as_bytes() {
        bytes.push(match *byte {
            b'|' => b'\n',
            b'~' => 0xff,
            other => other,
        })?;
    }
    Ok(bytes)
}
