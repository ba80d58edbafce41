//! The sample stream as an input.

use office_outside::{MemorySink, Plan};
use sample_stream::{MAX_NUMBER, generate};
use std::alloc::{AllocError, Global};

/// Appends the sample stream of a number.
pub fn push_stream(alloc: Global, input: &mut Vec<u8>, number: &str) -> Result<(), AllocError> {
    let number = number.parse::<u32>().unwrap_or(0).min(MAX_NUMBER);
    let mut stream = MemorySink::new(alloc, Plan::smooth(alloc));
    if generate(number, &mut stream).is_err() {
        return Err(AllocError);
    }
    input.extend_from_slice(stream.bytes())
}
