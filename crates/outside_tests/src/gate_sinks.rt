//! Sinks that wait for each other.
use crate::rows::expect;
use office_doors::GateSink;
use office_outside::{MemorySink, Plan, Sink, write_whole};
use std::alloc::{AllocError, Global};
use std::thread::join;

fn gates(alloc: Global) -> Result<(GateSink, GateSink), AllocError> {
    let first = MemorySink::new(alloc, Plan::smooth(alloc));
    let second = MemorySink::new(alloc, Plan::smooth(alloc));
    GateSink::pair(alloc, first, second)
}

/// Whether these bytes are written, and are then what the sink holds.
fn is_written(mut sink: GateSink, bytes: &[u8]) -> bool {
    write_whole(&mut sink, bytes).is_ok() && sink.bytes() == bytes
}

#[test]
fn two_writes_at_once_are_done(rt: HostRuntime) {
    let (first, second) = gates(rt.alloc()).expect(&rt, "memory");
    let (one, other) = join(
        &rt,
        move || is_written(first, b"one"),
        move || is_written(second, b"other"),
    );
    expect(&rt, one, "one");
    expect(&rt, other, "other");
}

#[test]
fn a_write_alone_fails(rt: HostRuntime) {
    let (mut first, mut second) = gates(rt.alloc()).expect(&rt, "memory");
    expect(&rt, first.write(b"one").is_err(), "a write alone");
    expect(&rt, first.faults() == 1, "its fault");
    expect(&rt, first.bytes().is_empty(), "no bytes");
    expect(&rt, second.write(b"other").is_ok(), "a write behind it");
    expect(&rt, first.flush().is_ok(), "a flush");
}
