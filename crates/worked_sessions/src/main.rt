//! Worked sessions over memory, and calls on a real file: a script on the input says what is run.
//! Stands on the program's top call and the forms of the outside.
//! Promises only to end well: what comes out is compared with the answers worked out by hand.
#![tactic(auto)]

mod draft;
mod file_calls;
mod kept;
mod mixtures;
mod playing;
mod sampling;
mod series;
mod show;
mod stage;
mod told;
mod trials;
mod visitors;

use office_outside::{Failed, Source, StdSink, StdSource, write_whole};
use stage::Stage;
use std::alloc::{AllocError, Global};
use std::process::ExitCode;
use std::sync::Wait;
use std::thread::Threads;

/// Why a script isn't played to its end.
#[derive(Drop)]
enum Fault {
    Outside,
    Memory,
    Text,
}

impl From<AllocError> for Fault {
    fn from(_: AllocError) -> Fault {
        Fault::Memory
    }
}

impl From<Failed> for Fault {
    fn from(_: Failed) -> Fault {
        Fault::Outside
    }
}

/// The most reads that a script takes.
const MOST_PIECES: u32 = 65_536;

/// Appends all that an input has.
fn read_all<S: Source>(input: &mut S, bytes: &mut Vec<u8>) -> Result<(), Fault> {
    let mut piece = [0u8; 4096];
    for _ in 0..MOST_PIECES {
        let count = input.read(&mut piece)?;
        bytes.extend_from_slice(&piece[..count])?;
        if count == 0 {
            break;
        }
    }
    Ok(())
}

/// The whole input.
fn read_script<S: Source>(alloc: Global, input: &mut S) -> Result<String, Fault> {
    let mut bytes: Vec<u8> = Vec::new(alloc);
    read_all(input, &mut bytes)?;
    String::from_utf8(bytes).map_err(|_| Fault::Text)
}

/// Plays the lines of a script. Lines behind `files` stand for calls on a real file.
fn play_lines(
    stage: &mut Stage,
    rt: &(impl AllocGlobal + Wait + Threads + Sync),
    host: HostRuntime,
    script: &str,
) -> Result<(), AllocError> {
    for line in script.lines() {
        if let Some(text) = line.strip_prefix("files ") {
            stage.call_files(host, text)?;
        } else {
            stage.take_line(rt, line)?;
        }
    }
    stage.end_request()
}

/// Plays a script, and gives what comes of it.
fn play(
    rt: &(impl AllocGlobal + Wait + Threads + Sync),
    host: HostRuntime,
    script: &str,
) -> Result<String, AllocError> {
    let mut stage = Stage::new(rt.alloc());
    play_lines(&mut stage, rt, host, script)?;
    Ok(stage.into_text())
}

fn main(rt: HostRuntime) -> ExitCode {
    let mut input = StdSource::new(rt.stdin());
    let mut output = StdSink::new(rt.stdout());
    let played = match read_script(rt.alloc(), &mut input) {
        Ok(script) => play(&rt, rt, script.as_str()),
        Err(_) => return ExitCode::from(1),
    };
    let Ok(text) = played else {
        return ExitCode::from(7);
    };
    match write_whole(&mut output, text.as_bytes()) {
        Ok(()) => ExitCode::from(0),
        Err(Failed) => ExitCode::from(6),
    }
}
