//! The error budget office: the program.
//! Stands on its commands, and on the adapters over files, terminals, sockets and the clock.
//! Promises what `run` promises over these.
#![tactic(auto)]

mod standard;

use command_words::only_reads;
use office_doors::TcpDoors;
use office_outside::{FileDisk, StdSink, StdSource, WallClock};
use office_run::{DISK_FAULT, run, run_out_of_memory};
use standard::stand_in;
use std::alloc::AllocError;
use std::env::{self, Env};
use std::io::ErrorKind;
use std::process::ExitCode;

/// The words of the command line behind the program's name. Words that aren't text are no form of a
/// command, and are left out, as if there were none.
fn words_of(rt: &(impl Env + AllocGlobal)) -> Result<Vec<String>, AllocError> {
    let mut words = Vec::new(rt.alloc());
    match env::args(rt) {
        Ok(all) => {
            for word in all.skip(1) {
                words.push(word)?;
            }
        }
        Err(error) => {
            if error.kind() == ErrorKind::OutOfMemory {
                return Err(AllocError);
            }
        }
    }
    Ok(words)
}

fn main(rt: HostRuntime) -> ExitCode {
    let Ok(standing_in) = stand_in(&rt) else {
        return ExitCode::from(DISK_FAULT);
    };
    if FileDisk::is_error_output(&rt) {
        return ExitCode::from(DISK_FAULT);
    }
    let mut input = StdSource::new(rt.stdin());
    let mut output = StdSink::new(rt.stdout());
    let mut faults = StdSink::new(rt.stderr());
    let mut clock = WallClock::new(rt);
    let mut doors = TcpDoors::new(rt, rt.alloc());
    let status = match words_of(&rt) {
        Ok(words) => {
            let disk = FileDisk::new(rt, only_reads(&words));
            let end = run(
                &rt,
                &words,
                &mut input,
                &mut output,
                &mut faults,
                disk,
                &mut clock,
                &mut doors,
            );
            end.status
        }
        Err(AllocError) => run_out_of_memory(&mut faults),
    };
    drop(standing_in);
    ExitCode::from(status)
}
