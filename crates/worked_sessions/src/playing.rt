//! One run of the program over memory.

use office_doors::MemoryDoors;
use office_outside::{MemoryClock, MemoryDisk, MemorySink, MemorySource, Plan, Sink};
use office_run::{RunEnd, run};
use std::alloc::{AllocError, Global};
use std::sync::Wait;
use std::thread::Threads;

/// The input, both outputs and the clock of a run.
#[derive(Drop)]
pub struct Outside {
    input: MemorySource,
    output: MemorySink,
    faults: MemorySink,
    clock: MemoryClock,
}

/// What came of a run.
#[derive(Drop)]
pub struct Played {
    pub status: u8,
    pub disk: MemoryDisk,
    outside: Outside,
}

/// All that a run needs but its doors.
#[derive(Drop)]
pub struct Prepared {
    words: Vec<String>,
    outside: Outside,
    disk: MemoryDisk,
}

/// What a run is made from: its file, the clock's readings, which calls fail, and how many bytes a
/// read gives at most.
#[derive(Clone, Copy)]
pub struct Setting<'a> {
    pub file: &'a [u8],
    pub readings: &'a [u32],
    pub failing: &'a str,
    pub piece: usize,
}

/// Appends the numbers that stand in a line.
fn push_numbers(numbers: &mut Vec<u64>, line: &str) -> Result<(), AllocError> {
    for word in line.split_ascii_whitespace() {
        numbers.push(word.parse::<u64>().unwrap_or(u64::MAX))?;
    }
    Ok(())
}

/// The numbers of the calls that fail of what the line names, as in `disk 5 6`.
pub fn numbers_in(alloc: Global, line: &str, name: &str) -> Result<Vec<u64>, AllocError> {
    let mut failing: Vec<u64> = Vec::new(alloc);
    push_numbers(&mut failing, line.strip_prefix(name).unwrap_or(""))?;
    Ok(failing)
}

/// The words of a line.
fn words_in(alloc: Global, line: &str) -> Result<Vec<String>, AllocError> {
    let mut words: Vec<String> = Vec::new(alloc);
    for word in line.split_ascii_whitespace() {
        words.push(String::from_str(alloc, word)?)?;
    }
    Ok(words)
}

/// The sizes of reads that give at most a piece of so many bytes at once.
fn sizes_of(alloc: Global, bytes: usize, piece: usize) -> Result<Vec<usize>, AllocError> {
    let mut sizes: Vec<usize> = Vec::new(alloc);
    if piece < bytes {
        for _ in 0..bytes {
            sizes.push(piece)?;
        }
    }
    Ok(sizes)
}

/// Runs the program over these objects.
fn play_over<K: Sink + Send + Drop>(
    rt: &(impl AllocGlobal + Wait + Threads + Sync),
    words: &[String],
    outside: &mut Outside,
    disk: MemoryDisk,
    doors: &mut MemoryDoors<K>,
) -> RunEnd<MemoryDisk> {
    run(
        rt,
        words,
        &mut outside.input,
        &mut outside.output,
        &mut outside.faults,
        disk,
        &mut outside.clock,
        doors,
    )
}

impl Played {
    /// What the run wrote.
    pub fn output(&self) -> &[u8] {
        self.outside.output.bytes()
    }

    /// The line that says why it ended so.
    pub fn faults(&self) -> &[u8] {
        self.outside.faults.bytes()
    }

    /// The file that it left.
    pub fn file(&self) -> &[u8] {
        self.disk.bytes()
    }
}

impl Prepared {
    /// Runs the program over these doors.
    pub fn play<K: Sink + Send + Drop>(
        self,
        rt: &(impl AllocGlobal + Wait + Threads + Sync),
        doors: &mut MemoryDoors<K>,
    ) -> Played {
        let Prepared {
            words,
            outside,
            disk,
        } = self;
        let mut outside = outside;
        let RunEnd { status, disk } = play_over(rt, &words, &mut outside, disk, doors);
        Played {
            status,
            disk,
            outside,
        }
    }
}

impl<'a> Setting<'a> {
    /// The file.
    pub fn file(self) -> &'a [u8] {
        self.file
    }

    /// The same over another file.
    pub fn over(self, file: &'a [u8]) -> Setting<'a> {
        Setting {
            file,
            readings: self.readings,
            failing: self.failing,
            piece: self.piece,
        }
    }

    /// The same where these calls fail.
    pub fn with_failing(self, failing: &'a str) -> Setting<'a> {
        Setting {
            file: self.file,
            readings: self.readings,
            failing,
            piece: self.piece,
        }
    }

    /// Runs the program on these words, over this input and no doors.
    pub fn play(
        &self,
        rt: &(impl AllocGlobal + Wait + Threads + Sync),
        words: &str,
        input: &[u8],
    ) -> Result<Played, AllocError> {
        let alloc = rt.alloc();
        let prepared = self.prepare(alloc, words, input)?;
        let mut doors: MemoryDoors<MemorySink> = MemoryDoors::new(
            alloc,
            Vec::new(alloc),
            Vec::new(alloc),
            Vec::new(alloc),
        );
        Ok(prepared.play(rt, &mut doors))
    }

    /// All that a run on these words over this input needs but its doors.
    pub fn prepare(
        &self,
        alloc: Global,
        words: &str,
        input: &[u8],
    ) -> Result<Prepared, AllocError> {
        let words = words_in(alloc, words)?;
        let outside = self.outside(alloc, input)?;
        let disk = self.disk(alloc)?;
        Ok(Prepared {
            words,
            outside,
            disk,
        })
    }

    /// The plan of an object whose calls fail where the line names it.
    fn plan(&self, alloc: Global, name: &str) -> Result<Plan, AllocError> {
        Ok(Plan::new(numbers_in(alloc, self.failing, name)?, Vec::new(alloc)))
    }

    /// The plan of an input of so many bytes.
    fn input_plan(&self, alloc: Global, bytes: usize) -> Result<Plan, AllocError> {
        let failing = numbers_in(alloc, self.failing, "input ")?;
        Ok(Plan::new(failing, sizes_of(alloc, bytes, self.piece)?))
    }

    /// The input of a run.
    fn input(&self, alloc: Global, bytes: &[u8]) -> Result<MemorySource, AllocError> {
        let plan = self.input_plan(alloc, bytes.len())?;
        Ok(MemorySource::new(bytes.to_vec(alloc)?, plan))
    }

    /// The clock of a run.
    pub fn clock(&self, alloc: Global) -> Result<MemoryClock, AllocError> {
        Ok(MemoryClock::new(self.readings.to_vec(alloc)?))
    }

    /// The output and the clock of a run.
    fn output_and_clock(&self, alloc: Global) -> Result<(MemorySink, MemoryClock), AllocError> {
        let plan = self.plan(alloc, "output ")?;
        let clock = self.clock(alloc)?;
        Ok((MemorySink::new(alloc, plan), clock))
    }

    /// The input, both outputs and the clock of a run.
    fn outside(&self, alloc: Global, bytes: &[u8]) -> Result<Outside, AllocError> {
        let input = self.input(alloc, bytes)?;
        let (output, clock) = self.output_and_clock(alloc)?;
        Ok(Outside {
            input,
            output,
            faults: MemorySink::new(alloc, Plan::smooth(alloc)),
            clock,
        })
    }

    /// The disk of a run.
    fn disk(&self, alloc: Global) -> Result<MemoryDisk, AllocError> {
        let plan = self.plan(alloc, "disk ")?;
        let file = self.file.to_vec(alloc)?;
        MemoryDisk::new(alloc, file, plan)
    }
}
