//! Many runs of the program, which are told by counts.

use crate::mixtures::{FILLS, Mixtures, Torn};
use crate::playing::{Played, Setting};
use crate::show::last_answer;
use std::alloc::{AllocError, Global};
use std::sync::Wait;
use std::thread::Threads;

/// How runs over prefixes of the requests ended.
#[derive(Clone, Copy)]
struct PrefixTally {
    done: u32,
    cut: u32,
    changed: u32,
}

/// Runs `pipe` over a prefix of the requests.
fn over_prefix(
    rt: &(impl AllocGlobal + Wait + Threads + Sync),
    setting: &Setting,
    input: &[u8],
    tally: PrefixTally,
) -> Result<PrefixTally, AllocError> {
    let played = setting.play(rt, "pipe", input)?;
    let changed = played.file() != setting.file;
    Ok(PrefixTally {
        done: tally.done.saturating_add(u32::from(played.status == 0)),
        cut: tally.cut.saturating_add(u32::from(played.status == 9)),
        changed: tally.changed.saturating_add(u32::from(changed)),
    })
}

/// Runs `pipe` over each proper prefix of the requests: how many ended with status 0 and with 9,
/// and how many left another file.
pub fn over_prefixes(
    rt: &(impl AllocGlobal + Wait + Threads + Sync),
    setting: &Setting,
    input: &[u8],
) -> Result<String, AllocError> {
    let mut tally = PrefixTally {
        done: 0,
        cut: 0,
        changed: 0,
    };
    for count in 0..input.len() {
        tally = over_prefix(rt, setting, &input[..count], tally)?;
    }
    let PrefixTally { done, cut, changed } = tally;
    format!(in rt.alloc(); "prefixes: {done} done, {cut} cut, {changed} changed\n")
}

/// How second runs compared with the run that nothing stopped.
#[derive(Clone, Copy)]
struct PlayTally {
    runs: u32,
    no_journal: u32,
    same: u32,
    left_out: u32,
}

/// The tally before the first of them.
const NOTHING: PlayTally = PlayTally {
    runs: 0,
    no_journal: 0,
    same: 0,
    left_out: 0,
};

impl PlayTally {
    /// The tally with a run of this status, whose last answer was the same or wasn't.
    fn with(self, status: u8, is_same: bool) -> PlayTally {
        PlayTally {
            runs: self.runs.saturating_add(1),
            no_journal: self.no_journal.saturating_add(u32::from(status == 3)),
            same: self.same.saturating_add(u32::from(is_same)),
            left_out: self.left_out,
        }
    }

    /// The tally with an end that is left out.
    fn without(self) -> PlayTally {
        PlayTally {
            left_out: self.left_out.saturating_add(1),
            ..self
        }
    }
}

/// How many files are tried of all that a stop may leave: each where one byte isn't synced, as a
/// gate, and some of those where several aren't.
const MOST_FILES: usize = 300;

/// Bytes that differ by their number: below 256 each is the number itself, and from there on each
/// is some more than the one before it.
fn pattern(alloc: Global, length: usize, number: usize) -> Result<Vec<u8>, AllocError> {
    let mut bytes: Vec<u8> = Vec::new(alloc);
    let mut byte = (number % 256) as u8;
    let step = (number / 256 * 37 % 256) as u8;
    for _ in 0..length {
        bytes.push(byte)?;
        byte = byte.wrapping_add(step);
    }
    Ok(bytes)
}

/// A run of these words over this input.
#[derive(Clone, Copy)]
pub struct Run<'a> {
    pub setting: Setting<'a>,
    pub words: &'a str,
    pub input: &'a [u8],
}

impl<'a> Run<'a> {
    /// Whether the words take the input.
    fn takes_input(self) -> bool {
        self.words == "pipe" || self.words == "follow"
    }

    /// The file that it runs over.
    fn file(self) -> &'a [u8] {
        self.setting.file()
    }

    /// What runs over a file that is left: `pipe` and `follow` come again with their input; words
    /// that take none have `pipe` behind them for the last answer.
    fn behind(self) -> Run<'a> {
        if self.takes_input() {
            return self;
        }
        Run {
            setting: self.setting,
            words: "pipe",
            input: self.input,
        }
    }

    /// What comes of it where these calls fail.
    fn play(
        self,
        rt: &(impl AllocGlobal + Wait + Threads + Sync),
        failing: &str,
    ) -> Result<Played, AllocError> {
        let setting = self.setting.with_failing(failing);
        setting.play(rt, self.words, self.input)
    }

    /// The status and the last answer of it over another file, where no call fails.
    fn end_over(
        self,
        rt: &(impl AllocGlobal + Wait + Threads + Sync),
        file: &[u8],
    ) -> Result<(u8, String), AllocError> {
        let setting = self.setting.over(file).with_failing("");
        let played = setting.play(rt, self.words, self.input)?;
        let last = last_answer(rt.alloc(), played.output())?;
        Ok((played.status, last))
    }

    /// The last answer where nothing stops the run of which this came.
    fn wanted(
        self,
        rt: &(impl AllocGlobal + Wait + Threads + Sync),
        whole: &Played,
    ) -> Result<String, AllocError> {
        if self.takes_input() {
            return last_answer(rt.alloc(), whole.output());
        }
        let (_, last) = self.behind().end_over(rt, whole.file())?;
        Ok(last)
    }
}

/// What is tried: a run that nothing stopped, what runs over each file that is left, and the last
/// answer to it where nothing stops the run.
#[derive(Drop)]
struct Trial<'a> {
    first: Run<'a>,
    second: Run<'a>,
    whole: Played,
    wanted: String,
}

impl<'a> Trial<'a> {
    /// The trial of a run.
    fn of(
        rt: &(impl AllocGlobal + Wait + Threads + Sync),
        first: Run<'a>,
    ) -> Result<Trial<'a>, AllocError> {
        let whole = first.play(rt, first.setting.failing)?;
        let wanted = first.wanted(rt, &whole)?;
        Ok(Trial {
            first,
            second: first.behind(),
            whole,
            wanted,
        })
    }

    /// How many calls of the disk the whole run made.
    fn calls(&self) -> usize {
        self.whole.disk.calls().len()
    }

    /// Runs the words over what a stop or a fault left, and compares the last answer.
    fn again(
        &self,
        rt: &(impl AllocGlobal + Wait + Threads + Sync),
        file: &[u8],
        tally: PlayTally,
    ) -> Result<PlayTally, AllocError> {
        let (status, last) = self.second.end_over(rt, file)?;
        let is_same = last.as_str() == self.wanted.as_str();
        Ok(tally.with(status, is_same))
    }

    /// Tries the file nearest to this one that a stop after so many calls may leave.
    fn over_left(
        &self,
        rt: &(impl AllocGlobal + Wait + Threads + Sync),
        calls: usize,
        wanted: &[u8],
        tally: PlayTally,
    ) -> Result<PlayTally, AllocError> {
        let file = self.whole.disk.after_stop(calls, wanted)?;
        self.again(rt, &file, tally)
    }

    /// Tries the file nearest to a pattern of bytes.
    fn over_pattern(
        &self,
        rt: &(impl AllocGlobal + Wait + Threads + Sync),
        calls: usize,
        number: usize,
        tally: PlayTally,
    ) -> Result<PlayTally, AllocError> {
        let wanted = pattern(rt.alloc(), self.whole.file().len(), number)?;
        self.over_left(rt, calls, &wanted, tally)
    }

    /// Tries files that a stop after so many calls may leave: of all that may, the one nearest to
    /// the file as it reads at the end, and those nearest to patterns of bytes.
    fn after_stop(
        &self,
        rt: &(impl AllocGlobal + Wait + Threads + Sync),
        calls: usize,
        tally: PlayTally,
    ) -> Result<PlayTally, AllocError> {
        let mut tally = self.over_left(rt, calls, self.whole.file(), tally)?;
        for number in 1..MOST_FILES {
            tally = self.over_pattern(rt, calls, number - 1, tally)?;
        }
        Ok(tally)
    }

    /// Tries such files after each of the calls.
    fn stops(
        &self,
        rt: &(impl AllocGlobal + Wait + Threads + Sync),
    ) -> Result<PlayTally, AllocError> {
        let mut tally = NOTHING;
        for count in 0..self.calls() {
            tally = self.after_stop(rt, count, tally)?;
        }
        Ok(tally)
    }

    /// Tries the mixture of a number.
    fn over_mixture(
        &self,
        rt: &(impl AllocGlobal + Wait + Threads + Sync),
        calls: usize,
        mixtures: &Mixtures,
        number: u32,
        tally: PlayTally,
    ) -> Result<PlayTally, AllocError> {
        let wanted = mixtures.at(rt.alloc(), number)?;
        self.over_left(rt, calls, &wanted, tally)
    }

    /// Tries the mixtures of one end; too many are left out, and counted.
    fn over_mixtures_at(
        &self,
        rt: &(impl AllocGlobal + Wait + Threads + Sync),
        calls: usize,
        mixtures: &Mixtures,
        tally: PlayTally,
    ) -> Result<PlayTally, AllocError> {
        let Some(count) = mixtures.count() else {
            return Ok(tally.without());
        };
        let mut tally = tally;
        for number in 0..count {
            tally = self.over_mixture(rt, calls, mixtures, number, tally)?;
        }
        Ok(tally)
    }

    /// Tries the mixtures that end there, over this byte.
    fn mixed_to(
        &self,
        rt: &(impl AllocGlobal + Wait + Threads + Sync),
        calls: usize,
        torn: &Torn,
        end: (usize, u8),
        tally: PlayTally,
    ) -> Result<PlayTally, AllocError> {
        let mixtures = torn.ending(rt.alloc(), end.0, end.1)?;
        self.over_mixtures_at(rt, calls, &mixtures, tally)
    }

    /// Tries the mixtures of each end, over this byte.
    fn mixed(
        &self,
        rt: &(impl AllocGlobal + Wait + Threads + Sync),
        calls: usize,
        torn: &Torn,
        fill: u8,
        tally: PlayTally,
    ) -> Result<PlayTally, AllocError> {
        let mut tally = tally;
        for end in torn.ends() {
            tally = self.mixed_to(rt, calls, torn, (end, fill), tally)?;
        }
        Ok(tally)
    }

    /// Tries each mixture that a stop after so many calls may leave, over this byte.
    fn mixed_after_stop(
        &self,
        rt: &(impl AllocGlobal + Wait + Threads + Sync),
        calls: usize,
        fill: u8,
        tally: PlayTally,
    ) -> Result<PlayTally, AllocError> {
        let torn = Torn::after(rt.alloc(), self.first.file(), &self.whole.disk, calls)?;
        self.mixed(rt, calls, &torn, fill, tally)
    }

    /// Tries the mixtures after each of the calls.
    fn mixtures(
        &self,
        rt: &(impl AllocGlobal + Wait + Threads + Sync),
    ) -> Result<PlayTally, AllocError> {
        let mut tally = NOTHING;
        for count in 0..self.calls() {
            for fill in FILLS {
                tally = self.mixed_after_stop(rt, count, fill, tally)?;
            }
        }
        Ok(tally)
    }

    /// Tries the file that is left where these calls fail.
    fn over_failing(
        &self,
        rt: &(impl AllocGlobal + Wait + Threads + Sync),
        failing: &str,
        tally: PlayTally,
    ) -> Result<PlayTally, AllocError> {
        let played = self.first.play(rt, failing)?;
        self.again(rt, played.file(), tally)
    }

    /// Tries the file that is left where this call fails.
    fn over_fault(
        &self,
        rt: &(impl AllocGlobal + Wait + Threads + Sync),
        call: usize,
        tally: PlayTally,
    ) -> Result<PlayTally, AllocError> {
        let failing = format!(in rt.alloc(); "disk {call}")?;
        self.over_failing(rt, failing.as_str(), tally)
    }

    /// Tries what is left where each of the calls fails.
    fn faults(
        &self,
        rt: &(impl AllocGlobal + Wait + Threads + Sync),
    ) -> Result<PlayTally, AllocError> {
        let mut tally = NOTHING;
        for count in 0..self.calls() {
            tally = self.over_fault(rt, count, tally)?;
        }
        Ok(tally)
    }
}

/// Stops a run after each of its disk calls in turn, runs it again over files that may be left, and
/// tells how many files were no journal, and how many gave the same last answer.
pub fn over_stops(
    rt: &(impl AllocGlobal + Wait + Threads + Sync),
    run: Run,
) -> Result<String, AllocError> {
    let trial = Trial::of(rt, run)?;
    let tally = trial.stops(rt)?;
    tell(rt.alloc(), "stops", tally)
}

/// Stops a run after each of its disk calls in turn, and runs it again over each file in which each
/// byte that isn't synced is as it was or as it was written, and which ends at any place that the
/// stop allows. Tells the same, and for how many ends there were too many such files.
pub fn over_mixtures(
    rt: &(impl AllocGlobal + Wait + Threads + Sync),
    run: Run,
) -> Result<String, AllocError> {
    let trial = Trial::of(rt, run)?;
    let tally = trial.mixtures(rt)?;
    let left_out = tally.left_out;
    let told = tell(rt.alloc(), "mixtures", tally)?;
    format!(in rt.alloc(); "{told}mixtures: {left_out} ends left out\n")
}

/// Lets each disk call of a run fail in turn, runs it again over what it left, and tells the same.
pub fn over_faults(
    rt: &(impl AllocGlobal + Wait + Threads + Sync),
    run: Run,
) -> Result<String, AllocError> {
    let trial = Trial::of(rt, run)?;
    let tally = trial.faults(rt)?;
    tell(rt.alloc(), "faults", tally)
}

/// A line of a tally.
fn tell(alloc: Global, what: &str, tally: PlayTally) -> Result<String, AllocError> {
    let PlayTally {
        runs,
        no_journal,
        same,
        ..
    } = tally;
    format!(in alloc;
        "{what}: {runs} runs, {no_journal} without a journal, {same} with the same end\n"
    )
}
