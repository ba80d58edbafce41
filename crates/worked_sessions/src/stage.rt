//! What the next run is made from, and what the runs so far came to.

use crate::draft::Draft;
use crate::kept::Kept;
use crate::playing::{Played, Setting};
use crate::told::Told;
use crate::trials::{Run, over_faults, over_mixtures, over_prefixes, over_stops};
use crate::visitors::{Served, serve_pairs, serve_visitors};
use std::alloc::{AllocError, Global};
use std::sync::Wait;
use std::thread::Threads;

/// How the next run goes: the clock's readings, the calls that fail, and how many bytes a read
/// gives at most.
#[derive(Drop)]
struct Terms {
    readings: Vec<u32>,
    failing: String,
    piece: usize,
}

/// The visitors of the next server: what each of them sends, and whether they are pairs.
#[derive(Drop)]
struct Guests {
    sent: Vec<Vec<u8>>,
    pairs: bool,
}

/// A stage: the file as it stands, what the next run reads, and the text of all that came out.
#[derive(Drop)]
pub struct Stage {
    alloc: Global,
    draft: Draft,
    guests: Guests,
    kept: Kept,
    terms: Terms,
    told: Told,
}

/// Appends the clock's readings that stand in a line.
fn push_readings(readings: &mut Vec<u32>, line: &str) -> Result<(), AllocError> {
    for word in line.split_ascii_whitespace() {
        readings.push(word.parse::<u32>().unwrap_or(u32::MAX))?;
    }
    Ok(())
}

/// The size that a line says.
fn size_in(line: &str) -> usize {
    line.parse::<usize>().unwrap_or(usize::MAX)
}

/// The first word of a line, and what stands behind it. A line of a body begins with `|`.
fn parts_of(line: &str) -> (&str, &str) {
    if let Some(text) = line.strip_prefix("|") {
        return ("|", text);
    }
    line.split_once(" ").unwrap_or((line, ""))
}

impl Terms {
    /// What a run over this file is made from.
    fn setting<'a>(&'a self, file: &'a [u8]) -> Setting<'a> {
        Setting {
            file,
            readings: &self.readings,
            failing: self.failing.as_str(),
            piece: self.piece,
        }
    }

    /// No call fails, and reads give all that they can.
    fn clear(&mut self) {
        self.failing.clear();
        self.piece = usize::MAX;
    }

    /// Sets the clock's readings.
    fn set_clock(&mut self, line: &str) -> Result<(), AllocError> {
        self.readings.clear();
        push_readings(&mut self.readings, line)
    }
}

impl Stage {
    /// A stage without a file.
    pub fn new(alloc: Global) -> Stage {
        Stage {
            alloc,
            draft: Draft::new(alloc),
            guests: Guests {
                sent: Vec::new(alloc),
                pairs: false,
            },
            kept: Kept::new(alloc),
            terms: Terms {
                readings: Vec::new(alloc),
                failing: String::new(alloc),
                piece: usize::MAX,
            },
            told: Told::new(alloc),
        }
    }

    /// The text of all that came out.
    pub fn into_text(self) -> String {
        self.told.into_text()
    }

    /// Takes one line of the script. A line of a body begins with `|`; `rows FIRST COUNT` stands
    /// for lines of samples, and `series FIRST COUNT TEXT` for the text with each number in the
    /// place of its `@`. Each other line ends the request before it.
    pub fn take_line(
        &mut self,
        rt: &(impl AllocGlobal + Wait + Threads + Sync),
        line: &str,
    ) -> Result<(), AllocError> {
        let (word, rest) = parts_of(line);
        match word {
            "|" => self.draft.add_line(rest),
            "rows" => self.draft.add_rows(rest),
            "series" => self.draft.add_series(rest),
            _ => {
                self.end_request()?;
                self.act(rt, word, rest)
            }
        }
    }

    /// Ends the request that is being made.
    pub fn end_request(&mut self) -> Result<(), AllocError> {
        self.draft.end_request()
    }

    /// Notes what comes of calls on a real file.
    pub fn call_files(&mut self, host: HostRuntime, text: &str) -> Result<(), AllocError> {
        self.end_request()?;
        self.told.add_calls(host, text)
    }

    /// Does what a line says: begins a case, runs the program, sends, tries, or sets.
    fn act(
        &mut self,
        rt: &(impl AllocGlobal + Wait + Threads + Sync),
        word: &str,
        rest: &str,
    ) -> Result<(), AllocError> {
        match word {
            "==" => self.begin(rest),
            "$" => self.run(rt, rest),
            ">" => self.send(rest),
            "each" => self.run_trial(rt, rest),
            _ => self.set(word, rest),
        }
    }

    /// Begins a case: there is no file, no call fails, and reads give all that they can.
    fn begin(&mut self, title: &str) -> Result<(), AllocError> {
        self.kept.remove();
        self.terms.clear();
        self.told.begin(title)
    }

    /// Sends a request line, or bytes, or the requests of the last export, or the body of the last
    /// answer of `pipe`.
    fn send(&mut self, text: &str) -> Result<(), AllocError> {
        match text {
            "exported" => self.draft.send_bytes(self.kept.exported()),
            "answer" => self.draft.send_bytes(self.kept.answered()),
            _ => self.draft.send(text),
        }
    }

    /// Sets what the next runs are made from, or shows the file.
    fn set(&mut self, word: &str, rest: &str) -> Result<(), AllocError> {
        match word {
            "clock" => self.terms.set_clock(rest),
            "failing" => self.terms.failing.push_str(rest),
            "visitor" => self.end_visitor(),
            "file" => self.told.add_file(self.kept.file()),
            "save" => self.kept.save(),
            "load" => self.kept.load(),
            _ => {
                self.choose(word, rest);
                Ok(())
            }
        }
    }

    /// Sets what takes no memory. Other lines say nothing.
    fn choose(&mut self, word: &str, rest: &str) {
        match word {
            "pieces" => self.terms.piece = size_in(rest),
            "cut" => self.kept.cut(size_in(rest)),
            "times" => self.draft.repeat(rest),
            "heads" => self.told.tell_whole(),
            "brief" => self.told.tell_briefly(),
            "pairs" => self.guests.pairs = true,
            _ => {}
        }
    }

    /// Takes the requests so far as those of a visitor of a server.
    fn end_visitor(&mut self) -> Result<(), AllocError> {
        let bytes = self.draft.take()?;
        self.guests.sent.push(bytes)?;
        Ok(())
    }

    /// What the next run is made from.
    fn setting(&self) -> Setting<'_> {
        self.terms.setting(self.kept.file())
    }

    /// Runs the program on these words.
    fn run(
        &mut self,
        rt: &(impl AllocGlobal + Wait + Threads + Sync),
        words: &str,
    ) -> Result<(), AllocError> {
        if words.starts_with("serve ") {
            let served = self.served(rt, words)?;
            self.note_served(words, &served)
        } else {
            let played = self.setting().play(rt, words, self.draft.input())?;
            self.note_played(words, &played)
        }
    }

    /// Notes what a run wrote and how it ended.
    fn note_played(&mut self, words: &str, played: &Played) -> Result<(), AllocError> {
        self.draft.clear();
        self.terms.failing.clear();
        self.kept.take(words, played)?;
        self.told.note_once(words, played)
    }

    /// Serves the visitors.
    fn served(
        &self,
        rt: &(impl AllocGlobal + Wait + Threads + Sync),
        words: &str,
    ) -> Result<Served, AllocError> {
        if self.guests.pairs {
            serve_pairs(rt, &self.setting(), words, &self.guests.sent)
        } else {
            serve_visitors(rt, &self.setting(), words, &self.guests.sent)
        }
    }

    /// Notes what came of a run of a server and what each visitor was answered: in the order of
    /// doors, or where they are pairs, in the order of the texts.
    fn note_served(&mut self, words: &str, served: &Served) -> Result<(), AllocError> {
        self.guests.sent.clear();
        self.terms.failing.clear();
        self.kept.take(words, &served.played)?;
        self.told.note(words, &served.played)?;
        if self.guests.pairs {
            self.guests.pairs = false;
            self.told.add_sorted(&served.answers)
        } else {
            self.told.add_all(&served.answers)
        }
    }

    /// What comes of trying the requests in many runs: `prefix`, or `stop of`, `mixture of` or
    /// `fault of` these words.
    fn tried(
        &self,
        rt: &(impl AllocGlobal + Wait + Threads + Sync),
        trial: &str,
    ) -> Result<String, AllocError> {
        let (kind, words) = trial.split_once(" of ").unwrap_or((trial, ""));
        let run = Run {
            setting: self.setting(),
            words,
            input: self.draft.input(),
        };
        match kind {
            "stop" => over_stops(rt, run),
            "mixture" => over_mixtures(rt, run),
            "fault" => over_faults(rt, run),
            _ => over_prefixes(rt, &run.setting, run.input),
        }
    }

    /// Tries the requests in many runs.
    fn run_trial(
        &mut self,
        rt: &(impl AllocGlobal + Wait + Threads + Sync),
        trial: &str,
    ) -> Result<(), AllocError> {
        let told = self.tried(rt, trial)?;
        self.draft.clear();
        self.told.add(told.as_str())
    }
}
