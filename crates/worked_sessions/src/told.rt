//! The text of all that came out.

use crate::file_calls::push_calls;
use crate::playing::Played;
use crate::show::{show_answers, show_count, show_file, show_whole};
use std::alloc::{AllocError, Global};

/// The text, and how the next answers are told: with their whole heads, or by counts.
#[derive(Drop)]
pub struct Told {
    alloc: Global,
    text: String,
    whole: bool,
    brief: bool,
}

/// Whether these words ask for an export, which writes requests and no answers.
pub fn is_export(words: &str) -> bool {
    words.starts_with("export ")
}

/// The lines of a text but its head.
fn push_answer_lines(alloc: Global, lines: &mut Vec<String>, text: &str) -> Result<(), AllocError> {
    for line in text.lines().skip(1) {
        lines.push(format!(in alloc; "{line}\n")?)?;
    }
    Ok(())
}

/// The lines of texts but their heads.
fn answer_lines(alloc: Global, texts: &[String]) -> Result<Vec<String>, AllocError> {
    let mut lines: Vec<String> = Vec::new(alloc);
    for text in texts {
        push_answer_lines(alloc, &mut lines, text)?;
    }
    Ok(lines)
}

impl Told {
    /// A text of nothing.
    pub fn new(alloc: Global) -> Told {
        Told {
            alloc,
            text: String::new(alloc),
            whole: false,
            brief: false,
        }
    }

    /// The text.
    pub fn into_text(self) -> String {
        self.text
    }

    /// Tells whole heads from now on, up to the end of the case.
    pub fn tell_whole(&mut self) {
        self.whole = true;
    }

    /// Tells the next run by counts, and its last answer.
    pub fn tell_briefly(&mut self) {
        self.brief = true;
    }

    /// Adds a text.
    pub fn add(&mut self, text: &str) -> Result<(), AllocError> {
        self.text.push_str(text)
    }

    /// Adds texts.
    pub fn add_all(&mut self, texts: &[String]) -> Result<(), AllocError> {
        for text in texts {
            self.text.push_str(text)?;
        }
        Ok(())
    }

    /// Adds the lines of texts but their heads, in order.
    pub fn add_sorted(&mut self, texts: &[String]) -> Result<(), AllocError> {
        let mut lines = answer_lines(self.alloc, texts)?;
        lines.sort()?;
        self.add_all(&lines)
    }

    /// Adds the bytes of a file, in digits of 16.
    pub fn add_file(&mut self, bytes: &[u8]) -> Result<(), AllocError> {
        show_file(self.alloc, &mut self.text, bytes)
    }

    /// Adds what comes of calls on a real file.
    pub fn add_calls(&mut self, host: HostRuntime, text: &str) -> Result<(), AllocError> {
        push_calls(host, &mut self.text, text)
    }

    /// Begins a case.
    pub fn begin(&mut self, title: &str) -> Result<(), AllocError> {
        self.whole = false;
        self.brief = false;
        let line = format!(in self.alloc; "== {title}\n")?;
        self.text.push_str(line.as_str())
    }

    /// Adds what a run wrote.
    fn add_output(&mut self, words: &str, bytes: &[u8]) -> Result<(), AllocError> {
        if self.whole || is_export(words) {
            show_whole(&mut self.text, bytes)
        } else if self.brief {
            show_count(self.alloc, &mut self.text, bytes)
        } else {
            show_answers(self.alloc, &mut self.text, bytes)
        }
    }

    /// Adds the words of a run, and what it wrote.
    fn add_run(&mut self, words: &str, bytes: &[u8]) -> Result<(), AllocError> {
        let line = format!(in self.alloc; "$ {words}\n")?;
        self.text.push_str(line.as_str())?;
        self.add_output(words, bytes)
    }

    /// Adds a status.
    fn add_status(&mut self, status: u8) -> Result<(), AllocError> {
        let line = format!(in self.alloc; "status {status}\n")?;
        self.text.push_str(line.as_str())
    }

    /// Notes the words of a run, what it wrote, its status and the line that says why.
    pub fn note(&mut self, words: &str, played: &Played) -> Result<(), AllocError> {
        self.add_run(words, played.output())?;
        self.add_status(played.status)?;
        show_answers(self.alloc, &mut self.text, played.faults())
    }

    /// Notes a run, and tells the later ones by their answers.
    pub fn note_once(&mut self, words: &str, played: &Played) -> Result<(), AllocError> {
        let noted = self.note(words, played);
        self.brief = false;
        noted
    }
}
