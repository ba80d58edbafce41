//! Bytes that are kept from one run to the next.

use crate::playing::Played;
use crate::show::push_last_body;
use crate::told::is_export;
use std::alloc::{AllocError, Global};

/// The file as it stands, as it was saved, the requests of the last export, and the body of the
/// last answer of `pipe`.
#[derive(Drop)]
pub struct Kept {
    alloc: Global,
    file: Vec<u8>,
    saved: Vec<u8>,
    exported: Vec<u8>,
    answered: Vec<u8>,
}

/// Puts bytes in the place of others.
fn copy_over(old: &mut Vec<u8>, bytes: &[u8]) -> Result<(), AllocError> {
    old.clear();
    old.extend_from_slice(bytes)
}

impl Kept {
    /// Nothing.
    pub fn new(alloc: Global) -> Kept {
        Kept {
            alloc,
            file: Vec::new(alloc),
            saved: Vec::new(alloc),
            exported: Vec::new(alloc),
            answered: Vec::new(alloc),
        }
    }

    /// The file.
    pub fn file(&self) -> &[u8] {
        &self.file
    }

    /// The requests of the last export.
    pub fn exported(&self) -> &[u8] {
        &self.exported
    }

    /// The body of the last answer of `pipe`.
    pub fn answered(&self) -> &[u8] {
        &self.answered
    }

    /// There is no file.
    pub fn remove(&mut self) {
        self.file.clear();
    }

    /// Cuts the file.
    pub fn cut(&mut self, length: usize) {
        self.file.truncate(length);
    }

    /// Keeps the file as it stands.
    pub fn save(&mut self) -> Result<(), AllocError> {
        copy_over(&mut self.saved, &self.file)
    }

    /// Takes the file as it was kept.
    pub fn load(&mut self) -> Result<(), AllocError> {
        copy_over(&mut self.file, &self.saved)
    }

    /// Takes what a run of these words left.
    pub fn take(&mut self, words: &str, played: &Played) -> Result<(), AllocError> {
        copy_over(&mut self.file, played.file())?;
        if is_export(words) {
            return copy_over(&mut self.exported, played.output());
        }
        if words == "pipe" {
            self.answered.clear();
            return push_last_body(self.alloc, &mut self.answered, played.output());
        }
        Ok(())
    }
}
