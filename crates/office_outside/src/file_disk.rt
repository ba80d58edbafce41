//! A disk over one file of the working folder. It tells nothing of its content.
ghost use Rattle.std.specs.Prelude.{◌≡◌, ◌≤◌, None, Ok, Err, length, IfOk, IsErr, true, false};
ghost use Rattle.office_outside.specs.Faults.{HasCause};

use crate::opened_file::{OpenedFile, is_error_output};
use crate::{Disk, Failed};
use std::fs::File;
use std::io;
use std::rt::Files;

/// The file `office.journal` of the working folder, opened at the first call.
///
/// For changes it is made where it isn't there, and locked until the disk is let go: a second
/// program that opens it for changes is refused. For reading alone nothing is made, written or
/// locked: where there is no file it reads as an empty one, and beside a program that changes it as
/// far as that came.
///
/// A sync that failed may have lost what was written before it, and a later one wouldn't tell; what
/// is written to a file that was moved away, put in another's place or cut is written for nobody;
/// and what goes into a file that others wrote goes into their bytes. So where a sync fails, the
/// name no longer stands for the file that was opened, or that file was last written by others,
/// the disk is lost: each call fails from then on, until the file is opened anew.
///
/// It serves a journal, whose bytes behind the closed gate stand for nothing: the first record that
/// is written after an opening cuts the file at its place.
#[derive(Drop)]
pub struct FileDisk<R: Files<File = File> + Drop> {
    rt: R,
    only_reads: bool,
    file: Option<OpenedFile>,
    lost: bool,
    faults: u64,
}

impl<R: Files<File = File> + Drop> FileDisk<R> {
    /// A disk to read alone, or one to read and change. It touches nothing before its first call.
    pub fn new(rt: R, only_reads: bool) -> FileDisk<R>
        ensures faults { result.faults ≡ 0 }
        ensures reads { result.only_reads ≡ only_reads }
    {
        FileDisk {
            rt,
            only_reads,
            file: None,
            lost: false,
            faults: 0,
        }
    }

    /// Whether the program's error output is the file: no line can be told then without writing
    /// it there. It opens nothing.
    pub fn is_error_output(rt: &R) -> bool {
        is_error_output(rt)
    }
}

impl<R: Files<File = File> + Drop> Disk for FileDisk<R> {
    ghost senses = { record {
      content = λ _. None;
      images = λ _ _. ⊥;
      moment = λ _. 0;
      images_since = λ _ _ _. ⊥;
      faults = λ f. f.faults;
    } };

    ghost counts_now = { λ _ _ _ _ none. none };

    ghost only_now = { λ _ _ none. none };

    ghost as_read = { λ _. tt };

    fn read_at(&mut self, at: u64, piece: &mut [u8]) -> Result<usize, Failed>
        ensures count { IfOk result (λ n. n ≤ length piece.new) }
        ensures cause { HasCause self.old.faults self.new.faults result }

        ensures lost { self.old.lost ≡ true → IsErr result }
        ensures stays { (self.new.lost ≡ self.old.lost)
            × (self.new.only_reads ≡ self.old.only_reads) }
    {
        let outcome = if self.lost {
            Err(Failed)
        } else {
            read_opened(&self.rt, self.only_reads, &mut self.file, at, piece)
        };
        counted(outcome, &mut self.faults)
    }

    /// On a disk to read alone it fails.
    fn write_at(&mut self, at: u64, piece: &[u8]) -> Result<(), Failed>
        ensures cause { HasCause self.old.faults self.new.faults result }

        ensures lost { self.old.lost ≡ true → (IsErr result) × (self.new.lost ≡ true) }
        ensures reads { self.old.only_reads ≡ true → IsErr result }
        ensures stays { self.new.only_reads ≡ self.old.only_reads }
    {
        self.lost = self.lost || !stands(&self.rt, &self.file);
        let outcome = if self.lost || self.only_reads {
            Err(Failed)
        } else {
            write_opened(&self.rt, &mut self.file, at, piece)
        };
        counted(outcome, &mut self.faults)
    }

    fn sync(&mut self) -> Result<(), Failed>
        ensures cause { HasCause self.old.faults self.new.faults result }

        ensures lost { self.old.lost ≡ true → IsErr result }
        ensures failed { (IsErr result → self.new.lost ≡ true)
            × (self.old.lost ≡ true → self.new.lost ≡ true) }
        ensures stays { self.new.only_reads ≡ self.old.only_reads }
    {
        self.lost = self.lost
            || !stands(&self.rt, &self.file)
            || sync_opened(&self.rt, self.only_reads, &mut self.file).is_err();
        let outcome = if self.lost { Err(Failed) } else { Ok(()) };
        counted(outcome, &mut self.faults)
    }
}

/// The file, which is opened here if it isn't yet.
fn opened<'a, R: Files<File = File>>(
    rt: &R,
    only_reads: bool,
    slot: &'a mut Option<OpenedFile>,
) -> io::Result<&'a mut OpenedFile> {
    if slot.is_none() {
        let file = if only_reads {
            OpenedFile::for_reading(rt)?
        } else {
            OpenedFile::for_changes(rt)?
        };
        *slot = Some(file);
    }
    match slot {
        Some(file) => Ok(file),
        None => Err(io::ErrorKind::NotFound.into()),
    }
}

/// Whether the name still stands for the file as it was left, where it was opened.
fn stands<R: Files<File = File>>(rt: &R, slot: &Option<OpenedFile>) -> bool {
    match slot {
        Some(file) => file.stands(rt),
        None => true,
    }
}

fn read_opened<R: Files<File = File>>(
    rt: &R,
    only_reads: bool,
    slot: &mut Option<OpenedFile>,
    at: u64,
    piece: &mut [u8],
) -> Result<usize, Failed>
    ensures { IfOk result (λ n. n ≤ length piece.new) }
{
    match opened(rt, only_reads, slot) {
        Ok(file) => match file.read(at, piece) {
            Ok(count) => Ok(count),
            Err(_) => Err(Failed),
        },
        Err(_) => Err(Failed),
    }
}

fn write_opened<R: Files<File = File>>(
    rt: &R,
    slot: &mut Option<OpenedFile>,
    at: u64,
    piece: &[u8],
) -> Result<(), Failed> {
    match opened(rt, false, slot) {
        Ok(file) => match file.write(at, piece) {
            Ok(()) => Ok(()),
            Err(_) => Err(Failed),
        },
        Err(_) => Err(Failed),
    }
}

fn sync_opened<R: Files<File = File>>(
    rt: &R,
    only_reads: bool,
    slot: &mut Option<OpenedFile>,
) -> Result<(), Failed> {
    match opened(rt, only_reads, slot) {
        Ok(file) => match file.sync() {
            Ok(()) => Ok(()),
            Err(_) => Err(Failed),
        },
        Err(_) => Err(Failed),
    }
}

/// Counts a failure.
fn counted<T>(outcome: Result<T, Failed>, faults: &mut u64) -> Result<T, Failed>
    ensures same { result ≡ outcome }
    ensures cause { HasCause faults.old faults.new result }
{
    if outcome.is_err() {
        *faults = faults.saturating_add(1);
    }
    outcome
}
