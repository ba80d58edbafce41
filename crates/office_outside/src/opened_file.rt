//! The file of a disk, once it was opened.
ghost use Rattle.std.specs.Prelude.{◌≡◌, ◌≤◌, length, IfOk};

use crate::identity::{Identity, Trace, is_standard, is_told};
use std::fs::{self, File, Metadata, OpenOptions};
use std::io::{self, ErrorKind};
use std::os::unix::fs::FileExt;
use std::rt::Files;

/// The file's name, and the folder in which it lies.
const NAME: &str = "office.journal";

const FOLDER: &str = ".";

/// How many bytes of what was read are written again, and in which pieces. The last record that a
/// journal's reader passes takes 1,100,005 bytes at most with its gate and its length, and the
/// reader has read 1,048,576 bytes behind it at most.
const AGAIN: u64 = 3_145_728;

const PIECE: usize = 16_384;

/// Where a journal's first record begins: behind the header's 13 bytes and the first gate. What is
/// written in front of it makes a journal, of a file that may be anybody's.
const RECORDS: u64 = 14;

/// Whether the program's error output is the file of this name.
pub fn is_error_output<R: Files<File = File>>(rt: &R) -> bool {
    match fs::metadata(rt, NAME) {
        Ok(found) => is_told(rt, Identity::of(&found)),
        Err(_) => false,
    }
}

/// A file that was opened.
#[derive(Drop)]
pub enum OpenedFile {
    /// There was none to read.
    Missing,
    /// It is read alone.
    Reading(File),
    /// It is read and changed.
    Changing(ChangingFile),
}

/// A file that is read and changed.
#[derive(Drop)]
pub struct ChangingFile {
    file: File,
    identity: Identity,
    /// As the last own write left the file, or else the opening; none where it wasn't told.
    trace: Option<Trace>,
    /// The greatest end of what was read.
    read_end: u64,
    /// The greatest end of what was read or written.
    end: u64,
    /// What was read has been written again, and synced.
    rests: bool,
    /// What stood behind the journal has been cut off.
    is_cut: bool,
}

impl OpenedFile {
    /// Opens or makes the file and locks it. The folder is synced, so that a file just made keeps
    /// its name through a stop.
    pub fn for_changes<R: Files<File = File>>(rt: &R) -> io::Result<OpenedFile> {
        let file = OpenOptions::new()
            .read(true)
            .write(true)
            .create(true)
            .open(rt, NAME)?;
        if file.try_lock().is_err() {
            return Err(ErrorKind::WouldBlock.into());
        }
        let found = plain_file(rt, &file)?;
        File::open(rt, FOLDER)?.sync_all()?;
        Ok(OpenedFile::Changing(ChangingFile {
            file,
            identity: Identity::of(&found),
            trace: Some(Trace::of(&found)),
            read_end: 0,
            end: 0,
            rests: false,
            is_cut: false,
        }))
    }

    /// Opens the file to be read alone. No lock is asked for, so it is read beside a program that
    /// changes it too: what stands behind an open gate was written before that gate was opened.
    pub fn for_reading<R: Files<File = File>>(rt: &R) -> io::Result<OpenedFile> {
        let file = match open_to_read(rt) {
            Ok(file) => file,
            Err(error) if error.kind() == ErrorKind::NotFound => return Ok(OpenedFile::Missing),
            Err(error) => return Err(error),
        };
        plain_file(rt, &file)?;
        Ok(OpenedFile::Reading(file))
    }

    /// Whether the name still stands for the file, nobody else wrote into it, and it reaches as far
    /// as it was read and written. One that isn't changed needs none of these.
    pub fn stands<R: Files<File = File>>(&self, rt: &R) -> bool {
        match self {
            OpenedFile::Changing(changing) => changing.stands(rt),
            _ => true,
        }
    }

    /// Reads from `at` on, to the piece's end or the file's.
    pub fn read(&mut self, at: u64, piece: &mut [u8]) -> io::Result<usize>
        ensures { IfOk result (λ n. n ≤ length piece.new) }
    {
        match self {
            OpenedFile::Missing => Ok(0),
            OpenedFile::Reading(file) => read_whole(file, at, piece),
            OpenedFile::Changing(changing) => changing.read(at, piece),
        }
    }

    /// Writes all of the piece, where the file is changed.
    pub fn write(&mut self, at: u64, piece: &[u8]) -> io::Result<()> {
        match self {
            OpenedFile::Changing(changing) => changing.write(at, piece),
            _ => Err(ErrorKind::PermissionDenied.into()),
        }
    }

    /// Syncs the file's bytes.
    pub fn sync(&mut self) -> io::Result<()> {
        match self {
            OpenedFile::Missing => Ok(()),
            OpenedFile::Reading(file) => sync_read(file),
            OpenedFile::Changing(changing) => changing.sync(),
        }
    }
}

impl ChangingFile {
    fn stands<R: Files<File = File>>(&self, rt: &R) -> bool {
        match fs::metadata(rt, NAME) {
            Ok(found) => {
                Identity::of(&found) == self.identity
                    && Some(Trace::of(&found)) == self.trace
                    && self.end <= found.len()
            }
            Err(_) => false,
        }
    }

    fn read(&mut self, at: u64, piece: &mut [u8]) -> io::Result<usize>
        ensures { IfOk result (λ n. n ≤ length piece.new) }
    {
        let count = read_whole(&self.file, at, piece)?;
        if count > 0 {
            self.read_end = self.read_end.max(at.saturating_add(count as u64));
            self.end = self.end.max(self.read_end);
        }
        Ok(count)
    }

    fn write(&mut self, at: u64, piece: &[u8]) -> io::Result<()> {
        let outcome = self.put(at, piece);
        self.remember();
        outcome
    }

    /// Writes all of the piece. The first record that is written cuts off what stands behind it.
    fn put(&mut self, at: u64, piece: &[u8]) -> io::Result<()> {
        if at >= RECORDS && !self.is_cut {
            self.cut(at)?;
        }
        self.file.write_all_at(piece, at)?;
        self.end = self.end.max(at.saturating_add(piece.len() as u64));
        Ok(())
    }

    /// Cuts the file where it reaches further than `at`.
    ///
    /// A record is written right behind the closed gate that ends the journal, so what is cut off
    /// stands for nothing. It may be what an earlier program wrote and the disk refused. Where ext4
    /// has given a file new blocks and the first writing of them fails, it leaves them marked as
    /// without content on the disk, while their pages in the cache count as written: what is
    /// written there later is synced with success, reads well as long as the cache has it, and
    /// reads as zeros from the disk. The cut frees these blocks and drops their pages, so that no
    /// record stands in them.
    fn cut(&mut self, at: u64) -> io::Result<()> {
        if self.file.metadata()?.len() > at {
            self.file.set_len(at)?;
        }
        self.read_end = self.read_end.min(at);
        self.end = self.end.min(at);
        self.is_cut = true;
        Ok(())
    }

    /// Remembers how the file looks behind an own write; one that failed may have changed it too.
    fn remember(&mut self) {
        self.trace = self.file.metadata().ok().map(|found| Trace::of(&found));
    }

    /// Syncs the file's bytes; the first time that some were read, these are written again before.
    ///
    /// Where a sync fails, the system may keep what was written in its cache and take it for
    /// synced: a program that is started then reads it, and no sync of its own writes it. So before
    /// anything is rested on what was read, the last of it is put on the disk by writing it again.
    /// The same bytes over the same bytes change nothing, whenever a stop comes.
    fn sync(&mut self) -> io::Result<()> {
        if !self.rests && self.read_end > 0 {
            let outcome = write_again(&self.file, self.read_end);
            self.remember();
            outcome?;
            self.file.sync_data()?;
            self.rests = true;
            return Ok(());
        }
        self.file.sync_data()
    }
}

/// Opens the file to be read. What isn't a plain file is refused before: the opening of a pipe
/// would wait for one that writes.
fn open_to_read<R: Files<File = File>>(rt: &R) -> io::Result<File> {
    if !fs::metadata(rt, NAME)?.is_file() {
        return Err(ErrorKind::InvalidInput.into());
    }
    File::open(rt, NAME)
}

/// How the file looks. One that isn't a plain file is refused, and so is one that is the program's
/// own input, output or error output: what the program says would be written into it.
fn plain_file<R: Files<File = File>>(rt: &R, file: &File) -> io::Result<Metadata> {
    let found = file.metadata()?;
    if !found.is_file() || is_standard(rt, Identity::of(&found)) {
        return Err(ErrorKind::InvalidInput.into());
    }
    Ok(found)
}

fn read_whole(file: &File, at: u64, piece: &mut [u8]) -> io::Result<usize>
    ensures { IfOk result (λ n. n ≤ length piece.new) }
{
    let mut done = 0;
    while done < piece.len() {
        let count = file.read_at(&mut piece[done..], at.saturating_add(done as u64))?;
        if count == 0 {
            break;
        }
        done += count;
    }
    Ok(done)
}

/// Syncs a file that is read alone. A file system that can't be written has no sync, and needs
/// none.
fn sync_read(file: &File) -> io::Result<()> {
    match file.sync_data() {
        Err(error) if error.kind() == ErrorKind::InvalidInput => Ok(()),
        outcome => outcome,
    }
}

/// Writes the last bytes before `end` again, as they read.
fn write_again(file: &File, end: u64) -> io::Result<()> {
    let mut piece = [0; PIECE];
    let mut at = end.saturating_sub(AGAIN);
    while at < end {
        let size = (end - at).min(PIECE as u64) as usize;
        file.read_exact_at(&mut piece[..size], at)?;
        file.write_all_at(&piece[..size], at)?;
        at += size as u64;
    }
    Ok(())
}
