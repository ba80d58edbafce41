//! Why the calls on a journal end without what they were asked for.

/// The disk failed: its count of faults rose in the call.
#[derive(Clone, Copy, Debug, Drop, PartialEq, Eq)]
pub struct DiskFault;

/// Why no journal was made.
#[derive(Clone, Copy, Debug, Drop, PartialEq, Eq)]
pub enum CreateFault {
    /// The disk failed.
    DiskFault,
    /// A journal's header stands in the file.
    AlreadyThere,
}

/// Why a file isn't opened.
#[derive(Clone, Copy, Debug, Drop, PartialEq, Eq)]
pub enum OpenFault {
    /// The disk failed.
    DiskFault,
    /// No header stands in the file.
    NotAJournal,
}

/// Why no record was read.
#[derive(Clone, Copy, Debug, Drop, PartialEq, Eq)]
pub enum ScanFault {
    /// The disk failed.
    DiskFault,
    /// The record whose gate stands at this place runs past the file's end, or past the bytes at
    /// which a reader looks, or has a length out of range; or the file has no gate there.
    Damaged { at: u64 },
    /// Memory was refused.
    NoMemory,
}

/// Why a record wasn't added.
#[derive(Clone, Copy, Debug, Drop, PartialEq, Eq)]
pub enum AppendFault {
    /// The record doesn't fit behind the closed gate at `tail`: the file would need so many bytes.
    JournalFull { tail: u64, needed: u64 },
    /// The disk failed before the gate was touched. The record is in no image.
    NotKept,
    /// The disk failed at the gate. The record may be kept or not.
    InDoubt,
}
