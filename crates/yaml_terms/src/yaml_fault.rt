//! The fault of a text.

use crate::profile_fault::ProfileFault;

/// Why a text wasn't read.
#[derive(Debug, Drop)]
pub enum YamlFault {
    /// It has more than `MAX_TEXT_BYTES` bytes.
    TooLarge,
    /// It isn't UTF-8: the place of the first byte that no UTF-8 text can have there, the first
    /// byte's being 0.
    /// The text's length where it ends inside a character.
    NotUtf8(usize),
    /// Its first lines up to this one, the first being 1, are no text of the profile, and that line
    /// has this fault.
    Form { line: usize, which: ProfileFault },
    /// Memory ran out.
    NoMemory,
}
