//! Reading numbers and bytes from the front of a record.
ghost use Rattle.std.specs.Prelude.{◌≡◌};
ghost use Rattle.std.specs.Int.{w16, w32, w64};
ghost use Rattle.record_form.specs.Form.{byte, number, first_bytes};
ghost use Rattle.record_form.specs.Records.{number_within};
ghost use Rattle.record_form.specs.Reading.{Reads, ReadsAs};
ghost use Rattle.record_form.specs.declared.cursor.Unread.TheVariants.{NoMemory};

use std::alloc::{AllocError, AllocFailed};

/// Why bytes weren't read as an entry.
#[derive(Clone, Copy, Drop)]
pub(crate) enum Unread {
    /// They are no record.
    NoRecord,
    /// Memory ran out.
    NoMemory,
}

impl From<AllocError> for Unread {
    ghost from_gives = { λ _ e. e ≡ NoMemory };

    fn from(_error: AllocError) -> Unread {
        Unread::NoMemory
    }
}

impl<T: Drop> From<AllocFailed<T>> for Unread {
    ghost from_gives = { λ _ e. e ≡ NoMemory };

    fn from(_error: AllocFailed<T>) -> Unread {
        Unread::NoMemory
    }
}

/// The bytes that weren't read yet.
#[derive(Drop)]
pub(crate) struct Cursor<'a> {
    pub(crate) left: &'a [u8],
}

impl<'a> Cursor<'a> {
    pub(crate) fn byte(&mut self) -> Result<u8, Unread>
        ensures { Reads byte result self.old.left.now self.new.left.now }
    {
        match self.left {
            [first, rest @ ..] => {
                self.left = rest;
                Ok(*first)
            }
            [] => Err(Unread::NoRecord),
        }
    }

    pub(crate) fn number16(&mut self) -> Result<u16, Unread>
        ensures { Reads (number w16) result self.old.left.now self.new.left.now }
    {
        let Some((number, rest)) = self.left.split_first_chunk::<2>() else {
            return Err(Unread::NoRecord);
        };
        self.left = rest;
        Ok(u16::from_be_bytes(*number))
    }

    pub(crate) fn number32(&mut self) -> Result<u32, Unread>
        ensures { Reads (number w32) result self.old.left.now self.new.left.now }
    {
        let Some((number, rest)) = self.left.split_first_chunk::<4>() else {
            return Err(Unread::NoRecord);
        };
        self.left = rest;
        Ok(u32::from_be_bytes(*number))
    }

    pub(crate) fn number64(&mut self) -> Result<u64, Unread>
        ensures { Reads (number w64) result self.old.left.now self.new.left.now }
    {
        let Some((number, rest)) = self.left.split_first_chunk::<8>() else {
            return Err(Unread::NoRecord);
        };
        self.left = rest;
        Ok(u64::from_be_bytes(*number))
    }

    #[tactic(auto, unfolding(crate::specs::Records::number_within))]
    pub(crate) fn number_within(&mut self, least: u32, most: u32) -> Result<u32, Unread>
        ensures { Reads (number_within least most) result self.old.left.now self.new.left.now }
    {
        let number = self.number32()?;
        if least <= number && number <= most {
            Ok(number)
        } else {
            Err(Unread::NoRecord)
        }
    }

    /// The next bytes, as many as the count says.
    pub(crate) fn bytes(&mut self, count: usize) -> Result<&'a [u8], Unread>
        ensures { ReadsAs (λ bytes. bytes.now) (first_bytes count) result self.old.left.now
            self.new.left.now }
    {
        if self.left.len() < count {
            return Err(Unread::NoRecord);
        }
        let (front, rest) = self.left.split_at(count);
        self.left = rest;
        Ok(front)
    }
}
