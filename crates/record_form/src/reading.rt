//! Reading records.
ghost use Rattle.std.specs.Prelude.{◌≡◌, IfOk, IfSome, Some};
ghost use Rattle.record_form.specs.Records.{command as command_form, entry as entry_form, entry_of};
ghost use Rattle.record_form.specs.Ranges.{IsEntryInRange, IsRecord};
ghost use Rattle.record_form.specs.Reading.{Reads};
ghost use Rattle.record_form.specs.declared.entry.Entry.{Entry};

use crate::command::Command;
use crate::cursor::{Cursor, Unread};
use crate::entry::Entry;
use slo_limits::{MAX_MINUTE, MAX_TEXT_BYTES, MAX_ZONE_BYTES};
use std::alloc::{AllocError, Global};

#[tactic(auto, unfolding(crate::specs::Records::command))]
fn read_command(alloc: Global, bytes: &mut Cursor) -> Result<Command, Unread>
    ensures { Reads command_form result bytes.old.left.now bytes.new.left.now }
{
    match bytes.byte()? {
        1 => Ok(Command::Define(bytes.long_text(alloc, MAX_TEXT_BYTES as u32)?)),
        2 => Ok(Command::Remove(bytes.kind()?, bytes.label()?)),
        3 => Ok(Command::PutZone(
            bytes.zone_name()?,
            bytes.long_text(alloc, MAX_ZONE_BYTES as u32)?,
        )),
        4 => Ok(Command::Samples(bytes.rows(alloc)?)),
        5 => Ok(Command::Exclude(bytes.exclusion()?)),
        6 => Ok(Command::Lift(bytes.label()?)),
        7 => Ok(Command::Tick),
        8 => Ok(Command::Take(bytes.number32()?)),
        9 => Ok(Command::Upgrade),
        _ => Err(Unread::NoRecord),
    }
}

#[tactic(auto, unfolding(crate::specs::Records::entry))]
fn read_entry(alloc: Global, bytes: &mut Cursor) -> Result<Entry, Unread>
    ensures { Reads entry_form result bytes.old.left.now bytes.new.left.now }
{
    Ok(Entry {
        moment: bytes.number_within(0, MAX_MINUTE)?,
        command: read_command(alloc, bytes)?,
    })
}

fn read_whole(alloc: Global, bytes: &[u8]) -> Result<Option<Entry>, AllocError>
    ensures { IfOk result (λ found. found ≡ entry_of bytes.now) }
{
    let mut cursor = Cursor { left: bytes };
    match read_entry(alloc, &mut cursor) {
        Ok(entry) => {
            if cursor.left.is_empty() {
                Ok(Some(entry))
            } else {
                Ok(None)
            }
        }
        Err(Unread::NoRecord) => Ok(None),
        Err(Unread::NoMemory) => Err(AllocError),
    }
}

/// The entry whose record the bytes are, all of them; none exactly where they are no record.
pub fn read_record(alloc: Global, bytes: &[u8]) -> Result<Option<Entry>, AllocError>
    ensures record { (e : Entry) → IfOk result (λ found. found ≡ Some e → IsRecord bytes.now e) }
    ensures each_record { (e : Entry) → IsRecord bytes.now e
        → IfOk result (λ found. found ≡ Some e) }
    ensures in_range { IfOk result (λ found. IfSome found IsEntryInRange) }
    ensures exact { IfOk result (λ found. found ≡ entry_of bytes.now) }
{
    read_whole(alloc, bytes)
}
