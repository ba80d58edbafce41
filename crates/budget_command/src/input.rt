//! The input of `budget`, judged while it is read.
ghost use Rattle.std.specs.Prelude.{◌≡◌, ◌+◌, ◌≤◌, [], Err, None, OnOk};
ghost use Rattle.office_outside.specs.Faults.{Rose};
ghost use Rattle.office_outside.specs.Told.{HasNothingLeft};
ghost use Rattle.budget_command.specs.Input.{HasJudgedAll, HasMore, TakesAtMost};
ghost use Rattle.budget_command.specs.Tables.{CanGoOn, HasJudged};

use crate::MAX_INPUT_BYTES;
use crate::judging::{Judging, take_piece};
use csv_records::WaitingText;
use office_outside::Source;
use std::alloc::{AllocError, Global};

/// How many bytes are read at once.
const PIECE: usize = 65_536;

/// Why an input isn't judged.
#[derive(Clone, Copy, Debug, PartialEq, Eq)]
pub enum InputFault {
    TooLarge,
    ReadFault,
    NoMemory,
}

/// Judges all records of an input of at most `MAX_INPUT_BYTES` bytes. Where a record breaks a rule
/// the input is still read to its end, so that one that is too large is refused as that.
pub fn judge_input<S: Source>(
    judging: &mut Judging,
    alloc: Global,
    input: &mut S,
) -> Result<(), InputFault>
    requires { HasJudged [] judging.old }
    ensures ok { OnOk result (HasJudgedAll (S.left input.old) judging.new) }
    ensures going { OnOk result (judging.new.fault ≡ None →
        CanGoOn judging.new.table judging.new.number) }
    ensures end { OnOk result (HasNothingLeft (S.left input.new)) }
    ensures large { result ≡ Err InputFault.TooLarge →
        HasMore MAX_INPUT_BYTES (S.left input.old) }
    ensures read { result ≡ Err InputFault.ReadFault →
        Rose (S.faults input.old) (S.faults input.new) }
    ensures later { S.faults input.old ≤ S.faults input.new }
    ensures takes { TakesAtMost (MAX_INPUT_BYTES + 1) (S.left input.old) (S.left input.new) }
{
    let mut waiting = WaitingText::new(alloc);
    let mut piece = [0u8; PIECE];
    let mut taken: usize = 0;
    'reading: while taken <= MAX_INPUT_BYTES {
        let room = (MAX_INPUT_BYTES + 1 - taken).min(PIECE);
        let Ok(count) = input.read(&mut piece[..room]) else {
            return Err(InputFault::ReadFault);
        };
        if count == 0 {
            return match judging.judge_part(alloc, waiting.text()) {
                Ok(()) => Ok(()),
                Err(AllocError) => Err(InputFault::NoMemory),
            };
        }
        taken += count;
        if take_piece(judging, &mut waiting, alloc, &piece[..count]).is_err() {
            return Err(InputFault::NoMemory);
        }
    }
    Err(InputFault::TooLarge)
}
