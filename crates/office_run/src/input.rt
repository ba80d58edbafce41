//! The input of a command, read to its end.
ghost use Rattle.std.specs.Prelude.{◌≡◌, ◌+◌, ◌≤◌, ◌<◌, length, IfOk};
ghost use Rattle.office_outside.specs.Faults.{RoseBy};
ghost use Rattle.budget_command.specs.Input.{HasMore, TakesAtMost};
ghost use Rattle.office_run.specs.Inputs.{HasRead};

use office_outside::Source;
use std::alloc::Global;

/// How many bytes are read at once.
const PIECE: usize = 8_192;

/// Why an input isn't read.
#[derive(Clone, Copy, Debug, PartialEq, Eq)]
pub enum InputFault {
    TooLarge,
    ReadFault,
    NoMemory,
}

/// All bytes of an input of at most `most` bytes.
pub fn read_input<S: Source>(
    alloc: Global,
    input: &mut S,
    most: usize,
) -> Result<Vec<u8>, InputFault>
    requires { most < usize.MAX }
    ensures ok { IfOk result (λ bytes. HasRead bytes.items (S.left input.old) (S.left input.new)) }
    ensures small { IfOk result (λ bytes. length bytes.items ≤ most) }
    ensures large { result ≡ Err InputFault.TooLarge → HasMore most (S.left input.old) }
    ensures read { result ≡ Err InputFault.ReadFault → RoseBy S.faults input.old input.new }
    ensures later { S.faults input.old ≤ S.faults input.new }
    ensures takes { TakesAtMost (most + 1) (S.left input.old) (S.left input.new) }
{
    let mut bytes: Vec<u8> = Vec::new(alloc);
    let mut piece = [0u8; PIECE];
    'reading: while bytes.len() <= most {
        let room = (most + 1 - bytes.len()).min(PIECE);
        let Ok(count) = input.read(&mut piece[..room]) else {
            return Err(InputFault::ReadFault);
        };
        if count == 0 {
            return Ok(bytes);
        }
        if bytes.extend_from_slice(&piece[..count]).is_err() {
            return Err(InputFault::NoMemory);
        }
    }
    Err(InputFault::TooLarge)
}
