//! The input, read to its end before any record is judged.
ghost use Rattle.std.specs.Prelude.{◌≡◌, ◌+◌, ◌≤◌, ◌<◌, length, Err, IfOk};
ghost use Rattle.office_outside.specs.Faults.{Rose};
ghost use Rattle.counters_command.specs.Inputs.{HasMore, HasRead, TakesAtMost};

use office_outside::Source;
use std::alloc::Global;

/// How many bytes are read at once.
const PIECE: usize = 65_536;

/// Why an input isn't read.
#[derive(Clone, Copy, Debug, PartialEq, Eq)]
pub enum InputFault {
    TooLarge,
    ReadFault,
    NoMemory,
}

/// All bytes of an input of at most `most` bytes. Their room is taken at once, so that no copy
/// stands beside it while it grows; a page of it that is never written costs nothing.
pub(crate) fn read_whole<S: Source>(
    alloc: Global,
    input: &mut S,
    most: usize,
) -> Result<Vec<u8>, InputFault>
    requires { most < usize.MAX }
    ensures ok { IfOk result (λ bytes. HasRead bytes.items (S.left input.old) (S.left input.new)) }
    ensures small { IfOk result (λ bytes. length bytes.items ≤ most) }
    ensures large { result ≡ Err InputFault.TooLarge → HasMore most (S.left input.old) }
    ensures read { result ≡ Err InputFault.ReadFault →
        Rose (S.faults input.old) (S.faults input.new) }
    ensures later { S.faults input.old ≤ S.faults input.new }
    ensures takes { TakesAtMost (most + 1) (S.left input.old) (S.left input.new) }
{
    let mut bytes: Vec<u8> = Vec::new(alloc);
    let mut piece = [0u8; PIECE];
    if bytes.reserve(most + 1).is_err() {
        return Err(InputFault::NoMemory);
    }
    'reading: while bytes.len() <= most {
        let room = (most + 1 - bytes.len()).min(PIECE);
        let Ok(count) = input.read(&mut piece[..room]) else {
            return Err(InputFault::ReadFault);
        };
        if count == 0 {
            return Ok(bytes);
        }
        if bytes.extend_from_slice(&piece[..count]).is_err() {
            return Err(InputFault::NoMemory);
        }
    }
    Err(InputFault::TooLarge)
}
