//! Pieces of an input.
ghost use Rattle.std.specs.Prelude.{◌≡◌, ◌+◌, ◌≤◌, ◌<◌, [], true, false};
ghost use Rattle.std.specs.Prelude.{length, Ok, Err, IfErr, OnOk};
ghost use Rattle.office_outside.specs.Faults.{RoseBy};
ghost use Rattle.office_outside.specs.Told.{HasNothingLeft, Lost};
ghost use Rattle.slo_limits.specs.declared.TheConstants.{MAX_RECORD_BYTES};
ghost use Rattle.entry_records.specs.declared.limits.TheConstants.{MAX_FEEDS_BYTES};
ghost use Rattle.follow_terms.specs.declared.FollowEnd.TheVariants.{DiskFault, ReadFault};
ghost use Rattle.follow_terms.specs.Follows.{IsOutside};
ghost use Rattle.follow_terms.specs.Pieces.{numeral};
ghost use Rattle.office_follow.specs.Pieces.{IsTaken, LacksPiece};

use entry_records::MAX_FEEDS_BYTES;
use follow_terms::FollowEnd;
use office_outside::Source;

/// How many bytes are read at once.
const PIECE: usize = 8_192;

/// The number of four bytes at a place.
pub(crate) fn numeral(bytes: &[u8], place: usize) -> u32
    requires { place + 4 ≤ length bytes.now }
    ensures { result ≡ numeral place bytes.now }
{
    match bytes[place..].split_first_chunk::<4>() {
        Some((number, _)) => u32::from_be_bytes(*number),
        None => unreachable!(),
    }
}

/// Reads until there are so many bytes, or the input ends.
fn fill<S: Source>(input: &mut S, out: &mut Vec<u8>, most: usize) -> Result<(), FollowEnd>
    requires { out.old.items ≡ [] }
    ensures lost { OnOk result (Lost out.new.items (S.left input.old) (S.left input.new)) }
    ensures few { OnOk result (length out.new.items ≤ most) }
    ensures end { OnOk result (length out.new.items < most → HasNothingLeft (S.left input.new)) }
    ensures outside { IfErr result IsOutside }
    ensures cause { result ≡ Err ReadFault → RoseBy S.faults input.old input.new }
    ensures never { result ≡ Err DiskFault → ⊥ }
    ensures later { S.faults input.old ≤ S.faults input.new }
{
    let mut piece = [0u8; PIECE];
    'reading: while out.len() < most {
        let room = (most - out.len()).min(PIECE);
        let Ok(count) = input.read(&mut piece[..room]) else {
            return Err(FollowEnd::ReadFault);
        };
        if count == 0 {
            return Ok(());
        }
        if out.extend_from_slice(&piece[..count]).is_err() {
            return Err(FollowEnd::NoMemory);
        }
    }
    Ok(())
}

/// Takes the next piece, of so many bytes, where so many were read before it; false where nothing
/// is left. At most one byte is read past the most that is followed.
pub(crate) fn take_piece<S: Source>(
    input: &mut S,
    at: u64,
    size: usize,
    out: &mut Vec<u8>,
) -> Result<bool, FollowEnd>
    requires at { at ≤ MAX_FEEDS_BYTES }
    requires size { (1 ≤ size) × (size ≤ MAX_RECORD_BYTES) }
    ensures taken { result ≡ Ok true → IsTaken at size out.new.items (S.left input.old)
        (S.left input.new) }
    ensures whole { result ≡ Ok true → (length out.new.items ≡ size)
        × (at + size ≤ MAX_FEEDS_BYTES) }
    ensures none { result ≡ Ok false → HasNothingLeft (S.left input.old) }
    ensures lacks { IfErr result (LacksPiece at size (S.left input.old)) }
    ensures cause { result ≡ Err ReadFault → RoseBy S.faults input.old input.new }
    ensures never { result ≡ Err DiskFault → ⊥ }
    ensures later { S.faults input.old ≤ S.faults input.new }
{
    out.clear();
    let room = (MAX_FEEDS_BYTES + 1 - at) as usize;
    let most = size.min(room);
    match fill(input, out, most) {
        Ok(()) => {
            if out.is_empty() {
                return Ok(false);
            }
            if out.len() < most {
                return Err(FollowEnd::Cut);
            }
            if room <= size {
                return Err(FollowEnd::TooLarge);
            }
            Ok(true)
        }
        Err(end) => Err(end),
    }
}
