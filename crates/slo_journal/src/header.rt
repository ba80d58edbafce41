//! The header of a journal's file.
ghost use Rattle.std.specs.Prelude.{◌≡◌, ◌+◌, ◌<◌, ◌≤◌, List, ℕ, length, take, OnOk, IfOk, IfSome};
ghost use Rattle.std.specs.Prelude.{Some, None, true, false, codes};
ghost use Rattle.office_outside.specs.Disk.{OnlyAsRead, IsQuiet};
ghost use Rattle.office_outside.specs.Faults.{HasCauseBy};
ghost use Rattle.slo_journal.specs.File.{four};
ghost use Rattle.slo_journal.specs.Front.{IsHeader, IsFront, header_of};
ghost use Rattle.slo_journal.specs.declared.header.Front.TheVariants.{Header};

use crate::numbers::{four, number};
use office_outside::{Disk, Failed};
use slo_limits::MAX_MINUTE;

/// How many bytes a header has: its gate, its name and the origin.
const SIZE: usize = 13;

/// What stands at the front of a file.
#[derive(Debug, Drop, PartialEq, Eq)]
pub enum Front {
    /// A header with this origin.
    Header(u32),
    /// No header, behind a closed gate.
    Shut,
    /// No header, behind another byte or none.
    Bare,
}

/// Syncs, and looks at the front of the file.
pub fn look_at_front<D: Disk>(disk: &mut D) -> Result<Front, Failed>
    ensures front { IfOk result (λ front. (file : List ℕ) → D.senses.content disk.old ≡ Some file
        → IsFront front file) }
    ensures range { (origin : ℕ) → result ≡ Ok (Header origin) → origin ≤ MAX_MINUTE }
    ensures content { D.senses.content disk.new ≡ D.senses.content disk.old }
    ensures only { OnOk result (OnlyAsRead (D.senses.content disk.old) (D.senses.images disk.new)) }
    ensures quiet { IsQuiet D.senses disk.old disk.new }
    ensures cause { HasCauseBy D.senses.faults disk.old disk.new result }
{
    disk.sync()?;
    let mut bytes = [0; SIZE];
    let count = disk.read_at(0, &mut bytes)?;
    Ok(front_of(&bytes[..count]))
}

/// What the first bytes of a file are.
fn front_of(bytes: &[u8]) -> Front
    requires { length bytes.now ≤ 13 }
    ensures front { IsFront result bytes.now }
    ensures range { (origin : ℕ) → result ≡ Header origin → origin ≤ MAX_MINUTE }
{
    if let Some(origin) = read_header(bytes) {
        return Front::Header(origin);
    }
    if bytes.is_empty() {
        return Front::Bare;
    }
    if bytes[0] == 0 {
        return Front::Shut;
    }
    Front::Bare
}

/// The origin, where the bytes are a header.
fn read_header(bytes: &[u8]) -> Option<u32>
    ensures some { IfSome result (λ o. IsHeader o bytes.now) }
    ensures range { IfSome result (λ o. o ≤ MAX_MINUTE) }
    ensures none { result ≡ None → (o : ℕ) → IsHeader o bytes.now → ⊥ }
{
    if bytes.len() != SIZE || bytes[0] == 0 || !is_name(&bytes[1..9]) {
        return None;
    }
    let origin = number(&bytes[9..]);
    if origin <= MAX_MINUTE {
        Some(origin)
    } else {
        None
    }
}

fn is_name(name: &[u8]) -> bool
    ensures yes { result ≡ true → name.now ≡ codes "OSLOJRN1" }
    ensures no { result ≡ false → name.now ≡ codes "OSLOJRN1" → ⊥ }
{
    match name {
        [b'O', b'S', b'L', b'O', b'J', b'R', b'N', b'1'] => true,
        _ => false,
    }
}

/// The header's bytes behind its gate, and the first record's closed gate.
pub fn header_of(origin: u32) -> [u8; SIZE]
    ensures { result ≡ header_of origin }
{
    let [a, b, c, d] = four(origin);
    [
        b'O', b'S', b'L', b'O', b'J', b'R', b'N', b'1', a, b, c, d, 0,
    ]
}
