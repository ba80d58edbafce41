//! Numbers in four bytes, the highest first.
ghost use Rattle.std.specs.Prelude.{◌≡◌, length};
ghost use Rattle.slo_journal.specs.File.{four};

use byteorder::{BigEndian, ByteOrder};

/// The number that four bytes are.
pub fn number(bytes: &[u8]) -> u32
    requires { length bytes.now ≡ 4 }
    ensures { bytes.now ≡ four result }
{
    BigEndian::read_u32(bytes)
}

/// A number's four bytes.
pub fn four(number: u32) -> [u8; 4]
    ensures { result ≡ four number }
{
    let mut bytes = [0; 4];
    BigEndian::write_u32(&mut bytes, number);
    bytes
}
