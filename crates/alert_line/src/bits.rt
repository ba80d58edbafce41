//! Two bits at a place of a byte.
ghost use Rattle.std.specs.Prelude.{◌≡◌, ◌<◌};
ghost use Rattle.alert_line.specs.Minutes.{bits_at, unit_of, with_bits};

/// Four to the power of a place.
fn unit_of(place: usize) -> u8
    requires { place < 4 }
    ensures value { result ≡ unit_of place }
    ensures some { 0 < result }
{
    if place == 0 {
        1
    } else if place == 1 {
        4
    } else if place == 2 {
        16
    } else {
        64
    }
}

pub(crate) fn bits_at(byte: u8, place: usize) -> u8
    requires { place < 4 }
    ensures value { result ≡ bits_at byte place }
    ensures few { result < 4 }
{
    (byte >> (2 * place)) & 3
}

pub(crate) fn with_bits(byte: u8, place: usize, bits: u8) -> u8
    requires place { place < 4 }
    requires bits { bits < 4 }
    ensures { result ≡ with_bits byte place bits }
{
    let unit = unit_of(place);
    byte - bits_at(byte, place) * unit + bits * unit
}
