//! Names of time zones.
ghost use Rattle.std.specs.Prelude.{◌≡◌, IsTrue};
ghost use Rattle.std.specs.List.{list_all};
ghost use Rattle.exact_fraction.specs.ZoneName.{is_zone_byte, is_zone_name, zone_name_of};

use crate::inline_name::{InlineName, has_name_length};
use crate::label::is_label_byte;
use std::fmt;
use std::marker::Model;

/// A name of 1 to 63 letters, digits, `.`, `_`, `-`, `/` and `+`, as `America/New_York`, kept as a
/// label is.
#[derive(Clone, Copy, PartialEq, Eq, PartialOrd, Ord, Hash)]
pub struct ZoneName {
    name: InlineName,
}

impl Model for ZoneName {
    ghost use Rattle.std.specs.Prelude.{List, ℕ, IsTrue};
    ghost use Rattle.exact_fraction.specs.ZoneName.{is_zone_name};

    ghost Value = { List ℕ };

    ghost view = { λ a. a.name };

    ghost invariant = { λ a. IsTrue (is_zone_name a.name) };

    ghost inverse = { λ text. record { name = text } };
}

impl ZoneName {
    /// The bytes of the name.
    pub fn as_bytes(&self) -> &[u8]
        ensures text { result.now ≡ self.now }
        ensures legal { IsTrue (is_zone_name self.now) }
    {
        self.name.as_bytes()
    }

    /// The name as text.
    pub fn as_str(&self) -> &str
        ensures { result.now ≡ self.now }
    {
        self.name.as_str()
    }
}

/// Reads a zone's name: none exactly where the text's length or one of its bytes is outside the
/// rule.
pub fn read_zone_name(text: &[u8]) -> Option<ZoneName>
    ensures { result ≡ zone_name_of text.now }
{
    if is_zone_name(text) {
        Some(ZoneName {
            name: InlineName::copy_of(text),
        })
    } else {
        None
    }
}

fn is_zone_name(text: &[u8]) -> bool
    ensures { result ≡ is_zone_name text.now }
{
    has_name_length(text) && all_zone_bytes(text)
}

fn all_zone_bytes(text: &[u8]) -> bool
    ensures { result ≡ list_all is_zone_byte text.now }
{
    text.iter().all(|byte| is_zone_byte(*byte))
}

fn is_zone_byte(byte: u8) -> bool
    ensures { result ≡ is_zone_byte byte }
{
    is_label_byte(byte) || byte == b'/' || byte == b'+'
}

impl fmt::Display for ZoneName {
    ghost use Rattle.std.specs.Prelude.{Some};

    ghost output = { λ name. Some name };

    fn fmt<W: fmt::Write>(&self, f: &mut fmt::Formatter<W>) -> fmt::Result {
        f.write_str(self.as_str())
    }
}

impl fmt::Debug for ZoneName {
    fn fmt<W: fmt::Write>(&self, f: &mut fmt::Formatter<W>) -> fmt::Result {
        let name = self.as_str();
        write!(f, "ZoneName({name})")
    }
}
