//! Names of services, objectives, sources and rows.
ghost use Rattle.std.specs.Prelude.{◌≡◌, IsTrue};
ghost use Rattle.std.specs.List.{list_all};
ghost use Rattle.exact_fraction.specs.Label.{is_label, is_label_byte, label_of};

use crate::inline_name::{InlineName, has_name_length};
use std::fmt;
use std::marker::Model;

/// A name of 1 to 63 letters, digits, `.`, `_` and `-`, kept inline in 64 bytes.
/// Labels are ordered by their bytes, and compared and hashed by machine words.
#[derive(Clone, Copy, PartialEq, Eq, PartialOrd, Ord, Hash)]
pub struct Label {
    name: InlineName,
}

impl Model for Label {
    ghost use Rattle.std.specs.Prelude.{List, ℕ, IsTrue};
    ghost use Rattle.exact_fraction.specs.Label.{is_label};

    ghost Value = { List ℕ };

    ghost view = { λ a. a.name };

    ghost invariant = { λ a. IsTrue (is_label a.name) };

    ghost inverse = { λ text. record { name = text } };
}

impl Label {
    /// The bytes of the name.
    pub fn as_bytes(&self) -> &[u8]
        ensures text { result.now ≡ self.now }
        ensures legal { IsTrue (is_label self.now) }
    {
        self.name.as_bytes()
    }

    /// The name as text.
    pub fn as_str(&self) -> &str
        ensures text { result.now ≡ self.now }
    {
        self.name.as_str()
    }
}

/// Reads a label: none exactly where the text's length or one of its bytes is outside the rule.
pub fn read_label(text: &[u8]) -> Option<Label>
    ensures { result ≡ label_of text.now }
{
    if is_label(text) {
        Some(Label {
            name: InlineName::copy_of(text),
        })
    } else {
        None
    }
}

fn is_label(text: &[u8]) -> bool
    ensures { result ≡ is_label text.now }
{
    has_name_length(text) && all_label_bytes(text)
}

fn all_label_bytes(text: &[u8]) -> bool
    ensures { result ≡ list_all is_label_byte text.now }
{
    text.iter().all(|byte| is_label_byte(*byte))
}

pub(crate) fn is_label_byte(byte: u8) -> bool
    ensures { result ≡ is_label_byte byte }
{
    byte.is_ascii_alphanumeric() || byte == b'.' || byte == b'_' || byte == b'-'
}

impl fmt::Display for Label {
    ghost use Rattle.std.specs.Prelude.{Some};

    ghost output = { λ label. Some label };

    fn fmt<W: fmt::Write>(&self, f: &mut fmt::Formatter<W>) -> fmt::Result {
        f.write_str(self.as_str())
    }
}

impl fmt::Debug for Label {
    fn fmt<W: fmt::Write>(&self, f: &mut fmt::Formatter<W>) -> fmt::Result {
        let name = self.as_str();
        write!(f, "Label({name})")
    }
}
