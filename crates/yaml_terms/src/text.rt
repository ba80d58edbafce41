//! Texts of nodes.

ghost use Rattle.std.specs.Prelude.{◌≡◌, IfOk};
ghost use Rattle.std.specs.Str.{bytes_eq};
ghost use Rattle.std.specs.Cmp.Lexicographic.{slice_cmp};
ghost use Rattle.std.specs.Ordering.{nat_cmp, as_partial_cmp};
ghost use Rattle.yaml_terms.specs.KeptText.{kept_bytes};

use crate::short_text::{ROOM, ShortText};
use std::alloc::{AllocError, Global};
use std::cmp::Ordering;
use std::marker::Model;

/// Where the bytes of a text are kept. A document of many entries has mostly short texts: without
/// memory of their own they are read, copied and let go sooner.
#[derive(Debug, Drop)]
pub(crate) enum Kept {
    Short(ShortText),
    Long(Vec<u8>),
}

/// The text of a key or a scalar, as its bytes, by which texts are ordered.
#[derive(Debug, Drop)]
pub struct ScalarText {
    kept: Kept,
}

impl Model for ScalarText {
    ghost use Rattle.std.specs.Prelude.{List, ℕ};
    ghost use Rattle.yaml_terms.specs.KeptText.{kept_bytes};

    ghost Value = { List ℕ };

    ghost view = { λ t. kept_bytes t.kept };
}

/// Keeps bytes that have a place of their own.
fn taken(bytes: Vec<u8>) -> Kept
    ensures { kept_bytes result ≡ bytes.items }
{
    if bytes.len() <= ROOM {
        Kept::Short(ShortText::copy_of(bytes.as_slice()))
    } else {
        Kept::Long(bytes)
    }
}

/// Keeps a copy of these bytes.
fn copied(alloc: Global, bytes: &[u8]) -> Result<Kept, AllocError>
    ensures { IfOk result (λ kept. kept_bytes kept ≡ bytes.now) }
{
    if bytes.len() <= ROOM {
        Ok(Kept::Short(ShortText::copy_of(bytes)))
    } else {
        match Vec::from_slice(alloc, bytes) {
            Ok(copy) => Ok(Kept::Long(copy)),
            Err(refused) => Err(refused),
        }
    }
}

impl ScalarText {
    ghost use Rattle.std.specs.Prelude.{◌≡◌, IfOk};

    /// The text of these bytes.
    pub fn of(bytes: Vec<u8>) -> ScalarText
        ensures { result ≡ bytes.items }
    {
        ScalarText { kept: taken(bytes) }
    }

    /// The text of a copy of these bytes. The error is want of memory.
    pub fn copy_of(alloc: Global, bytes: &[u8]) -> Result<ScalarText, AllocError>
        ensures { IfOk result (λ text. text ≡ bytes.now) }
    {
        match copied(alloc, bytes) {
            Ok(kept) => Ok(ScalarText { kept }),
            Err(refused) => Err(refused),
        }
    }

    /// The bytes of the text.
    pub fn as_bytes(&self) -> &[u8]
        ensures { result.now ≡ self.now }
    {
        match &self.kept {
            Kept::Short(text) => text.as_bytes(),
            Kept::Long(bytes) => bytes.as_slice(),
        }
    }
}

impl PartialEq for ScalarText {
    ghost use Rattle.std.specs.Cmp.{partial_equiv_from_equiv};
    ghost use Rattle.std.specs.Cmp.Lexicographic.{nat_list_eq_equiv};

    ghost eq = { bytes_eq };

    ghost laws = { partial_equiv_from_equiv nat_list_eq_equiv };

    fn eq(&self, other: &ScalarText) -> bool {
        self.as_bytes() == other.as_bytes()
    }
}

impl Eq for ScalarText {
    ghost use Rattle.std.specs.Cmp.Lexicographic.{nat_list_eq_equiv};

    ghost laws = { nat_list_eq_equiv };
}

impl PartialOrd for ScalarText {
    ghost use Rattle.std.specs.Cmp.Lexicographic.{texts_po};

    ghost partial_cmp = { as_partial_cmp (slice_cmp nat_cmp) };

    ghost laws = { texts_po };

    fn partial_cmp(&self, other: &ScalarText) -> Option<Ordering> {
        Some(self.cmp(other))
    }
}

impl Ord for ScalarText {
    ghost use Rattle.std.specs.Prelude.{refl};
    ghost use Rattle.std.specs.Cmp.Lexicographic.{nat_list_cmp_total, texts_ties};

    ghost cmp = { slice_cmp nat_cmp };

    ghost total = { nat_list_cmp_total };

    ghost matches_partial_cmp = { λ _ _. refl };

    ghost matches_eq = { texts_ties };

    fn cmp(&self, other: &ScalarText) -> Ordering {
        self.as_bytes().cmp(other.as_bytes())
    }
}
