//! A short text kept inline, and compared, ordered and hashed eight bytes at a time.
ghost use Rattle.std.specs.Prelude.{◌≡◌, ◌<◌, ◌+◌, ◌*◌, replicate, slice_index, flat_map, nat_eq};
ghost use Rattle.std.specs.Hash as fed;
ghost use Rattle.std.specs.Str.{bytes_eq};
ghost use Rattle.std.specs.Cmp.Lexicographic.{slice_cmp};
ghost use Rattle.std.specs.Ordering.{nat_cmp, as_partial_cmp};
ghost use Rattle.exact_fraction.specs.InlineName.{IsInline, has_name_length, padded, word_from};
ghost use Rattle.exact_fraction.specs.InlineName.{words_of};

use slo_limits::MAX_LABEL_BYTES;
use std::cmp::Ordering;
use std::hash::{Hash, Hasher};
use std::marker::Model;

/// Up to `MAX_LABEL_BYTES` ASCII bytes, none of them 0, so that padding with zeros keeps the order.
#[derive(Clone, Copy)]
pub struct InlineName {
    // The text, zeros, and in the last byte the text's length.
    bytes: [u8; 64],
}

impl Model for InlineName {
    ghost use Rattle.std.specs.Prelude.{List, ℕ, take, slice_index};
    ghost use Rattle.std.proofs.Common.{ap, sym};
    ghost use Rattle.slo_limits.specs.declared.TheConstants.{MAX_LABEL_BYTES};
    ghost use Rattle.exact_fraction.specs.InlineName.{IsPadded, padded};

    ghost Value = { List ℕ };

    ghost view = { λ a. take (slice_index a.bytes MAX_LABEL_BYTES) a.bytes };

    ghost invariant = { λ a. IsPadded a.bytes };

    ghost inverse = { λ text. record { bytes = padded text } };

    ghost inverse_ok = { λ a h. sym (ap (λ b. record { bytes = b }) h.fills) };
}

impl InlineName {
    /// The name of a text that fits.
    pub(crate) fn copy_of(text: &[u8]) -> InlineName
        requires { IsInline text.now }
        ensures { result ≡ text.now }
    {
        let mut bytes = zeros();
        for (place, byte) in text.iter().enumerate() {
            bytes[place] = *byte;
        }
        bytes[MAX_LABEL_BYTES] = text.len() as u8;
        InlineName { bytes }
    }

    pub(crate) fn as_bytes(&self) -> &[u8]
        ensures text { result.now ≡ self.now }
        ensures legal { IsInline self.now }
    {
        &self.bytes[..usize::from(self.bytes[MAX_LABEL_BYTES])]
    }

    pub(crate) fn as_str(&self) -> &str
        ensures { result.now ≡ self.now }
    {
        let text = self.as_bytes();
        // Each byte is ASCII.
        match str::from_utf8(text) {
            Ok(text) => text,
            Err(_) => "",
        }
    }

    /// Eight of the 64 bytes as one number, the first byte the highest.
    fn word(&self, at: usize) -> u64
        requires { at < 8 }
        ensures word { result ≡ word_from (8 * at) (padded self.now) }
        ensures legal { IsInline self.now }
    {
        let first = 8 * at;
        let b = &self.bytes;
        u64::from_be_bytes([
            b[first],
            b[first + 1],
            b[first + 2],
            b[first + 3],
            b[first + 4],
            b[first + 5],
            b[first + 6],
            b[first + 7],
        ])
    }

    /// All 64 bytes. Read so, names are ordered as their texts are.
    fn words(&self) -> [u64; 8]
        ensures words { result ≡ words_of self.now }
        ensures legal { IsInline self.now }
    {
        [
            self.word(0),
            self.word(1),
            self.word(2),
            self.word(3),
            self.word(4),
            self.word(5),
            self.word(6),
            self.word(7),
        ]
    }
}

/// Whether a text is as long as a name can be.
pub(crate) fn has_name_length(text: &[u8]) -> bool
    ensures { result ≡ has_name_length text.now }
{
    1 <= text.len() && text.len() <= MAX_LABEL_BYTES
}

/// No byte yet.
fn zeros() -> [u8; 64]
    ensures { result ≡ replicate 64 0 }
{
    [0; 64]
}

impl PartialEq for InlineName {
    ghost use Rattle.std.specs.Cmp.{partial_equiv_from_equiv};
    ghost use Rattle.std.specs.Cmp.Lexicographic.{nat_list_eq_equiv};

    ghost eq = { bytes_eq };

    ghost laws = { partial_equiv_from_equiv nat_list_eq_equiv };

    fn eq(&self, other: &InlineName) -> bool {
        self.words() == other.words()
    }
}

impl Eq for InlineName {
    ghost use Rattle.std.specs.Cmp.Lexicographic.{nat_list_eq_equiv};

    ghost laws = { nat_list_eq_equiv };
}

impl Hash for InlineName {
    ghost use Rattle.std.proofs.Common.{rules};
    ghost use Rattle.std.specs.Cmp.Rules.{hashing};

    ghost hash_input = { λ text. flat_map fed.u64 (words_of text) };

    ghost respects_eq = { Prim.search (hashing, rules) };

    fn hash<H: Hasher>(&self, state: &mut H) {
        u64::hash_slice(&self.words(), state);
    }
}

impl PartialOrd for InlineName {
    ghost use Rattle.std.specs.Cmp.Lexicographic.{texts_po};

    ghost partial_cmp = { as_partial_cmp (slice_cmp nat_cmp) };

    ghost laws = { texts_po };

    fn partial_cmp(&self, other: &InlineName) -> Option<Ordering> {
        Some(self.cmp(other))
    }
}

impl Ord for InlineName {
    ghost use Rattle.std.specs.Prelude.{refl};
    ghost use Rattle.std.specs.Cmp.Lexicographic.{nat_list_cmp_total, texts_ties};

    ghost cmp = { slice_cmp nat_cmp };

    ghost total = { nat_list_cmp_total };

    ghost matches_partial_cmp = { λ _ _. refl };

    ghost matches_eq = { texts_ties };

    fn cmp(&self, other: &InlineName) -> Ordering {
        self.words().cmp(&other.words())
    }
}
