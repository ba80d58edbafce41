//! The entries of a map that is still open.

ghost use Rattle.std.specs.Prelude.{◌≡◌, IfOk, OnOk, not};
ghost use Rattle.std.specs.BTreeSet.{contains_by, insert_key};
ghost use Rattle.yaml_subset.specs.KeysView.{in_order, numbered};
ghost use Rattle.yaml_subset.specs.KeysView.{number_of as number_of_def};
ghost use Rattle.yaml_subset.specs.KeysView.{with_byte as with_byte_def};

use std::alloc::{AllocError, Global};
use std::collections::BTreeSet;
use std::marker::Model;
use yaml_terms::{Node, Pairs, ScalarText};

/// The entries so far and the key whose value is open, with copies of their keys in order, each
/// behind its number: a map of many keys is read in little more than linear time, whatever its keys
/// are, and each key is looked up once.
#[derive(Drop)]
pub(crate) struct OpenEntries {
    pairs: Pairs,
    key: ScalarText,
    keys: BTreeSet<(u64, ScalarText)>,
}

impl Model for OpenEntries {
    ghost use Rattle.std.specs.Prelude.{List, ℕ};
    ghost use Rattle.yaml_terms.specs.declared.ScalarText.{ScalarText};
    ghost use Rattle.yaml_terms.specs.declared.Node.{Node};
    ghost use Rattle.yaml_terms.specs.contracts.node.Node as node;
    ghost use Rattle.std.specs.Coded.{codes};
    ghost use Rattle.yaml_subset.specs.KeysView.{AreKeysOf};

    ghost Value = { List (ScalarText × Node) × ScalarText };

    ghost coded = { Prim.hlevel (codes, node.the_row.coded) };

    ghost view = { λ e. (e.pairs.items, e.key) };

    ghost invariant = { λ e. AreKeysOf e.pairs.items e.key e.keys };
}

/// A number with one more byte, but for what passes 64 bits.
fn with_byte(number: u64, byte: u8) -> u64
    ensures { result ≡ with_byte_def number byte }
{
    number.wrapping_mul(256).wrapping_add(u64::from(byte))
}

/// A number of a key, of its last eight bytes: mostly it tells two keys apart sooner than their
/// bytes do.
fn number_of(key: &[u8]) -> u64
    ensures { result ≡ number_of_def key.now }
{
    let mut number: u64 = 0;
    for byte in key {
        number = with_byte(number, *byte);
    }
    number
}

/// The keys with one more, and whether it is new.
fn with_key(
    alloc: Global,
    keys: &mut BTreeSet<(u64, ScalarText)>,
    key: &ScalarText,
) -> Result<bool, AllocError>
    ensures new { IfOk result
        (λ new. new ≡ not (contains_by (in_order (numbered key.now)) keys.old)) }
    ensures keys { OnOk result
        (keys.new.keys ≡ insert_key in_order keys.old.keys (numbered key.now)) }
{
    let bytes = key.as_bytes();
    let number = number_of(bytes);
    let copy = ScalarText::copy_of(alloc, bytes)?;
    let new = keys.insert((number, copy))?;
    Ok(new)
}

impl OpenEntries {
    ghost use Rattle.std.specs.Prelude.{◌≡◌, [], ◌∷◌, ◌++◌, ◌||◌, IfOk, IfSome, is_some, not};
    ghost use Rattle.std.specs.List.{list_any};
    ghost use Rattle.std.specs.Str.{bytes_eq};

    /// A map that begins with a key.
    pub(crate) fn new(alloc: Global, key: ScalarText) -> Result<OpenEntries, AllocError>
        ensures { IfOk result (λ e. e ≡ ([], key)) }
    {
        let mut keys = BTreeSet::new(alloc);
        match with_key(alloc, &mut keys, &key) {
            Ok(_) => Ok(OpenEntries {
                pairs: Vec::new(alloc),
                key,
                keys,
            }),
            Err(refused) => Err(refused),
        }
    }

    /// These entries with a value behind the open key, and then another key; nothing where they
    /// have that key.
    pub(crate) fn next(
        self,
        alloc: Global,
        value: Node,
        key: ScalarText,
    ) -> Result<Option<OpenEntries>, AllocError>
        ensures new { IfOk result (λ o. is_some o
            ≡ not (list_any (λ p. bytes_eq key p.0) self.0 || bytes_eq key self.1)) }
        ensures more { IfOk result (λ o. IfSome o
            (λ e. e ≡ (self.0 ++ (self.1, value) ∷ [], key))) }
    {
        let OpenEntries {
            pairs,
            key: open,
            keys,
        } = self;
        let mut keys = keys;
        let new = with_key(alloc, &mut keys, &key)?;
        if !new {
            return Ok(None);
        }
        let mut pairs = pairs;
        pairs.push((open, value))?;
        Ok(Some(OpenEntries { pairs, key, keys }))
    }

    /// The entries of the map, once it has ended, with a value behind the open key.
    pub(crate) fn ended(self, value: Node) -> Result<Pairs, AllocError>
        ensures { IfOk result (λ pairs. pairs.items ≡ self.0 ++ (self.1, value) ∷ []) }
    {
        let OpenEntries { pairs, key, keys } = self;
        drop(keys);
        let mut pairs = pairs;
        pairs.push((key, value))?;
        Ok(pairs)
    }
}
