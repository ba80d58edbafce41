//! The least value that takes turns, as an example of the two traits: a list of numbers.
ghost use Rattle.std.specs.Prelude.{◌≡◌, [], ◌∷◌, ◌++◌, IfSome, true, false};
ghost use Rattle.turn_desk.specs.NumberLists.{numbers};

use crate::ledgered::{Call, Ledgered};
use std::alloc::Global;

/// A plain list of numbers, each an entry; nothing is ever in doubt, and nothing fails.
#[derive(Drop)]
pub struct Numbers {
    pub items: Vec<u64>,
}

impl Ledgered for Numbers {
    ghost ledger = { λ n. numbers n.items.items };

    fn length(&self) -> u64 {
        self.items.len() as u64
    }
}

/// Adds a number. It answers whether there was memory.
#[derive(Drop)]
pub struct Add {
    pub number: u64,
}

impl Call<Numbers> for Add {
    type Out = bool;

    ghost then = { λ add old out after new. (out ≡ true
        → new.items.items ≡ old.items.items ++ add.number ∷ [])
        × (out ≡ false → new.items.items ≡ old.items.items) };

    ghost added = { λ add old out new. out };

    fn act(&mut self, value: &mut Numbers) -> bool {
        value.items.push(self.number).is_ok()
    }
}

/// Reads the list. It answers a copy, or none for want of memory.
#[derive(Drop)]
pub struct Read {
    pub alloc: Global,
}

impl Call<Numbers> for Read {
    type Out = Option<Vec<u64>>;

    ghost then = { λ read old out after new. (new ≡ old)
        × IfSome out (λ list. list.items ≡ old.items.items) };

    ghost added = { λ read old out new. false };

    fn act(&mut self, value: &mut Numbers) -> Option<Vec<u64>> {
        let mut list = Vec::new(self.alloc);
        list.extend_from_slice(value.items.as_slice()).ok()?;
        Some(list)
    }
}
