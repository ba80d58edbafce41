//! What was given away. It exists in proofs alone.
ghost use Rattle.std.specs.Prelude.{◌≡◌, ◌++◌, ◌∷◌, [], List};
ghost use Rattle.std.specs.Borrow.{ftrue};

use std::marker::{Model, PhantomData};

/// The values that were given away, in order, each as it then was. It takes no memory: who gives a
/// value away keeps nothing of it, so that the list exists in proofs alone.
#[derive(Drop)]
pub struct Given<V> {
    marker: PhantomData<V>,
    pub ghost items: { List V },
}

impl<V> Model for Given<V> {
    ghost also_owns = { λ _. ftrue };
}

impl<V> Given<V> {
    /// None yet.
    pub(crate) fn new() -> Given<V>
        ensures { result.items ≡ [] }
    {
        Given {
            marker: PhantomData,
        }
    }

    /// These and one more.
    pub(crate) fn and(&self, _value: &V) -> Given<V>
        ensures { result.items ≡ self.now.items ++ _value.now ∷ [] }
    {
        Given {
            marker: PhantomData,
        }
    }
}

// It holds nothing that a thread could lose.
unsafe impl<V: Send> Send for Given<V> {}
