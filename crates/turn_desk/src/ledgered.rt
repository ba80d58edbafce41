//! Values that keep a ledger, and what is done to them in one turn.
ghost use Rattle.std.specs.Prelude.{◌≡◌, Bool, length};
ghost use Rattle.turn_desk.specs.Ledgers.{Ledger, GoesOn};

/// A value that keeps a ledger: a root that never changes, a history of entries that only grows,
/// at most one entry in doubt, and a count of faults.
pub trait Ledgered {
    /// What stands in the ledger. Root and entries are seen as bytes.
    ghost ledger: { Self → Ledger };

    /// How many entries the history has.
    fn length(&self) -> u64
        ensures { result ≡ length (ledger self.now).history };
}

/// What is done to a value in one turn.
pub trait Call<T: Ledgered> {
    type Out;

    /// What the call promises, of itself and the value before, of what came out, and of itself and
    /// the value after.
    ghost then: { Self → T → Self.Out → Self → T → Type 0 };

    /// Whether it added an entry of its own, of itself and the value before, what came out, and the
    /// value after. Bytes alone can't tell, since the entry in doubt may have the same.
    ghost added: { Self → T → Self.Out → T → Bool };

    /// Keeps the root. The history goes on by the entry in doubt, if at all, and then by one entry
    /// of the call's own, if it added one.
    fn act(&mut self, value: &mut T) -> Self::Out
        ensures clause { then self.old value.old result self.new value.new }
        ensures ledger { GoesOn (T.ledger value.old) (T.ledger value.new)
            (added self.old value.old result value.new) };
}
