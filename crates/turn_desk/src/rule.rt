//! The rule of the desk, and what each kind of step tells. These types are for the proofs alone.
ghost use Rattle.turn_desk.specs.Rule.{Ruled, first_view, Took, Grew, Freed, Compared};

use crate::ledgered::Ledgered;
use crate::view::View;
use atomic_table::{Join, Play, Split, TableRule};
use std::marker::{Brand, PhantomData};
use std::snapshot::Snapshot;

/// What the rule is told once: the value that the desk was opened with, and for how many passes.
#[derive(Drop)]
pub struct Opened<T> {
    pub value: Snapshot<T>,
    pub passes: u32,
}

/// The rule, over how the desk was opened.
pub struct Turns;

impl<T: Ledgered> TableRule<Option<T>, View, Opened<T>> for Turns {
    ghost holds = { λ k. Ruled T.ledger k.value.value k.passes };

    ghost first = { λ k. first_view T.ledger k.value.value k.passes };
}

/// Looks at the mark, and takes the turn if it is free.
pub struct Take;

impl<T: Ledgered> Play<Option<T>, View> for Take {
    ghost then = { Took T.ledger };
}

/// What a turn did: whether the call added an entry of its own, whether the count of faults rose,
/// and what the turn left in doubt.
pub trait Did {
    ghost use Rattle.std.specs.Prelude.{Bool, List};
    ghost use Rattle.turn_desk.specs.declared.view.Doubt.{Doubt};

    ghost added: { Bool };

    ghost rose: { Bool };

    ghost left: { List Doubt };
}

impl Did for Brand {
    ghost use Rattle.std.specs.Prelude.{[], false};

    ghost added = { false };

    ghost rose = { false };

    ghost left = { [] };
}

/// The holder stores the new length of the history.
pub struct Grow<B> {
    marker: PhantomData<B>,
}

impl<T: Ledgered, B: Did> Play<Option<T>, View> for Grow<B> {
    ghost then = { Grew T.ledger B.added B.rose B.left };
}

/// The holder clears the mark.
pub struct Free;

impl<T: Ledgered> Play<Option<T>, View> for Free {
    ghost then = { Freed T.ledger };
}

/// A look at the mark that tells what the rule says of a pass.
pub struct Compare;

impl<T: Ledgered> Play<Option<T>, View> for Compare {
    ghost then = { Compared T.ledger };
}

/// A further pass that has seen as much, for which the desk wasn't opened.
pub struct Another;

impl Split<View> for Another {
    ghost use Rattle.turn_desk.specs.Views.{host, visitor};

    ghost left = { host };

    ghost right = { λ v. visitor v.root v.seen v.opening 0 };
}

/// One of the passes for which the desk is opened, which takes a part of the first one.
pub struct Deal;

impl Split<View> for Deal {
    ghost use Rattle.turn_desk.specs.Views.{giver, visitor};

    ghost left = { giver };

    ghost right = { λ v. visitor v.root v.seen v.opening 1 };
}

/// Two passes become one.
pub struct Both;

impl Join<View> for Both {
    ghost use Rattle.turn_desk.specs.Views.{view_of_both, spent_pass};

    ghost both = { view_of_both };

    ghost spent = { spent_pass };
}
