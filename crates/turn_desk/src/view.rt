//! What the table keeps of a pass, for the proofs alone.
use std::collections::LinkedList;

/// An entry that a turn left in doubt, and the place at which it then would stand. No value of it
/// is ever made.
pub struct Doubt {
    /// The place behind the history as the turn left it.
    pub place: u64,
    /// The entry.
    pub entry: LinkedList<u8>,
}

/// How a desk was opened. No value of it is ever made.
pub struct Opening {
    /// How long the history was.
    pub length: u64,
    /// The entry that was in doubt.
    pub doubt: Option<LinkedList<u8>>,
    /// For how many passes it was opened.
    pub passes: u64,
}

/// The view of a seat, and so of a pass. No value of it is ever made.
pub struct View {
    /// Whether the pass is still one of the desk: a pass that was joined to another is spent.
    pub live: bool,
    /// Whether it holds the turn.
    pub holds: bool,
    /// The root of the desk's value.
    pub root: LinkedList<u8>,
    /// The history that it has seen.
    pub seen: LinkedList<LinkedList<u8>>,
    /// The entry in doubt of the value, as the pass last took it or gave it back.
    pub doubt: Option<LinkedList<u8>>,
    /// The positions of its own entries, in the order in which it made them.
    pub own: LinkedList<u64>,
    /// What its turns left in doubt, in their order.
    pub raised: LinkedList<Doubt>,
    /// How many of its turns had a fault.
    pub faults: u64,
    /// How the desk was opened.
    pub opening: Opening,
    /// For how many of the passes that the desk was opened for it stands.
    pub parts: u64,
    /// Whether a further pass was split off it.
    pub has_split: bool,
    /// The root of the pass that was joined to it last.
    pub other_root: LinkedList<u8>,
    /// The shorter of the two histories that it and that pass had seen.
    pub other_seen: LinkedList<LinkedList<u8>>,
}
