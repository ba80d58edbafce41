//! The header of a block scalar.

/// What becomes of the line feeds at the end of a block scalar (YAML 1.2.2, section 8.1.1.2).
#[derive(Clone, Copy, Drop)]
pub enum Chomping {
    /// No sign: one is kept.
    Clip,
    /// `-`: none is kept.
    Strip,
    /// `+`: all are kept.
    Keep,
}

/// A block scalar's header: literal or folded, and its sign.
#[derive(Clone, Copy, Drop)]
pub struct Style {
    pub folded: bool,
    pub chomping: Chomping,
}
