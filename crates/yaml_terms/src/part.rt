//! Where a one-line list stands, byte by byte.

/// Where the reading of a one-line list stands.
#[derive(Clone, Copy, Drop)]
pub enum Part {
    /// An item, or the closing bracket, may begin.
    Want,
    /// Within a plain item.
    Plain,
    /// Within a single-quoted item.
    Single,
    /// Before the second quote of a doubled one.
    Doubled,
    /// Within a double-quoted item.
    Double,
    /// Behind a backslash.
    Escape,
    /// Behind a quoted item.
    After,
    /// Within something that is no item.
    Broken,
    /// Behind the closing bracket.
    Closed,
    /// Within a comment, or behind what ends the reading.
    Over,
}
