//! A block scalar that may take the next line.

/// A block scalar: the column of the key or dash behind which it stands, none at the root,
/// and the indentation of its content once a line has set it.
#[derive(Clone, Copy, Drop)]
pub struct Scalar {
    pub parent: Option<usize>,
    pub indent: Option<usize>,
    pub folded: bool,
}
