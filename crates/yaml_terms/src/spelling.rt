//! Values as they are written: which scalars are plain, and which keys stand in quotes.

use crate::text::ScalarText;

/// The key of a field as it is written.
#[derive(Drop)]
pub enum FieldKey {
    /// A word of letters that stands plain.
    Plain(ScalarText),
    /// A text in double quotes.
    Quoted(ScalarText),
}

/// A value as it is written.
#[derive(Drop)]
pub enum Spelling {
    /// A scalar that is written plain.
    Word(ScalarText),
    /// A scalar in double quotes.
    Quoted(ScalarText),
    /// A map, by its fields in order.
    Fields(Vec<(FieldKey, Spelling)>),
    /// A list, by its items.
    Items(Vec<Spelling>),
}
